//! Laws of calls. Each function does nothing. What it ensures holds for all calls that keep what a run promises.

ghost use Rattle.std.specs.Prelude.{◌≡◌, ◌≢◌, ℕ, List};
ghost use Rattle.outside_ports.specs.Names.{Inputs};
ghost use Rattle.sporadic_model.specs.SetDef.{SetDef};
ghost use Rattle.sporadic_model.specs.declared.ids.Protocol.TheVariants as protocol;
ghost use Rattle.protocol_names.specs.declared.ProtocolName.{ProtocolName};
ghost use Rattle.protocol_names.specs.declared.ProtocolName.TheVariants as name;
ghost use Rattle.named_laws.specs.Named.{IsCloserThan};
ghost use Rattle.command_words.specs.Spelled.{settle_words};
ghost use Rattle.run_plans.specs.Outcome.{HasOneOutcome};
ghost use Rattle.run_plans.specs.Headline.{Call};
ghost use Rattle.run_plans.specs.Run.{IsRun};
ghost use Rattle.run_plans.specs.Checked.{ChecksWhatWasWritten, ChecksWhatWasSettled, ChecksWhatWasUpgraded};
ghost use Rattle.run_plans.specs.Checked.{ChecksForAnotherSet, FindsValid, FindsOtherSet};
ghost use Rattle.run_plans.specs.Confirmed.{ConfirmsWhatWasWritten, ConfirmsWhatWasSettled, FindsConfirmed, ChecksAndConfirms};
ghost use Rattle.run_plans.specs.Twice.{AreSteady, IsCompleteCall};
ghost use Rattle.run_plans.specs.Compared.{AnalyseOneSet, RaisesNoBound};
ghost use Rattle.run_plans.specs.Compared.{SettlesWhatWasAnalysed, FindsText, SettlesWhatWasRefuted, FindsRefusal};

use settling::certificates_of_analyses_need_no_more_bits;

/// Let a first call analyse a set and write "schedulable", and a second one check the written bytes for the same bytes of the set. Then the
/// second answers `valid`, or a count of faults rises, or memory runs out.
pub fn analysed_then_checked()
    ensures { (first second : Call) → IsRun first → IsRun second → ChecksWhatWasWritten first second → FindsValid second }
{}

/// Let a first call analyse a set and write "schedulable", and a second one check the written bytes for a set of other bytes with another
/// digest. Then the second answers that the certificate is of another set, or a count of faults rises, or memory runs out.
pub fn checked_for_another_set()
    ensures { (first second : Call) → IsRun first → IsRun second → ChecksForAnotherSet first second → FindsOtherSet second }
{}

/// Let a first call refute a set and write a refusal, and a second one confirm the written bytes for the same bytes of the set. Then the
/// second answers `confirmed`, or a count of faults rises, or memory runs out.
pub fn refuted_then_confirmed()
    ensures { (first second : Call) → IsRun first → IsRun second → ConfirmsWhatWasWritten first second → FindsConfirmed second }
{}

/// Let a first call settle a set and write a certificate, with status 0, and a second one check the written bytes for the same bytes of the
/// set. Then the second answers `valid`, or a count of faults rises, or memory runs out.
pub fn settled_then_checked()
    ensures { (first second : Call) → IsRun first → IsRun second → ChecksWhatWasSettled first second → FindsValid second }
{}

/// The same if the first writes a refusal, with status 1, and the second confirms it. Then the answer is `confirmed`.
pub fn settled_then_confirmed()
    ensures { (first second : Call) → IsRun first → IsRun second → ConfirmsWhatWasSettled first second → FindsConfirmed second }
{}

/// Let a first call analyse a set and write "schedulable", and a second one settle the same bytes of the set with the same allowance. Then
/// the second writes the same text with status 0, or a count of faults rises, or memory runs out.
pub fn settled_as_analysed()
    ensures { (first second : Call) → IsRun first → IsRun second → (c : SettlesWhatWasAnalysed first second) → FindsText second c.text }
{
    certificates_of_analyses_need_no_more_bits();
}

/// Let a first call refute a set and write a refusal, and a second one settle the same bytes of the set with the same allowance. Then the
/// second writes the same text with status 1, or a count of faults rises, or memory runs out.
pub fn settled_as_refuted()
    ensures { (first second : Call) → IsRun first → IsRun second → (c : SettlesWhatWasRefuted first second) → FindsRefusal second c.text }
{}

/// Let a first call upgrade a certificate of a set, with status 0, and a second one check the written bytes for the same bytes of the set.
/// Then the second answers `valid`, or a count of faults rises, or memory runs out.
pub fn upgraded_then_checked()
    ensures { (first second : Call) → IsRun first → IsRun second → ChecksWhatWasUpgraded first second → FindsValid second }
{}

/// All words but those of `settle` have at most one outcome, whatever the inputs are.
pub fn other_words_have_one_outcome()
    ensures { (inputs : Inputs) (words : List (List ℕ))
        → ((protocol : ProtocolName) (set : List ℕ) (more : List (List ℕ)) → words ≡ settle_words protocol set more → ⊥)
        → HasOneOutcome inputs words }
{}

/// Take the same protocol and the same bytes of a set among the inputs of two calls. Then it can't be that one call finds a certificate
/// valid and the other finds a refusal confirmed.
pub fn never_accepted_and_refused()
    ensures { (first second : Call) → IsRun first → IsRun second → ChecksAndConfirms first second → ⊥ }
{}

/// Two calls over one shelf and one sink. The shelf promises that no call fails, as a `MemShelf` with no failing call does. The sink tells
/// its bytes. Let the named inputs be accepted, the work on them end with status 0 or 1, and the sink raise no count. Then each call ends
/// with its answer, or memory runs out.
pub fn two_runs()
    ensures first { (first second : Call) → IsRun first → AreSteady first second → IsCompleteCall first }
    ensures second { (first second : Call) → IsRun second → AreSteady first second → IsCompleteCall second }
{}

/// Two calls analyse one set, the first under a protocol, the second under a closer analysis of it. If both write "schedulable", no bound
/// that the second writes is greater than the first's. If the first writes it, the second doesn't say "not shown".
pub fn closer_analyses_lose_nothing()
    ensures bounds { (plain closer : ProtocolName) (first second : Call) (set : SetDef) → IsCloserThan closer plain → IsRun first
        → IsRun second → (two : AnalyseOneSet plain closer first second set) → first.status ≡ 0 → second.status ≡ 0
        → RaisesNoBound plain closer first second set two }
    ensures shown { (plain closer : ProtocolName) (first second : Call) (set : SetDef) → IsCloserThan closer plain → IsRun first
        → IsRun second → AnalyseOneSet plain closer first second set → first.status ≡ 0 → second.status ≢ 1 }
{}

/// The same for the words `dpcp` and `dpcp-w`.
pub fn windows_lose_nothing()
    ensures bounds { (first second : Call) (set : SetDef) → IsRun first → IsRun second
        → (two : AnalyseOneSet (name.Base protocol.Dpcp) name.DpcpWindows first second set) → first.status ≡ 0 → second.status ≡ 0
        → RaisesNoBound (name.Base protocol.Dpcp) name.DpcpWindows first second set two }
    ensures shown { (first second : Call) (set : SetDef) → IsRun first → IsRun second
        → AnalyseOneSet (name.Base protocol.Dpcp) name.DpcpWindows first second set → first.status ≡ 0 → second.status ≢ 1 }
{}
