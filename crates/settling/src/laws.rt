//! Laws of analyses and of walks. Each function does nothing: its contract holds for every source of programs.

ghost use Rattle.std.specs.Prelude.{◌≡◌, ◌<◌, ◌^◌, ℕ, List, slice_index};
ghost use Rattle.program_form.specs.Certificate.{DualDef};
ghost use Rattle.program_form.specs.Duals.{dual_value};
ghost use Rattle.program_form.specs.Points.{IsGreatestReached};
ghost use Rattle.program_form.specs.Program.{ProgramDef};
ghost use Rattle.exchange_runs.specs.Table.{Table};
ghost use Rattle.free_search.specs.Ends.{IsEndAfter, IsRoundedDual};
ghost use Rattle.program_sources.specs.Recurrence.{SourceDef};
ghost use Rattle.response_fixpoint.specs.Rounds.{Ending, Schedulable, EndsIn};
ghost use Rattle.response_fixpoint.specs.Runs.{rounds_of};
ghost use Rattle.settling.specs.Walks.{walk};
ghost use Rattle.settling.specs.Ways.{LosesWhole, NoneNeedsMore};
ghost use Rattle.settling.specs.declared.finding.Points.TheVariants.{Exact, Rounded};

use free_search::{
    no_rounded_dual_is_worth_less, the_end_is_read_in_one_way, what_is_found_is_best,
};

/// If an analysis ends with a certificate, no task needs more than 63 bits.
pub fn certificates_of_analyses_need_no_more_bits()
    ensures { (f : SourceDef) (allowance : ℕ) (bounds : List ℕ) (duals : List DualDef)
        → EndsIn (rounds_of f) allowance (Schedulable bounds duals) → NoneNeedsMore f }
{
    what_is_found_is_best();
    the_end_is_read_in_one_way();
}

/// Let the dual that a search writes lose the whole part of the optimum. Then so does each dual of the run's end that is rounded up over a
/// power of two with 63 bits.
pub fn no_rounded_dual_keeps_the_whole_part()
    ensures { (p : ProgramDef) (k : ℕ) (t : Table) (w : DualDef) (m blocking : ℕ) → LosesWhole p → IsEndAfter p k t
        → IsRoundedDual p t w → w.den ≡ 2 ^ m → IsGreatestReached p blocking
        → blocking < dual_value p w.den (λ r. slice_index w.num r) }
{
    no_rounded_dual_is_worth_less();
}

/// A walk ends in one way, with exact points and with rounded ones.
pub fn walks_have_one_ending()
    ensures exact { (f : SourceDef) (allowance : ℕ) (e g : Ending)
        → EndsIn (walk Exact f) allowance e → EndsIn (walk Exact f) allowance g → e ≡ g }
    ensures rounded { (f : SourceDef) (allowance : ℕ) (e g : Ending)
        → EndsIn (walk Rounded f) allowance e → EndsIn (walk Rounded f) allowance g → e ≡ g }
{
    what_is_found_is_best();
    the_end_is_read_in_one_way();
}
