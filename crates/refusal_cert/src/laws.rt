//! How the rounds of refusals compare with those of an analysis. Each function does nothing: its contract is the law.

ghost use Rattle.std.specs.Prelude.{◌≡◌, ℕ, List, ◌↔◌};
ghost use Rattle.program_form.specs.Certificate.{DualDef};
ghost use Rattle.program_sources.specs.Recurrence.{SourceDef};
ghost use Rattle.response_fixpoint.specs.Rounds.{Ending, Schedulable, NotShown, EndsIn};
ghost use Rattle.response_fixpoint.specs.Runs.{rounds_of};
ghost use Rattle.refusal_cert.specs.Refuting.{refuting, AreWritable};

/// The rounds of refusals end in one way only.
pub fn the_rounds_of_refusals_have_one_ending()
    ensures { (f : SourceDef) (allowance : ℕ) (e g : Ending) → EndsIn (refuting f) allowance e → EndsIn (refuting f) allowance g → e ≡ g }
{}

/// They come to a task that isn't shown, or to bounds that fit, if and only if an analysis does and the point of each step of its
/// rounds can be written.
pub fn refutations_follow_analyses()
    ensures refused { (f : SourceDef) (allowance i value : ℕ) → EndsIn (refuting f) allowance (NotShown i value)
        ↔ ((EndsIn (rounds_of f) allowance (NotShown i value)) × AreWritable f allowance) }
    ensures schedulable { (f : SourceDef) (allowance : ℕ) (bounds : List ℕ)
        → ((points : List DualDef) × EndsIn (refuting f) allowance (Schedulable bounds points))
        ↔ (((duals : List DualDef) × EndsIn (rounds_of f) allowance (Schedulable bounds duals)) × AreWritable f allowance) }
{}
