//! Least fitting bounds by two facts that meet: bounds that are shown to be at most every fitting vector, and a valid certificate for
//! them. No round, exchange, optimum or unit occurs.
//!
//! Each function here does nothing: its contract is a law. The lemmas stand in `proofs/`.
#![tactic(auto)]

ghost use Rattle.std.specs.Prelude.{◌≡◌, ℕ, ◌*◌, ◌<◌, ◌≤◌, List, length, slice_index};
ghost use Rattle.program_form.specs.Certificate.{CertificateDef};
ghost use Rattle.program_form.specs.Duals.{Covers, dual_value};
ghost use Rattle.program_form.specs.Points.{IsScaledPoint, Reaches, IsGreatestReached, worth};
ghost use Rattle.program_form.specs.Program.{ProgramDef};
ghost use Rattle.sporadic_model.specs.SetDef.{SetDef};
ghost use Rattle.sporadic_model.specs.Bounds.{AtMost};
ghost use Rattle.program_sources.specs.Recurrence.{SourceDef, source_at, interference_of, response_with};
ghost use Rattle.program_sources.specs.Fitting.{AreFitting, AreLeastFitting, AreBelowAllFitting, tasks_of};
ghost use Rattle.program_sources.specs.Valid.{IsValid};
ghost use Rattle.blocking_columns.specs.Windows.{jobs_in};
ghost use Rattle.refusal_laws.specs.Steps.{StepDef, vector_before, costs_of};
ghost use Rattle.least_laws.specs.Rising.{AreSteps};

use program_sources::{ProgramSource, recurrence_is_monotone};

/// Every fitting vector is at least each step's vector, in each place: the bounds before the first step, which are the costs, and those
/// behind each step.
pub fn fitting_vectors_are_above_each_step<P: ProgramSource>()
    ensures { (p : P) (set : SetDef) (steps : List StepDef) (s : List ℕ) (k : ℕ) → P.serves p set
        → AreSteps (source_at (P.source p) set) steps → AreFitting (source_at (P.source p) set) s → k ≤ length steps
        → AtMost (length set.tasks) (vector_before set steps k) s }
{
    recurrence_is_monotone::<P>();
}

/// The costs are at most every fitting vector.
pub fn costs_are_below_all_fitting()
    ensures { (f : SourceDef) → AreBelowAllFitting f (costs_of f.set) }
{}

/// Take bounds that are at most every fitting vector, and a blocking that a task's program reaches at them. Then the response time with
/// this blocking is at most the task's place in every fitting vector too.
pub fn reached_responses_are_below_all_fitting<P: ProgramSource>()
    ensures { (p : P) (set : SetDef) (v s : List ℕ) (i blocking : ℕ) → P.serves p set
        → AreBelowAllFitting (source_at (P.source p) set) v → AreFitting (source_at (P.source p) set) s → i < length set.tasks
        → Reaches ((source_at (P.source p) set).program i v) blocking
        → response_with (source_at (P.source p) set) v i blocking ≤ slice_index s i }
{
    recurrence_is_monotone::<P>();
}

/// A blocking that a task's program reaches at some bounds it reaches at greater bounds too.
pub fn what_is_reached_stays_reached<P: ProgramSource>()
    ensures { (p : P) (set : SetDef) (v w : List ℕ) (i blocking : ℕ) → P.serves p set → i < length set.tasks
        → AtMost (length set.tasks) v w → Reaches ((source_at (P.source p) set).program i v) blocking
        → Reaches ((source_at (P.source p) set).program i w) blocking }
{}

/// The bounds of a valid certificate that are at most every fitting vector are the least that fit.
pub fn a_certificate_below_all_fitting_is_least()
    ensures { (f : SourceDef) (c : CertificateDef) → IsValid f c → AreBelowAllFitting f c.bounds → AreLeastFitting f c.bounds }
{}

/// Steps from the costs by points of programs, and a valid certificate whose bounds they come up to, show that these bounds are the least
/// that fit.
pub fn steps_and_a_certificate_show_the_least<P: ProgramSource>()
    ensures { (p : P) (set : SetDef) (steps : List StepDef) (c : CertificateDef) → P.serves p set
        → AreSteps (source_at (P.source p) set) steps → IsValid (source_at (P.source p) set) c
        → AtMost (length set.tasks) c.bounds (vector_before set steps (length steps))
        → AreLeastFitting (source_at (P.source p) set) c.bounds }
{
    recurrence_is_monotone::<P>();
}

/// A point that is worth the whole part of a dual's value, and that dual, decide the greatest whole blocking.
pub fn a_point_and_a_dual_that_meet_decide_the_greatest()
    ensures { (p : ProgramDef) (s : ℕ) (ys : ℕ → ℕ) (den : ℕ) (num : ℕ → ℕ) → IsScaledPoint p s ys → Covers p den num
        → dual_value p den num * s ≤ worth p ys → IsGreatestReached p (dual_value p den num) }
{}

/// There is one vector of least fitting bounds at most.
pub fn least_bounds_are_one()
    ensures { (f : SourceDef) (r s : List ℕ) → AreLeastFitting f r → AreLeastFitting f s → r ≡ s }
{}

/// A window never falls where bounds rise: as many jobs of each task can run within the bound of a job of another or more, and the
/// recurrence counts no less interference.
pub fn windows_never_fall()
    ensures jobs { (set : SetDef) (r s : List ℕ) (i x : ℕ) → i < length set.tasks → x < length set.tasks
        → AtMost (length set.tasks) r s → jobs_in set (slice_index r) i x ≤ jobs_in set (slice_index s) i x }
    ensures interference { (g : ℕ → ℕ) (set : SetDef) (r s : List ℕ) (i : ℕ) → i < length set.tasks
        → AtMost (length set.tasks) r s → interference_of g set r i ≤ interference_of g set s i }
{}
