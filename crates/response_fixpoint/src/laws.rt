//! Laws of the rounds and of fitting bounds. Each function does nothing: its contract is the law.

ghost use Rattle.std.specs.Prelude.{◌≡◌, ℕ, ◌<◌, ◌≤◌, ◌↔◌, List, length, slice_index};
ghost use Rattle.sporadic_model.specs.SetDef.{SetDef};
ghost use Rattle.sporadic_model.specs.declared.ids.Protocol.{Protocol};
ghost use Rattle.program_sources.specs.Recurrence.{SourceDef, IsResponse, source_at};
ghost use Rattle.program_sources.specs.Fitting.{AreFitting, AreLeastFitting, latest_of, tasks_of};
ghost use Rattle.program_laws.specs.Programs.{source_of};
ghost use Rattle.response_fixpoint.specs.Rounds.{Ending, Schedulable, Allowance, Reaches, EndsIn};
ghost use Rattle.response_fixpoint.specs.Runs.{rounds_of, HasNoColumns, RequestsNothing};
ghost use Rattle.response_fixpoint.specs.Worked.{source_alone, bounds_alone, duals_alone};

use program_sources::{ProgramSource, recurrence_is_monotone};

/// If some bounds fit, there are least ones that fit. This holds for every source that serves the set, without a further premise.
pub fn a_least_fitting_vector_exists<P: ProgramSource>()
    ensures { (p : P) (set : SetDef) (s : List ℕ) → P.serves p set
        → AreFitting (source_at (P.source p) set) s
        → (b : List ℕ) × AreLeastFitting (source_at (P.source p) set) b }
{
    recurrence_is_monotone::<P>();
}

/// Bounds fit if and only if each task's recurrence has a value at them, this value is at most the task's bound, and the bound is at
/// most the latest one.
pub fn fitting_is_by_the_values_of_the_recurrence<P: ProgramSource>()
    ensures { (p : P) (set : SetDef) (s : List ℕ) → P.serves p set
        → AreFitting (source_at (P.source p) set) s ↔ ((length s ≡ tasks_of (source_at (P.source p) set))
        × ((i : ℕ) → i < tasks_of (source_at (P.source p) set) → (v : ℕ) × (IsResponse (source_at (P.source p) set) s i v)
        × (v ≤ slice_index s i) × (slice_index s i ≤ latest_of (source_at (P.source p) set) i))) }
{}

/// The rounds end in one way only.
pub fn the_rounds_have_one_ending()
    ensures { (f : SourceDef) (allowance : ℕ) (e g : Ending) → EndsIn (rounds_of f) allowance e → EndsIn (rounds_of f) allowance g → e ≡ g }
{}

/// If no task requests a resource, no program has a column, under any protocol.
pub fn no_requests_no_columns()
    ensures { (protocol : Protocol) (set : SetDef) → RequestsNothing set → HasNoColumns (source_of protocol set) }
{}

/// A worked set of three tasks. Three rounds come to new bounds, at last to 1, 3 and 10, and a fourth keeps these. Each round takes
/// three units. So twelve units are enough, and eleven too few.
pub fn three_tasks_take_four_rounds()
    ensures rounds { Reaches (rounds_of source_alone) 12 3 9 bounds_alone }
    ensures ends { EndsIn (rounds_of source_alone) 12 (Schedulable bounds_alone duals_alone) }
    ensures short { EndsIn (rounds_of source_alone) 11 Allowance }
{}
