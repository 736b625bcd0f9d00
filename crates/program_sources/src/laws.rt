//! What follows only from the laws of sources. Each function is a law: it does nothing, and what it ensures holds for every source and
//! every set that it serves.

ghost use Rattle.std.specs.Prelude.{◌≡◌, ℕ, ◌<◌, ◌≤◌, List, slice_index};
ghost use Rattle.program_form.specs.Certificate.{CertificateDef};
ghost use Rattle.sporadic_model.specs.SetDef.{SetDef, task_at};
ghost use Rattle.program_sources.specs.Recurrence.{SourceDef, source_at, ComesUp, IsResponse};
ghost use Rattle.program_sources.specs.Fitting.{AreFitting, NeverFalls, ComesUpAbove, tasks_of};
ghost use Rattle.program_sources.specs.Valid.{IsValid};

use crate::source::ProgramSource;

/// The recurrence never falls when its bounds rise. And for each response time that is possible at some bounds, one that is no less is
/// possible at greater bounds.
pub fn recurrence_is_monotone<P: ProgramSource>()
    ensures value { (p : P) (set : SetDef) → P.serves p set → NeverFalls (source_at (P.source p) set) }
    ensures reached { (p : P) (set : SetDef) → P.serves p set → ComesUpAbove (source_at (P.source p) set) }
{}

/// The recurrence has one value. It is a possible response time, and no possible response time is greater.
pub fn the_recurrence_has_one_value()
    ensures one { (f : SourceDef) (r : List ℕ) (i v w : ℕ) → IsResponse f r i v → IsResponse f r i w → v ≡ w }
    ensures comes_up { (f : SourceDef) (r : List ℕ) (i v : ℕ) → IsResponse f r i v → ComesUp f r i v }
    ensures greatest { (f : SourceDef) (r : List ℕ) (i v w : ℕ) → IsResponse f r i v → ComesUp f r i w → w ≤ v }
{}

/// Fitting bounds are at least the costs, since a blocking of zero is always reached.
pub fn fitting_bounds_are_from_the_costs()
    ensures { (f : SourceDef) (s : List ℕ) (i : ℕ) → AreFitting f s → i < tasks_of f → (task_at f.set i).cost ≤ slice_index s i }
{}

/// The bounds of a valid certificate fit, whatever its duals are.
pub fn valid_certificates_fit()
    ensures { (f : SourceDef) (c : CertificateDef) → IsValid f c → AreFitting f c.bounds }
{}
