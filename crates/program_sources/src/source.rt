ghost use Rattle.std.specs.Prelude.{◌≡◌, ℕ, ◌*◌, ◌<◌, ◌≤◌, List, length, IfOk, IsTrue};
ghost use Rattle.program_form.specs.Program.{IsProgram, IsCovered, columns};
ghost use Rattle.program_form.specs.Limits.{HasLimitsAtMost};
ghost use Rattle.sporadic_model.specs.SetDef.{SetDef, task_at};
ghost use Rattle.sporadic_model.specs.Accepted.{IsAccepted, TaskNumbers};
ghost use Rattle.sporadic_model.specs.Bounds.{AtMost, AreWithinDeadlines, AreFromCostsAbove, most_of_one_task};
ghost use Rattle.program_sources.specs.Recurrence.{SourceDef, interference_of};

use program_form::{Program, SparseProgram};
use sporadic_model::{TaskId, TaskSet};
use std::alloc::{AllocError, Global};

/// A source of blocking programs. For each set that it serves it gives a program of each task at a vector of bounds, and each task's
/// interfering cost. Bounds are in ticks, one for each task.
pub trait ProgramSource {
    /// Which task sets does the source serve? All of the laws below are about these sets.
    ghost serves: { Self → SetDef → Type 0 };

    /// The blocking program of each task of a set at bounds, and how many ticks of one of its jobs count as interference for lower tasks of
    /// its processor.
    ghost source: { Self → SetDef → SourceDef };

    /// The blocking program of task `i` at these bounds. It fails only for want of memory.
    fn program(
        &self,
        alloc: Global,
        set: &TaskSet,
        i: TaskId,
        bounds: &[u64],
    ) -> Result<Program, AllocError>
        requires serves { serves self.now set.now }
        requires task { i.0 < length set.now.tasks }
        requires within { AreWithinDeadlines set.now bounds.now }
        ensures { IfOk result (λ p. p ≡ (source self.now set.now).program i.0 bounds.now) };

    /// The same program, kept by its nonzero coefficients. It fails only for want of memory.
    fn sparse_program(
        &self,
        alloc: Global,
        set: &TaskSet,
        i: TaskId,
        bounds: &[u64],
    ) -> Result<SparseProgram, AllocError>
        requires serves { serves self.now set.now }
        requires task { i.0 < length set.now.tasks }
        requires within { AreWithinDeadlines set.now bounds.now }
        ensures { IfOk result (λ p. p ≡ (source self.now set.now).program i.0 bounds.now) }
    {
        // another source may form it without the full program
        let program = self.program(alloc, set, i, bounds)?;
        SparseProgram::new(alloc, &program)
    }

    /// The limits of the rows of task `i`'s program at these bounds. Columns and coefficients don't depend on the bounds. So a caller that
    /// has the program at other bounds renews only its limits. It fails only for want of memory.
    fn limits(
        &self,
        alloc: Global,
        set: &TaskSet,
        i: TaskId,
        bounds: &[u64],
    ) -> Result<Vec<u64>, AllocError>
        requires serves { serves self.now set.now }
        requires task { i.0 < length set.now.tasks }
        requires within { AreWithinDeadlines set.now bounds.now }
        ensures { IfOk result (λ v. v.items ≡ ((source self.now set.now).program i.0 bounds.now).limits) }
    {
        // another source may compute the limits alone
        let program = self.program(alloc, set, i, bounds)?;
        program.limits().to_vec(alloc)
    }

    /// Has task `i`'s program surely the same limits at these bounds as at the earlier ones? Then a caller keeps its program and its
    /// solution. A source that can't tell answers no.
    fn keeps_limits(&self, set: &TaskSet, i: TaskId, earlier: &[u64], bounds: &[u64]) -> bool
        requires serves { serves self.now set.now }
        requires task { i.0 < length set.now.tasks }
        requires earlier { AreWithinDeadlines set.now earlier.now }
        requires within { AreWithinDeadlines set.now bounds.now }
        ensures { IsTrue result → ((source self.now set.now).program i.0 earlier.now).limits
            ≡ ((source self.now set.now).program i.0 bounds.now).limits }
    {
        // the caller then computes the limits and compares them
        false
    }

    /// The ticks that the recurrence counts for the jobs of all higher tasks on `i`'s processor together.
    fn interference(&self, set: &TaskSet, i: TaskId, bounds: &[u64]) -> u64
        requires serves { serves self.now set.now }
        requires task { i.0 < length set.now.tasks }
        requires within { AreWithinDeadlines set.now bounds.now }
        requires from_costs { AreFromCostsAbove set.now bounds.now i.0 }
        ensures value { result ≡ interference_of (source self.now set.now).interfering set.now bounds.now i.0 }
        ensures most { result ≤ i.0 * most_of_one_task };

    /// Each column has a coefficient above zero in some row.
    ghost covers: { (p : Self) (set : SetDef) (i : ℕ) (r : List ℕ) (c : ℕ) → serves p set → i < length set.tasks
        → c < columns ((source p set).program i r) → IsCovered ((source p set).program i r) c };

    /// Columns, costs and coefficients don't depend on the bounds, and no limit falls when bounds rise.
    ghost rises: { (p : Self) (set : SetDef) (i : ℕ) (r s : List ℕ) → serves p set → i < length set.tasks
        → AtMost (length set.tasks) r s → HasLimitsAtMost ((source p set).program i r) ((source p set).program i s) };

    /// For an accepted set, and at bounds within its deadlines, the lists are a program: their lengths match and no number is large.
    ghost is_program: { (p : Self) (set : SetDef) (i : ℕ) (r : List ℕ) → serves p set → IsAccepted set → i < length set.tasks
        → AreWithinDeadlines set r → IsProgram ((source p set).program i r) };

    /// The interfering cost is at least 1.
    ghost least: { (p : Self) (set : SetDef) (h : ℕ) → serves p set → h < length set.tasks → TaskNumbers set h
        → 1 ≤ (source p set).interfering h };

    /// The interfering cost is at most the task's cost.
    ghost most: { (p : Self) (set : SetDef) (h : ℕ) → serves p set → h < length set.tasks → TaskNumbers set h
        → (source p set).interfering h ≤ (task_at set h).cost };
}
