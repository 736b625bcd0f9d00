//! The parts of blocking programs, and the programs and limits that are made of them.

ghost use Rattle.std.specs.Prelude.{◌≡◌, ℕ, ◌<◌, List, map, length, IfOk};
ghost use Rattle.program_form.specs.RowBlock.{block_seen, lists_of};
ghost use Rattle.program_form.specs.Program.{IsProgram};
ghost use Rattle.sporadic_model.specs.SetDef.{SetDef};
ghost use Rattle.sporadic_model.specs.Accepted.{IsAccepted};
ghost use Rattle.sporadic_model.specs.Bounds.{AreWithinDeadlines};
ghost use Rattle.blocking_columns.specs.ColumnDef.{ColumnDef, column_seen, AreKnown};
ghost use Rattle.fragments.specs.Constraints.{ConstraintDef};
ghost use Rattle.program_laws.specs.Programs.{cost_of, program_with};
ghost use Rattle.protocol_programs.specs.Given.{HasProgramAt};

use fragments::{Fragment, RowLimits, RowTaker, most_columns};
use program_form::{Program, RowBlock, SparseProgram, SparseRows, refusals_are_exact};
use sporadic_model::{TaskId, TaskSet};
use std::alloc::{AllocError, Global};

/// The parts of blocking programs: for each set that is served, the columns of each task's program, and the rows over them.
/// [`program_with`], [`sparse_program_with`] and [`limits_with`] make of them the programs, dense or sparse, and their limits.
pub trait ProgramParts {
    /// Which task sets are served? All of the laws below are about these sets.
    ghost serves: { Self → SetDef → Type 0 };

    /// The columns of each task's program, in their order.
    ghost columns: { Self → SetDef → ℕ → List ColumnDef };

    /// The rows of each task's program, in their order. A row in which no column has a coefficient above zero is left out.
    ghost rows: { Self → SetDef → ℕ → List ConstraintDef };

    /// Gives the taker all rows of task `i`'s program at these bounds, and answers its columns. It fails only for want of memory.
    fn take_rows<T: RowTaker>(
        &self,
        alloc: Global,
        taker: &mut T,
        set: &TaskSet,
        i: TaskId,
        bounds: &[u64],
    ) -> Result<Vec<Fragment>, AllocError>
        requires { HasProgramAt (serves self.now) set.now i.0 bounds.now }
        ensures columns { IfOk result (λ v. map column_seen v.items ≡ columns self.now set.now i.0) }
        ensures known { IfOk result (λ v. AreKnown (length set.now.tasks) (length set.now.resources) v.items) }
        ensures rows { IfOk result (λ v. T.takes taker.old (map column_seen v.items) (rows self.now set.now i.0) bounds.now taker.new) };

    /// For an accepted set, and at bounds within its deadlines, the columns and rows make a program: the lengths of its lists match, and no
    /// number is large.
    ghost is_program: { (p : Self) (set : SetDef) (i : ℕ) (r : List ℕ) → serves p set → IsAccepted set → i < length set.tasks
        → AreWithinDeadlines set r → IsProgram (program_with set (columns p set i) (rows p set i) r) };
}

// What any columns of the set are worth: the lengths of their requests, in ticks.
fn costs(alloc: Global, set: &TaskSet, columns: &[Fragment]) -> Result<Vec<u64>, AllocError>
    requires { AreKnown (length set.now.tasks) (length set.now.resources) columns.now }
    ensures { IfOk result (λ v. v.items ≡ map (cost_of set.now) (map column_seen columns.now)) }
{
    let mut costs = Vec::with_capacity(alloc, columns.len())?;
    for column in columns {
        costs.push(set.length(column.task, column.resource))?;
    }
    Ok(costs)
}

// The program of these lists, which are those of one.
fn program_from(costs: Vec<u64>, block: RowBlock) -> Program
    requires { IsProgram (lists_of costs.items (block_seen block)) }
    ensures { result ≡ lists_of costs.items (block_seen block) }
{
    refusals_are_exact();
    match Program::new(costs, block.rows, block.limits) {
        Ok(program) => program,
        Err(_) => unreachable!(),
    }
}

/// The blocking program of task `i` that is made of these parts, at these bounds (in ticks). It fails only for want of memory.
pub fn program_with<P: ProgramParts>(
    alloc: Global,
    parts: &P,
    set: &TaskSet,
    i: TaskId,
    bounds: &[u64],
) -> Result<Program, AllocError>
    requires { HasProgramAt (P.serves parts.now) set.now i.0 bounds.now }
    ensures { IfOk result (λ p. p ≡ program_with set.now (P.columns parts.now set.now i.0) (P.rows parts.now set.now i.0) bounds.now) }
{
    // the set is accepted, so its columns and rows make a program
    let _tasks = set.tasks();
    let mut block = RowBlock {
        rows: Vec::new(alloc),
        limits: Vec::new(alloc),
    };
    let columns = parts.take_rows(alloc, &mut block, set, i, bounds)?;
    let costs = costs(alloc, set, &columns)?;
    Ok(program_from(costs, block))
}

/// The same program as that of [`program_with`], kept by its nonzero coefficients. It fails only for want of memory.
pub fn sparse_program_with<P: ProgramParts>(
    alloc: Global,
    parts: &P,
    set: &TaskSet,
    i: TaskId,
    bounds: &[u64],
) -> Result<SparseProgram, AllocError>
    requires { HasProgramAt (P.serves parts.now) set.now i.0 bounds.now }
    ensures { IfOk result (λ p. p ≡ program_with set.now (P.columns parts.now set.now i.0) (P.rows parts.now set.now i.0) bounds.now) }
{
    // the set is accepted, so its columns and rows make a program
    let _tasks = set.tasks();
    // room for three columns of each request entry: about one is there, it is in three or four rows, and most rows have two columns or more
    let room = most_columns(set);
    let mut taken = SparseRows::with_room(alloc, room / 2, room / 2 * 3)?;
    let columns = parts.take_rows(alloc, &mut taken, set, i, bounds)?;
    let costs = costs(alloc, set, &columns)?;
    Ok(SparseProgram::over(costs, taken))
}

/// The limits of that program at these bounds, without its coefficients. It fails only for want of memory.
pub fn limits_with<P: ProgramParts>(
    alloc: Global,
    parts: &P,
    set: &TaskSet,
    i: TaskId,
    bounds: &[u64],
) -> Result<Vec<u64>, AllocError>
    requires { HasProgramAt (P.serves parts.now) set.now i.0 bounds.now }
    ensures { IfOk result (λ v. v.items
        ≡ (program_with set.now (P.columns parts.now set.now i.0) (P.rows parts.now set.now i.0) bounds.now).limits) }
{
    let mut taken = RowLimits {
        limits: Vec::with_capacity(alloc, most_columns(set) / 2)?,
    };
    parts.take_rows(alloc, &mut taken, set, i, bounds)?;
    Ok(taken.limits)
}
