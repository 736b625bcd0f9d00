//! The tests of a step's point, which need its task's program.

ghost use Rattle.std.specs.Prelude.{◌≡◌, ◌<◌, ◌≤◌, ◌↔◌, length, IsTrue, IfOk};
ghost use Rattle.program_form.specs.Certificate.{dual_seen};
ghost use Rattle.sporadic_model.specs.Bounds.{IsInRange};
ghost use Rattle.program_sources.specs.Recurrence.{source_at};
ghost use Rattle.refusal_laws.specs.Steps.{place_of};
ghost use Rattle.refusal_laws.specs.Seen.{step_seen};
ghost use Rattle.refusal_confirm.specs.Tests.{HasSize, ReachesValue};
ghost use Rattle.refusal_confirm.specs.Parts.{FindsBroken, FindsPart};
ghost use Rattle.refusal_confirm.specs.Given.{IsStepOf, IsProgramFor};

use crate::fault::Part;
use crate::sums::{is_worth, keeps_row};
use program_form::{Dual, SparseProgram};
use program_sources::{ProgramSource, response};
use refusal_laws::RefusalStep;
use sporadic_model::{TaskId, TaskSet};
use std::alloc::{AllocError, Global};

/// The first row that the point breaks.
fn first_broken(program: &SparseProgram, point: &Dual) -> Option<u32>
    requires { HasSize program.now (dual_seen point.now) }
    ensures { FindsBroken result program.now (dual_seen point.now) }
{
    (0..program.rows()).find(|row| !keeps_row(program, point, *row))
}

/// Are the task's cost, its point's worth and the interference together at least the step's value?
fn reaches_value<P: ProgramSource>(
    set: &TaskSet,
    protocol: &P,
    program: &SparseProgram,
    task: TaskId,
    bounds: &[u64],
    step: &RefusalStep,
) -> bool
    requires serves { P.serves protocol.now set.now }
    requires step { IsStepOf set.now task.0 bounds.now (step_seen step.now) }
    requires program { IsProgramFor (source_at (P.source protocol.now) set.now) task.0 bounds.now (step_seen step.now) program.now }
    ensures { IsTrue result ↔ ReachesValue (source_at (P.source protocol.now) set.now) bounds.now (step_seen step.now) }
{
    let unblocked = response(set, protocol, task, bounds, 0);
    is_worth(program, &step.point, step.value.saturating_sub(unblocked))
}

/// The first test of the step's point that fails at these bounds. It refuses for want of memory alone.
pub fn fault_of_point<P: ProgramSource>(
    alloc: Global,
    set: &TaskSet,
    protocol: &P,
    task: TaskId,
    bounds: &[u64],
    step: &RefusalStep,
) -> Result<Option<Part>, AllocError>
    requires serves { P.serves protocol.now set.now }
    requires task { task.0 < length set.now.tasks }
    requires place { task.0 ≡ place_of (step_seen step.now) }
    requires range { IsInRange set.now bounds.now }
    requires denominator { 1 ≤ step.now.point.den }
    ensures { IfOk result (λ part. FindsPart part (source_at (P.source protocol.now) set.now) bounds.now (step_seen step.now)) }
{
    let program = protocol.sparse_program(alloc, set, task, bounds)?;
    if step.point.num.len() != program.columns() as usize {
        return Ok(Some(Part::Size));
    }
    if let Some(row) = first_broken(&program, &step.point) {
        return Ok(Some(Part::Row(row)));
    }
    if !reaches_value(set, protocol, &program, task, bounds, step) {
        return Ok(Some(Part::Low));
    }
    Ok(None)
}
