//! What each task's dual is worth for its program.

ghost use Rattle.std.specs.Prelude.{◌≡◌, ◌<◌, ◌^◌, Option, map, length, vec_len, option_map, IfOk};
ghost use Rattle.program_form.specs.Certificate.{dual_seen, certificate_seen};
ghost use Rattle.program_form.specs.Program.{columns, height};
ghost use Rattle.program_sources.specs.Recurrence.{source_at};
ghost use Rattle.schedule_answers.specs.Tests.{HoldsColumn};
ghost use Rattle.schedule_answers.specs.Failures.{Finds};
ghost use Rattle.dual_check.specs.Answers.{IsWorth, Weighs, FindsUncovered};
ghost use Rattle.dual_check.specs.Given.{CanBeWeighed, IsServedWithin, HasDualForEach};

use crate::lacks::lacks_of;
use crate::sums::value_to;
use program_form::{Certificate, Dual, SparseProgram};
use program_sources::ProgramSource;
use schedule_answers::Invalid;
use sporadic_model::{TaskId, TaskSet};
use std::alloc::{AllocError, Global};

/// What a dual is worth for its program.
#[derive(Clone, Copy)]
pub(crate) enum DualWorth {
    /// This is the first column that it does not hold.
    Uncovered(u32),
    /// It holds all columns and has this value, in ticks. A value above the bound counts as the bound and one more.
    Covering(u64),
}

// The first column that the rows, each times its numerator, don't hold.
fn first_uncovered(
    alloc: Global,
    program: &SparseProgram,
    dual: &Dual,
) -> Result<Option<u32>, AllocError>
    requires numerators { vec_len dual.now.num ≡ height program.now }
    ensures { IfOk result (λ found. Finds found (columns program.now) (HoldsColumn program.now (dual_seen dual.now))) }
{
    let lacks = lacks_of(alloc, program, dual)?;
    Ok((0..program.columns()).find(|c| lacks[*c as usize] > 0))
}

fn weigh(
    alloc: Global,
    program: &SparseProgram,
    dual: &Dual,
    bound: u64,
) -> Result<DualWorth, AllocError>
    requires { CanBeWeighed program.now dual.now bound }
    ensures { IfOk result (λ worth. IsWorth worth program.now (dual_seen dual.now) bound) }
{
    match first_uncovered(alloc, program, dual)? {
        Some(column) => Ok(DualWorth::Uncovered(column)),
        None => Ok(DualWorth::Covering(value_to(program, dual, bound))),
    }
}

/// What each dual is worth for its task's program at the certificate's bounds. Or the first dual that hasn't one numerator for each
/// row.
pub(crate) fn weigh_duals<P: ProgramSource>(
    alloc: Global,
    set: &TaskSet,
    protocol: &P,
    certificate: &Certificate,
) -> Result<Vec<DualWorth>, Invalid>
    requires at { IsServedWithin (P.serves protocol.now) set.now certificate.now }
    requires duals { HasDualForEach set.now certificate.now }
    ensures { Weighs result (source_at (P.source protocol.now) set.now) (certificate_seen certificate.now) }
{
    let mut worths = Vec::new(alloc);
    for i in 0..set.tasks() {
        let task = TaskId(i);
        let program = protocol.sparse_program(alloc, set, task, &certificate.bounds)?;
        let dual = &certificate.duals[i as usize];
        if dual.num.len() != program.rows() as usize {
            return Err(Invalid::DualSize(task));
        }
        let worth = weigh(alloc, &program, dual, certificate.bounds[i as usize])?;
        worths.push(worth)?;
    }
    Ok(worths)
}

/// The first task whose dual leaves a column out, and that column.
pub(crate) fn first_uncovered_of(worths: &[DualWorth]) -> Option<(TaskId, u32)>
    requires { length worths.now < 2 ^ 32 }
    ensures { FindsUncovered (option_map (λ found. (found.0.0, found.1)) result) worths.now }
{
    for (i, worth) in worths.iter().enumerate() {
        if let DualWorth::Uncovered(column) = *worth {
            return Some((TaskId(i as u32), column));
        }
    }
    None
}
