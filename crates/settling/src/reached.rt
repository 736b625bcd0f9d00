//! What the program of each task reaches at bounds, by points that are tested.

ghost use Rattle.std.specs.Prelude.{◌≡◌, ◌<◌, ◌≤◌, ◌^◌, length, IfOk, IfErr, MatchOption};
ghost use Rattle.program_form.specs.Certificate.{dual_seen};
ghost use Rattle.sporadic_model.specs.Bounds.{IsInRange};
ghost use Rattle.program_sources.specs.Recurrence.{source_at};
ghost use Rattle.settling.specs.Rising.{IsFoundOf, IsBegun, StopsAt, IsSame, IsWrittenOver, AreGreat, seen_point};

use crate::answer::SettleStop;
use crate::finding::{Points, find};
use free_search::{Found, SearchStop, what_is_found_is_best};
use point_tests::is_worth;
use program_form::{Dual, MOST_NUMBER};
use program_sources::ProgramSource;
use sporadic_model::{TaskId, TaskSet};
use std::alloc::{AllocError, Global};
use whole_numbers::Whole;

/// What a search found of a task's program at some bounds.
#[derive(Drop)]
pub(crate) struct Reached {
    /// A blocking that the program reaches, in ticks. With exact points it is the greatest.
    pub ticks: u64,
    /// The limits of its rows there. If they stay, the program stays, and what was found of it.
    pub limits: Vec<u64>,
    /// The point that reaches it, if each number has 63 bits.
    pub point: Option<Dual>,
    /// The dual of the end of its run. A certificate with this dual is judged.
    pub dual: Dual,
    /// The units that its run takes: one, and one more for each exchange.
    pub used: u64,
}

pub(crate) fn copy_of(alloc: Global, dual: &Dual) -> Result<Dual, AllocError>
    ensures { IfOk result (λ d. dual_seen d ≡ dual_seen dual.now) }
{
    Ok(Dual {
        den: dual.den,
        num: Vec::from_slice(alloc, &dual.num)?,
    })
}

// The number, if it has 63 bits.
fn small(number: &Whole) -> Option<u64>
    ensures { MatchOption result (2 ^ 63 ≤ number.now) (λ n. (n ≡ number.now) × (n < 2 ^ 63)) }
{
    match number.as_u64() {
        Some(n) if n <= MOST_NUMBER => Some(n),
        _ => None,
    }
}

// The point with numbers of 63 bits, if all its numbers have so few.
fn small_point(alloc: Global, den: &Whole, num: &[Whole]) -> Result<Option<Dual>, AllocError>
    ensures { IfOk result (λ o. MatchOption o (AreGreat den.now num.now) (λ d. IsWrittenOver den.now num.now (dual_seen d))) }
{
    let Some(den) = small(den) else {
        return Ok(None);
    };
    let mut numbers = Vec::with_capacity(alloc, num.len())?;
    for number in num {
        match small(number) {
            Some(n) => numbers.push(n)?,
            None => return Ok(None),
        }
    }
    Ok(Some(Dual { den, num: numbers }))
}

fn copy_of_point(alloc: Global, point: &Option<Dual>) -> Result<Option<Dual>, AllocError>
    ensures { IfOk result (λ o. seen_point o ≡ seen_point point.now) }
{
    match point {
        Some(point) => Ok(Some(copy_of(alloc, point)?)),
        None => Ok(None),
    }
}

/// What was found of a program whose limits stay.
fn take_over(alloc: Global, before: &Reached) -> Result<Reached, AllocError>
    ensures { IfOk result (IsSame before.now) }
{
    Ok(Reached {
        ticks: before.ticks,
        limits: Vec::from_slice(alloc, &before.limits)?,
        point: copy_of_point(alloc, &before.point)?,
        dual: copy_of(alloc, &before.dual)?,
        used: before.used,
    })
}

/// Searches the program of task `i`, whose limits at these bounds are given, and tests the point that is found.
fn search_task<P: ProgramSource>(
    alloc: Global,
    set: &TaskSet,
    protocol: &P,
    points: Points,
    i: TaskId,
    bounds: &[u64],
    limits: Vec<u64>,
    units: u64,
) -> Result<Reached, SettleStop>
    requires serves { P.serves protocol.now set.now }
    requires task { i.0 < length set.now.tasks }
    requires range { IsInRange set.now bounds.now }
    requires limits { limits.items ≡ ((P.source protocol.now set.now).program i.0 bounds.now).limits }
    ensures found { IfOk result (IsFoundOf points ((P.source protocol.now set.now).program i.0 bounds.now)) }
    ensures within { IfOk result (λ reached. reached.used ≤ units) }
    ensures stops { IfErr result (StopsAt points (source_at (P.source protocol.now) set.now) bounds.now i.0 units) }
{
    what_is_found_is_best();
    let program = protocol.sparse_program(alloc, set, i, bounds)?;
    let found = match find(alloc, points, &program, units) {
        Ok(found) => found,
        Err(SearchStop::Lost) => return Err(SettleStop::Wide(i)),
        Err(SearchStop::Units) => return Err(SettleStop::Allowance),
        Err(SearchStop::Memory) => return Err(SettleStop::Memory),
    };
    let Found {
        den,
        num,
        ticks,
        dual,
        used,
    } = found;
    if ticks > MOST_NUMBER {
        return Err(SettleStop::Wide(i));
    }
    if !is_worth(alloc, &program, &den, &num, ticks)? {
        unreachable!()
    }
    Ok(Reached {
        ticks,
        limits,
        point: small_point(alloc, &den, &num)?,
        dual,
        used,
    })
}

/// What is found of the program of task `i` at these bounds. `before` is what was found of the programs at other bounds.
pub(crate) fn reach_task<P: ProgramSource>(
    alloc: Global,
    set: &TaskSet,
    protocol: &P,
    points: Points,
    i: TaskId,
    bounds: &[u64],
    before: &[Reached],
    units: u64,
) -> Result<Reached, SettleStop>
    requires serves { P.serves protocol.now set.now }
    requires task { i.0 < length set.now.tasks }
    requires begun { IsBegun points (source_at (P.source protocol.now) set.now) bounds.now before.now }
    ensures found { IfOk result (IsFoundOf points ((P.source protocol.now set.now).program i.0 bounds.now)) }
    ensures within { IfOk result (λ reached. reached.used ≤ units) }
    ensures stops { IfErr result (StopsAt points (source_at (P.source protocol.now) set.now) bounds.now i.0 units) }
{
    let limits = protocol.limits(alloc, set, i, bounds)?;
    if let Some(last) = before.get(i.0 as usize) {
        if last.limits == limits {
            if last.used > units {
                return Err(SettleStop::Allowance);
            }
            let reached = take_over(alloc, last)?;
            return Ok(reached);
        }
    }
    search_task(alloc, set, protocol, points, i, bounds, limits, units)
}
