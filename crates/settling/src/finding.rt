//! What a search finds of a program, as found or with its point rounded down.

ghost use Rattle.std.specs.Prelude.{◌≡◌, ◌/◌, ◌<◌, ◌≤◌, ◌^◌, length, IfOk, IfErr, MatchOption};
ghost use Rattle.program_form.specs.Program.{columns};
ghost use Rattle.settling.specs.Rising.{IsFoundBy, IsRoundedFrom, StopsSo};

use free_search::{Found, SearchStop, round_down, search, what_is_found_is_best};
use point_tests::worth_sum;
use program_form::SparseProgram;
use std::alloc::{AllocError, Global};
use whole_numbers::Whole;

/// How the points of a walk are written.
#[derive(Clone, Copy)]
pub(crate) enum Points {
    /// As they are found, whatever their size.
    Exact,
    /// With 63 bits: as it is if it fits, else over a power of two, each number rounded down.
    Rounded,
}

fn wholes_of(alloc: Global, numbers: &[u64]) -> Result<Vec<Whole>, AllocError>
    ensures { IfOk result (λ v. v.items ≡ numbers.now) }
{
    let mut wholes = Vec::with_capacity(alloc, numbers.len())?;
    for number in numbers {
        wholes.push(Whole::of(alloc, *number))?;
    }
    Ok(wholes)
}

/// The whole part of a quotient. None if it has more than 64 bits.
fn whole_part(alloc: Global, number: &Whole, den: &Whole) -> Result<Option<u64>, AllocError>
    requires { 0 < den.now }
    ensures { IfOk result (λ found. MatchOption found (2 ^ 64 ≤ number.now / den.now) (λ ticks. ticks ≡ number.now / den.now)) }
{
    let division = number.divided_by(alloc, den)?;
    Ok(division.quotient.as_u64())
}

/// The same with its point rounded down if it needs more than 63 bits. `Lost` comes if no such point has 63 bits, or if it is worth more
/// ticks than 64 bits hold.
fn round_found(alloc: Global, program: &SparseProgram, found: Found) -> Result<Found, SearchStop>
    requires size { length found.num.items ≡ columns program.now }
    requires den { 0 < found.den }
    ensures { IsRoundedFrom program.now found result }
{
    let Some(point) = round_down(alloc, &found)? else {
        return Err(SearchStop::Lost);
    };
    let den = Whole::of(alloc, point.den);
    let num = wholes_of(alloc, &point.num)?;
    let sum = worth_sum(alloc, program, &num)?;
    let Some(ticks) = whole_part(alloc, &sum, &den)? else {
        return Err(SearchStop::Lost);
    };
    let Found { dual, used, .. } = found;
    Ok(Found {
        den,
        num,
        ticks,
        dual,
        used,
    })
}

/// The ticks that were found. They have 64 bits.
fn ticks_of(found: &Found) -> u64
    ensures is { result ≡ found.now.ticks }
    ensures bits { found.now.ticks < 2 ^ 64 }
{
    found.ticks
}

/// What a search with so many units finds of the program, with its point written in this way.
pub(crate) fn find(
    alloc: Global,
    points: Points,
    program: &SparseProgram,
    units: u64,
) -> Result<Found, SearchStop>
    ensures found { IfOk result (IsFoundBy points program.now units) }
    ensures stops { IfErr result (StopsSo points program.now units) }
{
    what_is_found_is_best();
    let found = match search(alloc, program, units) {
        Ok(found) => found,
        Err(stop) => return Err(stop),
    };
    let _ticks = ticks_of(&found);
    match points {
        Points::Exact => Ok(found),
        Points::Rounded => round_found(alloc, program, found),
    }
}
