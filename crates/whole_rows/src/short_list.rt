//! What is done to the nonzero numbers of a row with few of them.

ghost use Rattle.std.specs.Prelude.{◌≡◌, ◌+◌, ◌*◌, ◌<◌, ◌^◌, IfOk, pos, ◌-ℤ◌, ◌*ℤ◌, unsigned_abs, if◌then◌else◌};
ghost use Rattle.whole_rows.specs.Rows.{listed_at};
ghost use Rattle.whole_rows.specs.Short.{CanSubtractListed, AreLeft, IsNext, IsRead, CanRead};

use crate::dense_row::less_times;
use crate::entries::{Entry, push_num};
use std::alloc::{AllocError, Global};

// The number at place k, and zero if it isn't listed.
pub(crate) fn listed_num(entries: &[Entry], k: usize) -> i64
    ensures { result ≡ listed_at entries.now k }
{
    for entry in entries {
        if entry.place == k {
            return entry.num;
        }
    }
    0
}

// The first place of the entries from index i on and of the others from index j on. None behind both.
fn next_place(entries: &[Entry], i: usize, others: &[Entry], j: usize) -> Option<usize>
    ensures { IsNext result entries.now i others.now j }
{
    match (entries.get(i), others.get(j)) {
        (Some(own), Some(other)) => Some(own.place.min(other.place)),
        (Some(own), None) => Some(own.place),
        (None, Some(other)) => Some(other.place),
        (None, None) => None,
    }
}

// The number at a place, if all entries before index i are at earlier ones and all others not. And the index of the first entry behind it.
fn num_from(entries: &[Entry], i: usize, place: usize) -> (i64, usize)
    requires { CanRead entries.now i place }
    ensures { IsRead entries.now i place result.0 result.1 }
{
    if i < entries.len() && entries[i].place == place {
        (entries[i].num, i + 1)
    } else {
        (0, i)
    }
}

// A number less f times another. The number at the place that the entering variable has counts as 0 before.
fn left_of(is_entering: bool, own: i64, f: i64, other: i64) -> i64
    requires { unsigned_abs own + unsigned_abs f * unsigned_abs other < 2 ^ 63 }
    ensures { result ≡ (if is_entering then pos 0 else own) -ℤ (f *ℤ other) }
{
    let before = if is_entering { 0 } else { own };
    less_times(before, 1, f, other)
}

// Subtracts f times the other numbers, all at places below `end`. The number at place k counts as 0 before.
pub(crate) fn less_listed(
    alloc: Global,
    end: usize,
    entries: &[Entry],
    k: usize,
    f: i64,
    others: &[Entry],
) -> Result<Vec<Entry>, AllocError>
    requires { CanSubtractListed end entries.now f others.now }
    ensures { IfOk result (λ v. AreLeft end entries.now k f others.now v.items) }
{
    let mut list = Vec::with_capacity(alloc, entries.len() + others.len())?;
    let mut i = 0;
    let mut j = 0;
    // what is left at the places before this one is listed
    let mut from = 0;
    while let Some(place) = next_place(entries, i, others, j) {
        let (own, next) = num_from(entries, i, place);
        let (other, next_other) = num_from(others, j, place);
        push_num(&mut list, place, left_of(place == k, own, f, other))?;
        i = next;
        j = next_other;
        from = place + 1;
    }
    Ok(list)
}
