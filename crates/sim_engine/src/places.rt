ghost use Rattle.std.specs.Prelude.{◌≡◌, length, map, IfOk};
ghost use Rattle.std.specs.Bool.{Decides};
ghost use Rattle.schedule_model.specs.Chosen.{IsSized};
ghost use Rattle.schedule_model.specs.Seen.{place_seen, row_seen};

use schedule_model::{JobId, JobList, Row};
use std::alloc::{AllocError, Global};

/// This many places that name no job.
fn no_jobs(alloc: Global, count: u32) -> Result<Vec<Option<JobId>>, AllocError>
    ensures { IfOk result (λ v. length v.items ≡ count) }
{
    let mut places = Vec::with_capacity(alloc, count as usize)?;
    for _ in 0..count {
        places.push(None)?;
    }
    Ok(places)
}

/// A row of the set's sizes in which nothing happens.
pub(crate) fn idle_row(alloc: Global, jobs: &JobList) -> Result<Row, AllocError>
    ensures { IfOk result (λ row. IsSized jobs.now.set (row_seen row)) }
{
    let set = jobs.set();
    let running = no_jobs(alloc, set.processors())?;
    let holders = no_jobs(alloc, set.resources())?;
    Ok(Row { running, holders })
}

/// A copy of the places.
fn copy_of_places(alloc: Global, places: &[Option<JobId>]) -> Result<Vec<Option<JobId>>, AllocError>
    ensures { IfOk result (λ v. v.items ≡ places.now) }
{
    places.to_vec(alloc)
}

/// A copy of the row.
pub(crate) fn copy_of(alloc: Global, row: &Row) -> Result<Row, AllocError>
    ensures { IfOk result (λ copy. row_seen copy ≡ row_seen row.now) }
{
    let running = copy_of_places(alloc, &row.running)?;
    let holders = copy_of_places(alloc, &row.holders)?;
    Ok(Row { running, holders })
}

/// Do the places name the same jobs?
fn are_same(a: &[Option<JobId>], b: &[Option<JobId>]) -> bool
    ensures { Decides result (map place_seen a.now ≡ map place_seen b.now) }
{
    a == b
}

/// Are the rows equal?
pub(crate) fn is_same_row(a: &Row, b: &Row) -> bool
    ensures { Decides result (row_seen a.now ≡ row_seen b.now) }
{
    are_same(&a.running, &b.running) && are_same(&a.holders, &b.holders)
}
