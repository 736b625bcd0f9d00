//! How many requests that the analysed task waits for can be held beside another task, and away from it.

ghost use Rattle.std.specs.Prelude.{◌≡◌, ◌<◌, length, slice_index, IfSome, IfOk};
ghost use Rattle.number_laws.specs.Sums.{only_if};
ghost use Rattle.closer_laws.specs.CloserRows.{is_held_there};
ghost use Rattle.closer_mpcp_laws.specs.CloserMpcpRows.{shared_holdings, away_row};
ghost use Rattle.shared_requests.specs.Held.{AreSharedOut};
ghost use Rattle.closer_mpcp.specs.Amounts.{IsAmount};
ghost use Rattle.closer_mpcp.specs.Given.{AreTwoTasks, AreTaskAndNamed, AreTwoTasksAndResource, IsTaskAt};
ghost use Rattle.closer_mpcp.specs.Holdings.{passes, holdings_in_waits, has_lower, lower_held, run_of};
ghost use Rattle.closer_mpcp.specs.Sums.{made_away_from_both, AreLowerSumsOf};
ghost use Rattle.closer_mpcp.specs.Tables.{AreHeldBesideEach, AreInBound, AreInBoundEach, AreAwayTables};

use crate::ceilings::passes;
use crate::held::HeldBesideTasks;
use crate::places::Place;
use crate::sums::{Sums, away, beside, sums_of_used};
use crate::ticks::InSpan;
use fragments::share_processor;
use shared_requests::{Holders, has_holder};
use sporadic_model::{ResourceId, TaskId, TaskSet};
use std::alloc::{AllocError, Global};

// How many requests does one job of each lower task than `i` make on other processors than `x`'s and `i`'s?
fn lower_away(set: &TaskSet, i: TaskId, x: TaskId, r: ResourceId, lower: &Sums) -> u64
    requires request { AreTwoTasksAndResource set.now i.0 x.0 r.0 }
    requires lower { AreLowerSumsOf set.now (i.0) r.0 lower.now }
    ensures { result ≡ made_away_from_both set.now (slice_index lower.now.own) i.0 x.0 }
{
    // a set has at most 64 processors
    let _tasks = set.tasks();
    let elsewhere = away(set, lower, x);
    if share_processor(set, x, i) {
        elsewhere
    } else {
        elsewhere - lower.on[set.processor(i) as usize]
    }
}

// May a lower task than `i` at this place of `x` hold `r`?
fn has_lower(set: &TaskSet, place: Place, i: TaskId, x: TaskId, r: ResourceId, lower: &Sums) -> bool
    requires request { AreTwoTasksAndResource set.now i.0 x.0 r.0 }
    requires lower { AreLowerSumsOf set.now (i.0) r.0 lower.now }
    ensures { result ≡ has_lower place set.now i.0 x.0 r.0 }
{
    match place {
        Place::Beside => beside(set, lower, x) > 0,
        Place::Away => lower_away(set, i, x, r, lower) > 0,
    }
}

/// How many requests of `r` can lower tasks than `i` at this place of `x` hold while a job of `i` waits for them?
pub(crate) fn lower_held(
    set: &TaskSet,
    place: Place,
    i: TaskId,
    x: TaskId,
    r: ResourceId,
    lower: &Sums,
) -> u64
    requires request { AreTwoTasksAndResource set.now i.0 x.0 r.0 }
    requires lower { AreLowerSumsOf set.now (i.0) r.0 lower.now }
    ensures { IsAmount result (lower_held place set.now i.0 x.0 r.0) 1000 }
{
    if has_lower(set, place, i, x, r, lower) {
        set.count(i, r)
    } else {
        0
    }
}

// So many of `r`, if `x` may run requests meanwhile.
fn count_if_passing(
    set: &TaskSet,
    x: TaskId,
    q: Option<ResourceId>,
    r: ResourceId,
    held: u64,
) -> u64
    requires { AreTaskAndNamed set.now x.0 q r.0 }
    ensures { result ≡ only_if (passes set.now x.0 q r.0) held }
{
    // beside most tasks nothing is held, and what passes costs more to tell
    if held > 0 && passes(set, x, q, r) {
        held
    } else {
        0
    }
}

/// How many requests that a job of `i` waits for, and that are shared out, can other tasks hold on `x`'s processor, where `x` may run its
/// requests of this resource meanwhile, or any of its own where none is named? Higher tasks hold them within the windows of `i`'s waits.
pub(crate) fn shared_holdings(
    set: &TaskSet,
    i: TaskId,
    x: TaskId,
    q: Option<ResourceId>,
    bounds: &[u64],
    held: &HeldBesideTasks,
) -> u64
    requires tasks { AreTwoTasks set.now i.0 x.0 }
    requires first { IfSome q (λ a. a.0 < length set.now.resources) }
    requires held { AreHeldBesideEach set.now (slice_index bounds.now) i.0 held.now.requests.items }
    ensures { IsAmount result (holdings_in_waits set.now (slice_index bounds.now) i.0 x.0 q) 4096000000032000 }
{
    // a set has at most 32 resources, so the sum fits
    let _resources = set.resources();
    let used = set.used_by(i);
    let beside = &held.requests[x.0 as usize];
    let mut total = 0;
    for k in 0..used.len() {
        total += count_if_passing(set, x, q, used[k], beside[k]);
    }
    total
}

// May `i` wait for `r` while a task of `x`'s processor holds it?
fn is_held_there(set: &TaskSet, i: TaskId, x: TaskId, r: ResourceId, shared: &[bool]) -> bool
    requires request { AreTwoTasksAndResource set.now i.0 x.0 r.0 }
    requires shared { AreSharedOut set.now i.0 shared.now }
    ensures { result ≡ is_held_there set.now i.0 x.0 r.0 }
{
    shared[r.0 as usize] && has_holder(set, Holders::There, i, x, r)
}

/// The sums of the requests that higher tasks can make within the bound of a job of `i`, of each resource that `i` requests.
pub(crate) fn sums_in_bound(
    alloc: Global,
    set: &TaskSet,
    i: TaskId,
    bounds: &[u64],
) -> Result<Vec<Sums>, AllocError>
    requires { IsTaskAt set.now bounds.now i.0 }
    ensures { IfOk result (λ v. AreInBoundEach set.now (slice_index bounds.now) i.0 v.items) }
{
    // no bound is above the deadline of its task, which is within the limits of every set
    let _tasks = set.tasks();
    let span = bounds[i.0 as usize];
    sums_of_used(alloc, set, &InSpan { bounds, span }, i)
}

// How many requests of `x` can run while `i` waits for `r`, if a task of `x`'s processor may hold it then? Higher tasks on other processors hold
// as many as they make within the bound of a job of `i`.
fn run_of(
    set: &TaskSet,
    i: TaskId,
    x: TaskId,
    r: ResourceId,
    shared: &[bool],
    sums: &Sums,
    lower: &Sums,
    bounds: &[u64],
) -> u64
    requires request { AreTwoTasksAndResource set.now i.0 x.0 r.0 }
    requires shared { AreSharedOut set.now i.0 shared.now }
    requires sums { AreInBound set.now (slice_index bounds.now) i.0 r.0 sums.now }
    requires lower { AreLowerSumsOf set.now (i.0) r.0 lower.now }
    ensures { IsAmount result (run_of set.now (slice_index bounds.now) i.0 x.0 r.0) 128000000002000 }
{
    if is_held_there(set, i, x, r, shared) {
        let higher = away(set, sums, x);
        set.count(i, r) + (higher + lower_held(set, Place::Away, i, x, r, lower))
    } else {
        0
    }
}

/// How many requests of `x` can run while a job of `i` waits for what a task of `x`'s processor holds? One for each request of `i`, and one
/// more for each time that what it requests is held away from there.
pub(crate) fn run_beside_away_holdings(
    set: &TaskSet,
    i: TaskId,
    x: TaskId,
    shared: &[bool],
    sums: &[Sums],
    lower: &[Sums],
    bounds: &[u64],
) -> u64
    requires tasks { AreTwoTasks set.now i.0 x.0 }
    requires tables { AreAwayTables set.now bounds.now i.0 shared.now sums.now lower.now }
    ensures { result ≡ (away_row set.now i.0 x.0).limit (slice_index bounds.now) }
{
    // a set has at most 32 resources, so the sum fits
    let _resources = set.resources();
    let used = set.used_by(i);
    let mut total = 0;
    for k in 0..used.len() {
        total += run_of(set, i, x, used[k], shared, &sums[k], &lower[k], bounds);
    }
    total
}
