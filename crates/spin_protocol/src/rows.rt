//! The code of the rows that only spin locks have.

ghost use Rattle.std.specs.Prelude.{◌≡◌, ◌<◌, ◌≤◌, ◌*◌, ◌+◌, [], ◌∷◌, map, length, slice_index};
ghost use Rattle.number_laws.specs.Sums.{flag};
ghost use Rattle.sporadic_model.specs.Users.{count_of};
ghost use Rattle.blocking_columns.specs.ColumnDef.{column_seen};
ghost use Rattle.fragments.specs.Constraints.{per};
ghost use Rattle.spin_charging.specs.SpinPrograms.{spin_columns, lower_request_row, is_from, is_used_below, higher_requests};
ghost use Rattle.spin_protocol.specs.SpinRows.{row_of_kind, is_spun_for};
ghost use Rattle.spin_protocol.specs.Origins.{AreOrigins};
ghost use Rattle.spin_protocol.specs.Given.{AreOfSet};

use crate::origins::is_origin;
use fragments::{
    Constraint, Fragment, PerNumber, RowKind, RowTaker, add_per_number, add_row, cnt, lower_local,
    share_processor, uses,
};
use sporadic_model::{ResourceId, TaskId, TaskSet};
use std::alloc::{AllocError, Global};

/// How many requests of lower tasks block a job by preemption: the one that was open at its release.
const LOWER_REQUESTS: u64 = 1;

/// At most this many requests of lower tasks block by preemption.
#[derive(Drop)]
pub(crate) struct LowerRequestRow;

impl RowKind for LowerRequestRow {
    ghost row_of = { λ k set i. lower_request_row };

    fn coefficient(&self, _set: &TaskSet, _i: TaskId, column: Fragment) -> u64 {
        if column.class.is_preemption() { 1 } else { 0 }
    }
}

impl Constraint for LowerRequestRow {
    fn limit(&self, _set: &TaskSet, _i: TaskId, _bounds: &[u64]) -> u64 {
        LOWER_REQUESTS
    }
}

/// Is it a column of requests of the resource by a task of the processor?
pub fn is_from(set: &TaskSet, processor: u32, resource: ResourceId, column: Fragment) -> bool
    requires { column.task.0 < length set.now.tasks }
    ensures { result ≡ is_from set.now processor resource.0 (column_seen column) }
{
    // most columns are of another resource
    column.resource == resource && set.processor(column.task) == processor
}

/// Does a lower task of `i`'s processor use the resource?
pub fn is_used_below(set: &TaskSet, i: TaskId, q: ResourceId) -> bool
    requires task { i.0 < length set.now.tasks }
    requires resource { q.0 < length set.now.resources }
    ensures { result ≡ is_used_below set.now i.0 q.0 }
{
    let users = set.users(q);
    for x in users {
        if lower_local(set, i, *x) {
            return true;
        }
    }
    false
}

/// 1 if the test passes, and else 0.
pub fn one_if(test: bool) -> u64
    ensures { result ≡ flag test }
{
    if test { 1 } else { 0 }
}

/// How many requests of the resource can the higher tasks of `i`'s processor make while a job of `i` runs?
pub fn higher_requests(set: &TaskSet, i: TaskId, q: ResourceId, bounds: &[u64]) -> u64
    requires { AreOfSet set.now i.0 q.0 bounds.now }
    ensures value { result ≡ higher_requests set.now (slice_index bounds.now) i.0 q.0 }
    ensures most { result ≤ i.0 * 2000000000000 }
{
    // a set has at most 64 tasks, so the sum fits
    let _tasks = set.tasks();
    let mut total = 0;
    for h in 0..i.0 {
        if share_processor(set, TaskId(h), i) {
            total += cnt(set, i, TaskId(h), q, bounds);
        }
    }
    total
}

/// How many requests of the resource from `i`'s processor can spin while a job of `i` runs? Three kinds count: its own, those of higher
/// tasks, and one of a lower task.
pub fn spinning_requests(set: &TaskSet, i: TaskId, q: ResourceId, bounds: &[u64]) -> u64
    requires { AreOfSet set.now i.0 q.0 bounds.now }
    ensures { result ≡ count_of set.now i.0 q.0
        + (higher_requests set.now (slice_index bounds.now) i.0 q.0 + flag (is_used_below set.now i.0 q.0)) }
{
    // a set has at most 64 tasks, so the sum fits
    let _tasks = set.tasks();
    let lower = one_if(is_used_below(set, i, q));
    set.count(i, q) + (higher_requests(set, i, q, bounds) + lower)
}

/// Which requests from the analysed task's processor spin in a row.
#[derive(Clone, Copy, Debug, PartialEq, Eq)]
pub(crate) enum Spinning {
    /// Those of all its tasks.
    All,
    /// Those of the analysed task itself.
    Own,
}

/// Can such requests of the resource spin? If they are to be the analysed task's own, it has to use it.
fn is_spun_for(set: &TaskSet, i: TaskId, spinning: Spinning, q: ResourceId) -> bool
    requires task { i.0 < length set.now.tasks }
    requires resource { q.0 < length set.now.resources }
    ensures { result ≡ is_spun_for spinning set.now i.0 q.0 }
{
    match spinning {
        Spinning::All => true,
        Spinning::Own => uses(set, i, q),
    }
}

/// Of a processor, counted from 1, and a resource: each of these requests of it spins for at most one request from that processor.
#[derive(Drop)]
struct SpinningRow {
    spinning: Spinning,
    processor: u32,
    resource: ResourceId,
}

impl RowKind for SpinningRow {
    ghost row_of = { λ k set i. row_of_kind k.spinning set i k.processor k.resource.0 };

    ghost fits = { λ k set. k.resource.0 < length set.resources };

    fn coefficient(&self, set: &TaskSet, _i: TaskId, column: Fragment) -> u64 {
        let from_there = is_from(set, self.processor, self.resource, column);
        match self.spinning {
            Spinning::All => one_if(from_there && !column.class.is_preemption()),
            Spinning::Own => one_if(from_there && column.class.is_direct()),
        }
    }
}

impl Constraint for SpinningRow {
    fn limit(&self, set: &TaskSet, i: TaskId, bounds: &[u64]) -> u64 {
        match self.spinning {
            Spinning::All => spinning_requests(set, i, self.resource, bounds),
            Spinning::Own => set.count(i, self.resource),
        }
    }
}

/// The rows of a processor, counted from 1, one for each resource. They have the table of where the columns come from.
#[derive(Drop)]
struct SpinningFrom<'a> {
    spinning: Spinning,
    processor: u32,
    origins: &'a [bool],
}

impl<'a> PerNumber for SpinningFrom<'a> {
    ghost rows_of = { λ k set i q. row_of_kind k.spinning set i k.processor q ∷ [] };

    ghost fits = { λ k set i columns q. (q < length set.resources)
        × (AreOrigins set columns k.origins.now × (map column_seen columns ≡ spin_columns set i)) };

    fn add<T: RowTaker>(
        &self,
        alloc: Global,
        taker: &mut T,
        set: &TaskSet,
        i: TaskId,
        number: u32,
        bounds: &[u64],
        columns: &[Fragment],
    ) -> Result<(), AllocError> {
        // the tasks of most processors use few of the resources
        let resource = ResourceId(number);
        if !is_origin(self.origins, self.processor, resource) {
            return Ok(());
        }
        // a task requests few of the resources
        if !is_spun_for(set, i, self.spinning, resource) {
            return Ok(());
        }
        let row = SpinningRow {
            spinning: self.spinning,
            processor: self.processor,
            resource,
        };
        add_row(alloc, taker, &row, set, i, bounds, columns)
    }
}

/// The rows of each processor.
#[derive(Drop)]
pub(crate) struct SpinningRows<'a> {
    pub(crate) spinning: Spinning,
    pub(crate) origins: &'a [bool],
}

impl<'a> PerNumber for SpinningRows<'a> {
    ghost rows_of = { λ k set i n. per (length set.resources) (row_of_kind k.spinning set i (n + 1)) };

    ghost fits = { λ k set i columns n. (n < set.processors)
        × (AreOrigins set columns k.origins.now × (map column_seen columns ≡ spin_columns set i)) };

    fn add<T: RowTaker>(
        &self,
        alloc: Global,
        taker: &mut T,
        set: &TaskSet,
        i: TaskId,
        number: u32,
        bounds: &[u64],
        columns: &[Fragment],
    ) -> Result<(), AllocError> {
        // a set has few processors
        let _processors = set.processors();
        let rows = SpinningFrom {
            spinning: self.spinning,
            processor: number + 1,
            origins: self.origins,
        };
        let resources = set.resources();
        add_per_number(alloc, taker, &rows, set, resources, i, bounds, columns)
    }
}
