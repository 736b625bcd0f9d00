ghost use Rattle.std.specs.Prelude.{◌≡◌, ◌<◌, ◌≤◌, ◌*◌, map, length, OnOk, IfOk, not, ◌==◌, ◌&&◌, if◌then◌else◌, [], ◌∷◌};
ghost use Rattle.std.specs.List.{filter};
ghost use Rattle.number_laws.specs.Sums.{sum_below};
ghost use Rattle.sporadic_model.specs.Users.{users_of};
ghost use Rattle.sporadic_model.specs.Homes.{HasHomesFor};
ghost use Rattle.blocking_columns.specs.Ceilings.{may_precede};
ghost use Rattle.blocking_columns.specs.ColumnDef.{column_seen, classes_of, Gains, is_direct, is_indirect, is_preemption};
ghost use Rattle.blocking_columns.specs.Columns.{has_path, is_column, is_lower_local, columns_of, requests_where};
ghost use Rattle.blocking_columns.specs.Given.{AreTwoTasks, AreTaskAndUser};
ghost use Rattle.blocking_columns.specs.Links.{AreLinksTo, AreLinksOfColumns, HaveLinks, IsTaskUnderSharing, may_have_columns};

use crate::homes::{HomeTest, home_marks};
use crate::linking::{Links, Rival, links_of};
use crate::passing::fragments_where;
use crate::places::{lower_local, may_precede, place_seen, uses};
use sporadic_model::{Protocol, ResourceId, TaskId, TaskSet};
use std::alloc::{AllocError, Global};

/// How a request blocks a job that it is charged to. Classes are ordered as they stand here.
#[derive(Clone, Copy, Debug, PartialEq, Eq, PartialOrd, Ord)]
pub enum Class {
    /// The job waits for the resource that the request holds.
    Direct,
    /// The job waits for another resource, whose holder cannot run while the request does.
    Indirect,
    /// The job is ready, or under DPCP runs no request, and the request runs on its processor.
    Preemption,
}

impl Class {
    /// Is it direct blocking?
    pub fn is_direct(self) -> bool
        ensures { result ≡ is_direct self }
    {
        match self {
            Class::Direct => true,
            Class::Indirect | Class::Preemption => false,
        }
    }

    /// Is it indirect blocking?
    pub fn is_indirect(self) -> bool
        ensures { result ≡ is_indirect self }
    {
        match self {
            Class::Indirect => true,
            Class::Direct | Class::Preemption => false,
        }
    }

    /// Is it preemption blocking?
    pub fn is_preemption(self) -> bool
        ensures { result ≡ is_preemption self }
    {
        match self {
            Class::Preemption => true,
            Class::Direct | Class::Indirect => false,
        }
    }
}

/// A column of a task's blocking program: the requests of a resource by another task that block in one way.
#[derive(Clone, Copy, Debug, PartialEq, Eq)]
pub struct Fragment {
    /// The task that makes the requests.
    pub task: TaskId,
    /// The resource that it requests.
    pub resource: ResourceId,
    /// How the requests block.
    pub class: Class,
}

// The column of requests of `q` by `x` that block in this way.
pub(crate) fn column(x: TaskId, q: ResourceId, class: Class) -> Fragment
    ensures { column_seen result ≡ record { task = x.0; resource = q.0; class = class } }
{
    Fragment {
        task: x,
        resource: q,
        class,
    }
}

// Is the link another task than `x`, with another resource than `q`, and may its holder wait while one of `q`, whose place this is, runs?
fn stands_behind(protocol: Protocol, x: TaskId, q: ResourceId, place: u32, link: &Rival) -> bool
    ensures { result ≡ (not (link.now.task.0 == x.0)
        && (not (link.now.resource.0 == q.0) && may_precede protocol place link.now.place)) }
{
    // most links fail here, where any does
    if !may_precede(protocol, place, link.place) {
        return false;
    }
    link.task != x && link.resource != q
}

// Is there a path from `i` to requests of `q` by `x`?
fn reaches(
    set: &TaskSet,
    protocol: Protocol,
    i: TaskId,
    x: TaskId,
    q: ResourceId,
    links: &[Rival],
) -> bool
    requires resource { q.0 < length set.now.resources }
    requires to { AreLinksTo protocol set.now i.0 x.0 links.now }
    ensures { result ≡ has_path protocol set.now i.0 x.0 q.0 }
{
    if links.is_empty() {
        return false;
    }
    let place = place_seen(set, protocol, set.processor(x), q);
    links
        .iter()
        .any(|link| stands_behind(protocol, x, q, place, link))
}

// Adds the column, if it passes.
fn add_if(columns: &mut Vec<Fragment>, passes: bool, c: Fragment) -> Result<(), AllocError>
    ensures { OnOk result (Gains columns.old.items columns.new.items (if passes then column_seen c ∷ [] else [])) }
{
    if passes {
        columns.push(c)?;
    }
    Ok(())
}

// Under MPCP and FMLP+, adds the columns of requests of `q` by `x`, which uses it. Whether `x` is a lower task beside `i` is told.
fn add_requests(
    columns: &mut Vec<Fragment>,
    links: &[Rival],
    set: &TaskSet,
    protocol: Protocol,
    i: TaskId,
    x: TaskId,
    q: ResourceId,
    lower: bool,
) -> Result<(), AllocError>
    requires user { AreTaskAndUser set.now i.0 x.0 q.0 }
    requires lower { lower ≡ is_lower_local set.now i.0 x.0 }
    requires links { AreLinksOfColumns protocol set.now i.0 x.0 links.now }
    ensures { OnOk result (Gains columns.old.items columns.new.items (filter (is_column protocol set.now i.0) (classes_of x.0 q.0))) }
{
    let direct = uses(set, i, q);
    let indirect = reaches(set, protocol, i, x, q, links);
    add_if(columns, direct, column(x, q, Class::Direct))?;
    add_if(columns, indirect, column(x, q, Class::Indirect))?;
    add_if(columns, lower, column(x, q, Class::Preemption))
}

// Adds the columns of requests by `x`, which may have some.
fn add_requests_of(
    columns: &mut Vec<Fragment>,
    links: &[Rival],
    set: &TaskSet,
    protocol: Protocol,
    i: TaskId,
    x: TaskId,
) -> Result<(), AllocError>
    requires { AreLinksOfColumns protocol set.now i.0 x.0 links.now }
    ensures { OnOk result (Gains columns.old.items columns.new.items (requests_where (is_column protocol set.now i.0) set.now x.0)) }
{
    let lower = lower_local(set, i, x);
    let used = set.used_by(x);
    for q in used {
        add_requests(columns, links, set, protocol, i, x, *q, lower)?;
    }
    Ok(())
}

// Under MPCP and FMLP+, may requests by `x` be columns? Those of `i` and of higher tasks beside it never are.
fn may_have_columns(set: &TaskSet, i: TaskId, x: TaskId) -> bool
    requires { AreTwoTasks set.now i.0 x.0 }
    ensures { result ≡ may_have_columns set.now i.0 x.0 }
{
    x != i && !set.higher_local(i, x)
}

// Under MPCP and FMLP+, adds the columns of the requests by task `x`.
fn add_requests_by(
    columns: &mut Vec<Fragment>,
    links: &Links,
    set: &TaskSet,
    protocol: Protocol,
    i: TaskId,
    x: TaskId,
) -> Result<(), AllocError>
    requires sharing { IsTaskUnderSharing protocol set.now i.0 }
    requires other { x.0 < length set.now.tasks }
    requires links { HaveLinks protocol set.now i.0 links.now.rivals.items links.now.begins.items }
    ensures { OnOk result (Gains columns.old.items columns.new.items (requests_where (is_column protocol set.now i.0) set.now x.0)) }
{
    if !may_have_columns(set, i, x) {
        return Ok(());
    }
    let beside = links.at(set.processor(x));
    add_requests_of(columns, beside, set, protocol, i, x)
}

// How many tasks use the resource?
fn number_of_users(set: &TaskSet, q: ResourceId) -> usize
    requires { q.0 < length set.now.resources }
    ensures value { result ≡ length (users_of set.now q.0) }
    ensures most { result ≤ 64 }
{
    // no more than the set's tasks, which are few
    let _tasks = set.tasks();
    set.users(q).len()
}

/// Room for the columns of a task: three for each request entry of the set.
pub fn most_columns(set: &TaskSet) -> usize
    ensures value { result ≡ 3 * sum_below (length set.now.resources) (λ q. length (users_of set.now q)) }
    ensures most { result ≤ 6144 }
{
    let mut entries = 0usize;
    for q in 0..set.resources() {
        entries += number_of_users(set, ResourceId(q));
    }
    3 * entries
}

// The columns under MPCP and FMLP+.
fn shared_fragments(
    alloc: Global,
    set: &TaskSet,
    protocol: Protocol,
    i: TaskId,
) -> Result<Vec<Fragment>, AllocError>
    requires { IsTaskUnderSharing protocol set.now i.0 }
    ensures { IfOk result (λ v. map column_seen v.items ≡ columns_of protocol set.now i.0) }
{
    let links = links_of(alloc, set, protocol, i)?;
    let mut columns = Vec::with_capacity(alloc, most_columns(set))?;
    for x in 0..set.tasks() {
        add_requests_by(&mut columns, &links, set, protocol, i, TaskId(x))?;
    }
    Ok(columns)
}

// The columns under DPCP.
fn home_fragments(alloc: Global, set: &TaskSet, i: TaskId) -> Result<Vec<Fragment>, AllocError>
    requires task { i.0 < length set.now.tasks }
    ensures { IfOk result (λ v. map column_seen v.items ≡ columns_of Protocol.Dpcp set.now i.0) }
{
    let marks = home_marks(alloc, set, i)?;
    fragments_where(alloc, &HomeTest { marks }, set, i)
}

/// The columns of task `i`'s blocking program: requests of other tasks, by resource and by how they block. They stand in
/// order of the task, then the resource, then the class, and do not depend on any bounds.
pub fn fragments(
    alloc: Global,
    set: &TaskSet,
    protocol: Protocol,
    i: TaskId,
) -> Result<Vec<Fragment>, AllocError>
    requires task { i.0 < length set.now.tasks }
    requires suits { HasHomesFor protocol set.now }
    ensures { IfOk result (λ v. map column_seen v.items ≡ columns_of protocol set.now i.0) }
{
    match protocol {
        Protocol::Mpcp | Protocol::FmlpPlus => shared_fragments(alloc, set, protocol, i),
        Protocol::Dpcp => home_fragments(alloc, set, i),
    }
}
