//! The resources by which requests of another task can block the analysed one indirectly.

ghost use Rattle.std.specs.Prelude.{◌≡◌, ◌<◌, ◌+◌, ◌++◌, length, OnOk, IfOk, [], ◌∷◌};
ghost use Rattle.std.specs.List.{filter};
ghost use Rattle.blocking_columns.specs.Links.{AreKnownRivals, AreKnownRivalsAt, AreAllRivals, AreParted, HaveLinks, HasPart};
ghost use Rattle.blocking_columns.specs.Links.{IsTaskUnderSharing, rival_if_other, is_at, part_at};

use crate::places::place_seen;
use sporadic_model::{Protocol, ResourceId, TaskId, TaskSet};
use std::alloc::{AllocError, Global};

/// A task that uses a resource which the analysed task uses too.
#[derive(Clone, Copy, Debug, PartialEq, Eq)]
pub(crate) struct Rival {
    pub(crate) task: TaskId,
    pub(crate) resource: ResourceId,
    /// The task's processor.
    pub(crate) processor: u32,
    /// The place of the resource's ceiling as that processor sees it.
    pub(crate) place: u32,
}

// Adds the task with the resource, if it is another one than `i`.
fn add_rival(
    rivals: &mut Vec<Rival>,
    set: &TaskSet,
    protocol: Protocol,
    i: TaskId,
    y: TaskId,
    r: ResourceId,
) -> Result<(), AllocError>
    requires task { y.0 < length set.now.tasks }
    requires by { r.0 < length set.now.resources }
    ensures { OnOk result (rivals.new.items ≡ rivals.old.items ++ rival_if_other protocol set.now i.0 y r) }
{
    if y != i {
        let processor = set.processor(y);
        rivals.push(Rival {
            task: y,
            resource: r,
            processor,
            place: place_seen(set, protocol, processor, r),
        })?;
    }
    Ok(())
}

// Adds the tasks other than `i` that use the resource.
fn add_users(
    rivals: &mut Vec<Rival>,
    set: &TaskSet,
    protocol: Protocol,
    i: TaskId,
    r: ResourceId,
) -> Result<(), AllocError>
    requires by { r.0 < length set.now.resources }
    requires known { AreKnownRivals protocol set.now rivals.old.items }
    ensures { OnOk result (AreKnownRivalsAt protocol set.now i.0 r.0 rivals.old.items rivals.new.items) }
{
    let users = set.users(r);
    for y in users {
        add_rival(rivals, set, protocol, i, *y, r)?;
    }
    Ok(())
}

/// The tasks that use a resource which `i` uses too, each with the resource.
pub(crate) fn rivals_of(
    alloc: Global,
    set: &TaskSet,
    protocol: Protocol,
    i: TaskId,
) -> Result<Vec<Rival>, AllocError>
    requires { i.0 < length set.now.tasks }
    ensures { IfOk result (λ v. AreAllRivals protocol set.now i.0 v.items) }
{
    let used = set.used_by(i);
    // room to begin with; the list grows where there are more
    let mut rivals = Vec::with_capacity(alloc, 64)?;
    for r in used {
        add_users(&mut rivals, set, protocol, i, *r)?;
    }
    Ok(rivals)
}

// Adds the rival, if its task is on processor `k`.
fn add_link(links: &mut Vec<Rival>, k: u32, rival: Rival) -> Result<(), AllocError>
    ensures { OnOk result (links.new.items ≡ links.old.items ++ filter (is_at k) (rival ∷ [])) }
{
    if rival.processor == k {
        links.push(rival)?;
    }
    Ok(())
}

// Adds the rivals whose tasks are on processor `k`.
fn add_links(links: &mut Vec<Rival>, k: u32, rivals: &[Rival]) -> Result<(), AllocError>
    ensures { OnOk result (links.new.items ≡ links.old.items ++ filter (is_at k) rivals.now) }
{
    for rival in rivals {
        add_link(links, k, *rival)?;
    }
    Ok(())
}

/// The rivals, parted by the processors of their tasks.
#[derive(Drop)]
pub(crate) struct Links {
    /// Those of each processor behind those of the processors before.
    pub(crate) rivals: Vec<Rival>,
    /// Where those of each processor begin, and then where the last ones end.
    pub(crate) begins: Vec<usize>,
}

impl Links {
    /// The rivals on processor `k`.
    pub(crate) fn at(&self, k: u32) -> &[Rival]
        requires { HasPart self.now.rivals.items self.now.begins.items k }
        ensures { result.now ≡ part_at self.now.rivals.items self.now.begins.items k }
    {
        let place = k as usize;
        &self.rivals[self.begins[place]..self.begins[place + 1]]
    }
}

// The rivals, processor by processor. No task is on processor 0.
fn links_by_processor(alloc: Global, set: &TaskSet, rivals: &[Rival]) -> Result<Links, AllocError>
    ensures { IfOk result (λ l. AreParted (set.now.processors + 1) rivals.now l.rivals.items l.begins.items) }
{
    let mut links = Vec::with_capacity(alloc, rivals.len())?;
    let mut begins = Vec::with_capacity(alloc, set.processors() as usize + 2)?;
    begins.push(0usize)?;
    for k in 0..set.processors() + 1 {
        add_links(&mut links, k, rivals)?;
        begins.push(links.len())?;
    }
    Ok(Links {
        rivals: links,
        begins,
    })
}

/// Finds by processor the rivals by whose resources requests of tasks there can block `i` indirectly, under MPCP and FMLP+. A resource
/// may be that of several.
pub(crate) fn links_of(
    alloc: Global,
    set: &TaskSet,
    protocol: Protocol,
    i: TaskId,
) -> Result<Links, AllocError>
    requires { IsTaskUnderSharing protocol set.now i.0 }
    ensures { IfOk result (λ l. HaveLinks protocol set.now i.0 l.rivals.items l.begins.items) }
{
    let rivals = rivals_of(alloc, set, protocol, i)?;
    links_by_processor(alloc, set, &rivals)
}
