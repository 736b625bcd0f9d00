ghost use Rattle.std.specs.Prelude.{◌≡◌, ℕ, ◌<◌, length, map};
ghost use Rattle.schedule_model.specs.RowDef.{RowDef};
ghost use Rattle.schedule_model.specs.Chosen.{IsSized, IsSharedChoice};
ghost use Rattle.schedule_model.specs.Seen.{row_seen, place_seen};
ghost use Rattle.phase_machine.specs.MachineDef.{under};
ghost use Rattle.phase_machine.specs.Now.{phase_now, holder_now, requester_now};
ghost use Rattle.phase_machine.specs.Shows.{Shows};
ghost use Rattle.phase_machine.specs.Given.{NamesJob, IsRequestOf, IsRequestBeside};
ghost use Rattle.shared_choosing.specs.Scene.{scene_in, scene_now, gives_way, asked, stays, entered};
ghost use Rattle.shared_choosing.specs.Scene.{place_in, running_in, NamesBelow, resource_in};
ghost use Rattle.shared_choosing.specs.Given.{scene_by, AreGranted, ArePlaced, AreHolders, AreRowPlaces, AreRivals, HasColumn};
ghost use Rattle.shared_choosing.specs.Given.{CanEnter, IsNamedAt, AreCleared, AreKept, NamesResource, offered, IsOffered, HasAsked};
ghost use Rattle.shared_choosing.specs.Given.{TellsOutrun, NamesFaster, HasEntered};
ghost use Rattle.shared_choosing.specs.Choosing.{Granted, Placed};

use crate::row_choice::{RowChoice, choose_row};
use crate::visiting::{Visitor, visit_each};
use phase_machine::columns::{Columns, OwnProcessors};
use phase_machine::lookup::{holds, may_run, requests, resources_of};
use phase_machine::{Machine, Order, Phase};
use schedule_model::{JobId, Row};
use sporadic_model::ResourceId;

/// Names a job, or none, at a place of a row.
pub fn put(places: &mut [Option<JobId>], i: usize, job: Option<JobId>)
    requires { i < length places.old }
    ensures { IsNamedAt place_in i job places.old places.new }
{
    places[i] = job;
}

/// The job that is named at a place. The places name only listed jobs.
pub fn job_at(machine: &Machine, places: &[Option<JobId>], i: usize) -> Option<JobId>
    requires within { i < length places.now }
    requires named { NamesBelow (length machine.now.list.jobs) (map place_seen places.now) }
    ensures { NamesJob machine.now.list (place_in (map place_seen places.now) i) result }
{
    places[i]
}

/// The last row's holder, if it still requests the resource.
pub fn kept(machine: &Machine, q: ResourceId) -> Option<JobId>
    requires { q.0 < length machine.now.list.set.resources }
    ensures { place_seen result ≡ stays (requester_now machine.now q.0) (holder_now machine.now q.0) }
{
    match machine.holder(q) {
        Some(j) => {
            if requests(machine, q, j) {
                return Some(j);
            }
            None
        }
        None => None,
    }
}

/// Names the holders that are kept, and no others.
pub fn keep_all(machine: &Machine, holders: &mut [Option<JobId>])
    requires { length holders.old ≡ length machine.now.list.set.resources }
    ensures { AreKept machine.now holders.old holders.new }
{
    for q in 0..resources_of(machine) {
        put(holders, q as usize, kept(machine, ResourceId(q)));
    }
}

/// The resource that the job requests, if it requests one.
pub fn requested_resource(machine: &Machine, j: JobId) -> Option<ResourceId>
    requires { j.0 < length machine.now.list.jobs }
    ensures { NamesResource machine.now (resource_in (phase_now machine.now j.0)) result }
{
    match machine.phase(j) {
        Phase::Asking(_, q) => Some(q),
        Phase::Local => None,
        Phase::Finished => None,
    }
}

/// Does the holder of the resource give way to the job? It does if there is none, or if it is new and goes later.
fn gives_way<O: Order>(
    order: &O,
    machine: &Machine,
    q: ResourceId,
    j: JobId,
    holder: Option<JobId>,
) -> bool
    requires { IsRequestBeside machine.now.list q.0 j.0 holder }
    ensures { result ≡ gives_way (scene_by (O.grant order.now) (O.run order.now) machine.now) q.0 j.0 (place_seen holder) }
{
    match holder {
        Some(h) => {
            machine.holder(q) != Some(h) && order.grant_of(machine, j) < order.grant_of(machine, h)
        }
        None => true,
    }
}

/// The holder of the resource after the job has asked: the job, if the holder gives way, and else the holder.
fn offered<O: Order>(
    order: &O,
    machine: &Machine,
    q: ResourceId,
    j: JobId,
    holder: Option<JobId>,
) -> Option<JobId>
    requires { IsRequestBeside machine.now.list q.0 j.0 holder }
    ensures { NamesJob machine.now.list (offered (scene_by (O.grant order.now) (O.run order.now) machine.now) q.0 j.0 (place_seen holder)) result }
{
    if gives_way(order, machine, q, j, holder) {
        return Some(j);
    }
    holder
}

/// Grants the resource to the job, if its holder gives way.
fn offer<O: Order>(
    order: &O,
    machine: &Machine,
    q: ResourceId,
    j: JobId,
    holders: &mut [Option<JobId>],
)
    requires request { IsRequestOf machine.now.list q.0 j.0 }
    requires holders { AreHolders machine.now.list (map place_seen holders.old) }
    ensures { IsOffered machine.now.list (scene_by (O.grant order.now) (O.run order.now) machine.now) q.0 j.0 holders.old holders.new }
{
    let holder = job_at(machine, holders, q.0 as usize);
    put(holders, q.0 as usize, offered(order, machine, q, j, holder));
}

/// Offers the job the resource that it requests.
fn ask<O: Order>(order: &O, machine: &Machine, j: JobId, holders: &mut [Option<JobId>])
    requires listed { j.0 < length machine.now.list.jobs }
    requires holders { AreHolders machine.now.list (map place_seen holders.old) }
    ensures { HasAsked machine.now.list (scene_by (O.grant order.now) (O.run order.now) machine.now) j.0 holders.old holders.new }
{
    match requested_resource(machine, j) {
        Some(q) => offer(order, machine, q, j, holders),
        None => {}
    }
}

/// Active jobs ask, one after the other.
#[derive(Drop)]
struct Asking<'a, O> {
    order: &'a O,
}

impl<'a, O: Order> Visitor for Asking<'a, O> {
    ghost view = { place_in };

    ghost needs = { λ v m holders. AreHolders m.list holders };

    ghost step = { λ v m. asked (scene_now (O.grant v.order.now m) (O.run v.order.now m) m) };

    fn visit(&self, machine: &Machine, j: JobId, places: &mut [Option<JobId>]) {
        ask(self.order, machine, j, places);
    }
}

/// Names the holders of the row: those that are kept, and for each other resource the requester that goes first. Among requesters that go
/// equally first, it is the one of the highest task.
pub fn grant_all<O: Order>(order: &O, machine: &Machine, holders: &mut [Option<JobId>])
    requires { length holders.old ≡ length machine.now.list.set.resources }
    ensures len { length holders.new ≡ length holders.old }
    ensures granted { AreGranted (O.grant order.now) (O.run order.now) machine.now holders.new }
{
    keep_all(machine, holders);
    visit_each(&Asking { order }, machine, holders);
}

/// Names a job, or none, in the column of processor `k`, counted from 1.
pub fn put_on(running: &mut [Option<JobId>], k: u32, job: Option<JobId>)
    requires { HasColumn running.old k }
    ensures { IsNamedAt running_in k job running.old running.new }
{
    put(running, k as usize - 1, job);
}

/// The job that runs on processor `k`. The columns name only listed jobs.
pub fn job_on(machine: &Machine, running: &[Option<JobId>], k: u32) -> Option<JobId>
    requires column { HasColumn running.now k }
    requires named { NamesBelow (length machine.now.list.jobs) (map place_seen running.now) }
    ensures { NamesJob machine.now.list (running_in (map place_seen running.now) k) result }
{
    job_at(machine, running, k as usize - 1)
}

/// Does what runs give way to the job? It does if nothing runs, or if the running job goes later.
fn is_outrun<O: Order>(
    order: &O,
    machine: &Machine,
    holders: &[Option<JobId>],
    j: JobId,
    runner: Option<JobId>,
) -> bool
    requires { AreRivals machine.now.list holders.now j.0 runner }
    ensures { TellsOutrun (O.grant order.now) (O.run order.now) machine.now holders.now j.0 runner result }
{
    match runner {
        Some(r) => {
            holds(machine, holders, j)
                && (!holds(machine, holders, r)
                    || order.run_of(machine, j) < order.run_of(machine, r))
        }
        None => true,
    }
}

/// Which of the two runs? The job, if it is ready and the runner gives way, and else the runner.
fn faster<O: Order>(
    order: &O,
    machine: &Machine,
    holders: &[Option<JobId>],
    j: JobId,
    runner: Option<JobId>,
) -> Option<JobId>
    requires { AreRivals machine.now.list holders.now j.0 runner }
    ensures { NamesFaster (O.grant order.now) (O.run order.now) machine.now holders.now j.0 runner result }
{
    if may_run(machine, holders, j) && is_outrun(order, machine, holders, j, runner) {
        return Some(j);
    }
    runner
}

/// Lets the job run on its processor, if it is ready and what runs there gives way.
fn enter<O: Order, C: Columns>(
    order: &O,
    columns: &C,
    machine: &Machine,
    holders: &[Option<JobId>],
    j: JobId,
    running: &mut [Option<JobId>],
)
    requires suits { C.suits columns.now machine.now.list.set }
    requires job { CanEnter machine.now.list holders.now j.0 (map place_seen running.old) }
    ensures { HasEntered (C.column columns.now) (O.grant order.now) (O.run order.now) machine.now holders.now j.0 running.old running.new }
{
    let k = columns.column_of(machine, j);
    let runner = job_on(machine, running, k);
    put_on(running, k, faster(order, machine, holders, j, runner));
}

/// Active jobs come to their processors, one after the other.
#[derive(Drop)]
struct Entering<'a, O, C> {
    order: &'a O,
    columns: &'a C,
    holders: &'a [Option<JobId>],
}

impl<'a, O: Order, C: Columns> Visitor for Entering<'a, O, C> {
    ghost view = { running_in };

    ghost needs = { λ v m running. C.suits v.columns.now m.list.set × AreRowPlaces m.list v.holders.now running };

    ghost step = { λ v m. entered (scene_in (C.column v.columns.now m) (O.grant v.order.now m) (O.run v.order.now m) m)
        (place_in (map place_seen v.holders.now)) };

    fn visit(&self, machine: &Machine, j: JobId, places: &mut [Option<JobId>]) {
        enter(self.order, self.columns, machine, self.holders, j, places);
    }
}

/// Names no job at any place.
pub fn clear(places: &mut [Option<JobId>])
    ensures { AreCleared places.old places.new }
{
    for i in 0..places.len() {
        put(places, i, None);
    }
}

/// Names what runs, given the holders. On each processor it is the ready holder that goes first, and among equal ones that of the highest
/// task. If no holder is ready there, it is the Local job of the highest task.
pub fn run_all<O: Order, C: Columns>(
    order: &O,
    columns: &C,
    machine: &Machine,
    holders: &[Option<JobId>],
    running: &mut [Option<JobId>],
)
    requires suits { C.suits columns.now machine.now.list.set }
    requires holders { length holders.now ≡ length machine.now.list.set.resources }
    requires len { length running.old ≡ machine.now.list.set.processors }
    ensures len { length running.new ≡ length running.old }
    ensures placed { ArePlaced (C.column columns.now) (O.grant order.now) (O.run order.now) machine.now holders.now running.new }
{
    clear(running);
    visit_each(
        &Entering {
            order,
            columns,
            holders,
        },
        machine,
        running,
    );
}

/// The choice under an order, if jobs run in these columns.
#[derive(Drop)]
struct OrderedChoice<'a, O, C> {
    order: &'a O,
    columns: &'a C,
}

impl<'a, O: Order, C: Columns> RowChoice for OrderedChoice<'a, O, C> {
    ghost needs = { λ c m. C.suits c.columns.now m.list.set };

    ghost granted = { λ c m. Granted (scene_now (O.grant c.order.now m) (O.run c.order.now m) m) (length m.list.set.tasks) };

    ghost placed = { λ c m held. Placed (scene_in (C.column c.columns.now m) (O.grant c.order.now m) (O.run c.order.now m) m) held
        (length m.list.set.tasks) };

    fn grant(&self, machine: &Machine, holders: &mut [Option<JobId>]) {
        grant_all(self.order, machine, holders);
    }

    fn run(&self, machine: &Machine, holders: &[Option<JobId>], running: &mut [Option<JobId>]) {
        run_all(self.order, self.columns, machine, holders, running);
    }
}

/// Makes the lent row one that grants and runs in this order, if jobs run in these columns.
pub fn choose_ordered<O: Order, C: Columns>(
    order: &O,
    columns: &C,
    machine: &Machine,
    row: &mut Row,
)
    requires suits { C.suits columns.now machine.now.list.set }
    requires sized { IsSized machine.now.list.set (row_seen row.old) }
    ensures sized { IsSized machine.now.list.set (row_seen row.new) }
    ensures granted { AreGranted (O.grant order.now) (O.run order.now) machine.now row.new.holders.items }
    ensures placed { ArePlaced (C.column columns.now) (O.grant order.now) (O.run order.now) machine.now row.new.holders.items row.new.running.items }
{
    choose_row(&OrderedChoice { order, columns }, machine, row);
}

/// Makes the lent row the chosen one under the order: first the holders, then what runs.
pub fn choose_shared<O: Order>(order: &O, machine: &Machine, row: &mut Row)
    requires sized { IsSized machine.now.list.set (row_seen row.old) }
    ensures sized { IsSized machine.now.list.set (row_seen row.new) }
    ensures chosen { (rows : ℕ → RowDef) → Shows machine.now rows → rows machine.now.tick ≡ row_seen row.new
        → IsSharedChoice (O.ranks order.now) (under machine.now rows) machine.now.tick }
{
    choose_ordered(order, &OwnProcessors, machine, row);
}
