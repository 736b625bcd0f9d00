ghost use Rattle.std.specs.Prelude.{◌≡◌, ℕ, ◌+◌, ◌<◌, ◌≤◌, length, IfOk, IfSome};
ghost use Rattle.sporadic_model.specs.declared.limits.TheConstants.{MOST_TICKS};
ghost use Rattle.schedule_model.specs.RowDef.{RowDef};
ghost use Rattle.schedule_model.specs.Seen.{row_seen, place_seen};
ghost use Rattle.phase_machine.specs.MachineDef.{IsMachine, IsWithinLimits, under};
ghost use Rattle.phase_machine.specs.Given.{IsPlaceOf};
ghost use Rattle.phase_machine.specs.Now.{phase_now, current_now, active_now, holder_now, ready_now, waiting_now, issued_now};
ghost use Rattle.phase_machine.specs.Seen.{phase_seen, NamesResource};
ghost use Rattle.phase_machine.specs.Shows.{Shows};
ghost use Rattle.phase_machine.specs.Taking.{CanTake};
ghost use Rattle.phase_machine.specs.Stretch.{IsQuiet, IsStretch};
ghost use Rattle.schedule_laws.specs.Steady.{IsSteady, Changes};

use crate::at_place::{current_at, phase_at};
use crate::phase::Phase;
use crate::place::ScriptPlace;
use crate::script::{list_is_lawful, task_of};
use crate::starting::{first_coming, first_places, no_holders};
use crate::stepping::{move_on, step_all};
use crate::stretch::{least_ahead, least_left};
use schedule_model::{JobId, JobList, Row};
use sporadic_model::{ResourceId, TaskId};
use std::alloc::{AllocError, Global};
use std::marker::Model;

/// A machine that takes the rows of a schedule. It knows how far each task's jobs are, and which job held which resource in the last row.
#[derive(Drop)]
pub struct Machine<'a> {
    jobs: &'a JobList<'a>,
    tick: u64,
    places: Vec<ScriptPlace>,
    holders: Vec<Option<JobId>>,
    coming: Vec<u32>,
}

impl<'a> Model for Machine<'a> {
    ghost use Rattle.phase_machine.specs.MachineDef.{MachineDef};

    ghost Value = { MachineDef };

    ghost use Rattle.phase_machine.specs.MachineView.{machine_view, IsKept};

    ghost view = { machine_view };

    ghost invariant = { IsKept };
}

impl<'a> Machine<'a> {
    /// A machine at tick 0, before any row. It takes all its memory here.
    pub fn new(alloc: Global, jobs: &'a JobList<'a>) -> Result<Machine<'a>, AllocError>
        ensures list { IfOk result (λ m. m.list ≡ jobs.now) }
        ensures tick { IfOk result (λ m. m.tick ≡ 0) }
        ensures shows { IfOk result (λ m. (rows : ℕ → RowDef) → Shows m rows) }
    {
        list_is_lawful(jobs);
        let places = first_places(alloc, jobs)?;
        let holders = no_holders(alloc, jobs.set().resources())?;
        let coming = first_coming(alloc, jobs)?;
        Ok(Machine {
            jobs,
            tick: 0,
            places,
            holders,
            coming,
        })
    }

    /// How many rows were taken: the tick of the next row, at most 10^9.
    pub fn tick(&self) -> u64
        ensures value { result ≡ self.now.tick }
        ensures machine { IsMachine self.now }
        ensures limits { IsWithinLimits self.now }
        ensures most { result ≤ MOST_TICKS }
    {
        self.tick
    }

    /// The jobs that the machine was made for.
    pub fn jobs(&self) -> &'a JobList<'a>
        ensures value { result.now ≡ self.now.list }
        ensures machine { IsMachine self.now }
        ensures limits { IsWithinLimits self.now }
    {
        self.jobs
    }

    /// The place of the job's task.
    fn place(&self, j: JobId) -> &ScriptPlace
        requires { j.0 < length self.now.list.jobs }
        ensures { IsPlaceOf self.now j.0 result.now }
    {
        &self.places[task_of(self.jobs, j.0).0 as usize]
    }

    /// What the job does next.
    #[tactic(auto, unfolding(crate::specs::Now::phase_now))]
    pub fn phase(&self, j: JobId) -> Phase
        requires { j.0 < length self.now.list.jobs }
        ensures value { phase_seen result ≡ phase_now self.now j.0 }
        ensures within { NamesResource (length self.now.list.set.resources) result }
    {
        phase_at(self.jobs, self.place(j), j)
    }

    /// The active job of the task: it is released and not finished, and the task's earlier jobs are finished. None exactly if the task has
    /// none.
    #[tactic(auto, unfolding(crate::specs::Now::current_now))]
    pub fn current(&self, x: TaskId) -> Option<JobId>
        requires { x.0 < length self.now.list.set.tasks }
        ensures value { place_seen result ≡ current_now self.now x.0 }
        ensures within { IfSome result (λ j. j.0 < length self.now.list.jobs) }
    {
        current_at(self.jobs, self.tick, &self.places[x.0 as usize])
    }

    /// Is the job active: released and not finished, with the earlier jobs of its task finished?
    #[tactic(auto, unfolding(crate::specs::Now::active_now))]
    pub fn active(&self, j: JobId) -> bool
        requires { j.0 < length self.now.list.jobs }
        ensures { result ≡ active_now self.now j.0 }
    {
        self.current(task_of(self.jobs, j.0)) == Some(j)
    }

    /// The resource's holder in the last row, and none before the first row.
    pub fn holder(&self, q: ResourceId) -> Option<JobId>
        requires { q.0 < length self.now.list.set.resources }
        ensures value { place_seen result ≡ holder_now self.now q.0 }
        ensures within { IfSome result (λ j. j.0 < length self.now.list.jobs) }
    {
        self.holders[q.0 as usize]
    }

    /// Is the job active, and Local or the last row's holder of the resource that it requests?
    #[tactic(auto, unfolding(crate::specs::Now::ready_now))]
    pub fn ready(&self, j: JobId) -> bool
        requires { j.0 < length self.now.list.jobs }
        ensures { result ≡ ready_now self.now j.0 }
    {
        self.active(j)
            && match self.phase(j) {
                Phase::Local => true,
                Phase::Asking(_, q) => self.holder(q) == Some(j),
                Phase::Finished => false,
            }
    }

    /// Is the job active and not ready?
    #[tactic(auto, unfolding(crate::specs::Now::waiting_now))]
    pub fn waiting(&self, j: JobId) -> bool
        requires { j.0 < length self.now.list.jobs }
        ensures { result ≡ waiting_now self.now j.0 }
    {
        self.active(j) && !self.ready(j)
    }

    /// The tick at which the request was issued that the job is in. None exactly if it is in no request.
    #[tactic(auto, unfolding(crate::specs::Now::issued_now))]
    pub fn issued(&self, j: JobId) -> Option<u64>
        requires { j.0 < length self.now.list.jobs }
        ensures { result ≡ issued_now self.now j.0 }
    {
        match self.phase(j) {
            Phase::Asking(_, _) => Some(self.place(j).issued),
            _ => None,
        }
    }

    /// Takes the next row.
    pub fn advance(&mut self, row: &Row)
        requires row { CanTake self.old (row_seen row.now) }
        requires early { self.old.tick < MOST_TICKS }
        ensures list { self.new.list ≡ self.old.list }
        ensures tick { self.new.tick ≡ self.old.tick + 1 }
        ensures shows { (rows : ℕ → RowDef) → Shows self.old rows → rows self.old.tick ≡ row_seen row.now → Shows self.new rows }
    {
        self.advance_by(row, 1);
    }

    /// How often the row can be taken until something changes: until the phase of a running job ends, or a job is released. It is at least
    /// 1. It is 10^9 if nothing changes sooner.
    pub fn steady(&self, row: &Row) -> u64
        requires row { CanTake self.now (row_seen row.now) }
        ensures value { IsStretch self.now (row_seen row.now) result }
        ensures steady { (rows : ℕ → RowDef) (n : ℕ) → Shows self.now rows → n ≤ result
            → ((i : ℕ) → i < n → rows (self.now.tick + i) ≡ row_seen row.now) → IsSteady (under self.now rows) self.now.tick n }
        ensures changes { (rows : ℕ → RowDef) → Shows self.now rows → result < MOST_TICKS
            → ((i : ℕ) → i < result → rows (self.now.tick + i) ≡ row_seen row.now) → Changes (under self.now rows) self.now.tick result }
    {
        let most = least_ahead(self.jobs, self.tick, &self.coming);
        least_left(self.jobs, &row.running, &self.places, most)
    }

    /// Takes the row this many times, at least once and at most as often as `steady` answers. So nothing changes before the last of them.
    pub fn advance_by(&mut self, row: &Row, ticks: u64)
        requires row { CanTake self.old (row_seen row.now) }
        requires some { 1 ≤ ticks }
        requires quiet { IsQuiet self.old (row_seen row.now) ticks }
        requires early { self.old.tick + ticks ≤ MOST_TICKS }
        ensures list { self.new.list ≡ self.old.list }
        ensures tick { self.new.tick ≡ self.old.tick + ticks }
        ensures shows { (rows : ℕ → RowDef) → Shows self.old rows
            → ((i : ℕ) → i < ticks → rows (self.old.tick + i) ≡ row_seen row.now) → Shows self.new rows }
    {
        let after = self.tick + ticks;
        step_all(self.jobs, after, ticks, &row.running, &mut self.places);
        move_on(self.jobs, after, &mut self.coming);
        self.holders.copy_from_slice(&row.holders);
        self.tick = after;
    }
}
