ghost use Rattle.std.specs.Prelude.{◌≡◌, ℕ, ◌+◌, ◌<◌, ◌≤◌, length, IfSome, IfNone, option_map, map};
ghost use Rattle.std.specs.List.{All};
ghost use Rattle.sporadic_model.specs.SetDef.{task_at, resource_at, is_higher_local, latest_bound};
ghost use Rattle.sporadic_model.specs.Users.{count_of, length_of, used_by, users_of, ceiling_of};
ghost use Rattle.sporadic_model.specs.Users.{remote_ceiling_of, task_with_name, resource_with_name};
ghost use Rattle.sporadic_model.specs.Seen.{parts_seen, task_seen, resource_seen};
ghost use Rattle.sporadic_model.specs.Refusals.{Judged};
ghost use Rattle.sporadic_model.specs.Accepted.{IsAccepted, TaskNumbers, RequestNumbers, SetSizes};
ghost use Rattle.sporadic_model.specs.Accepted.{AreNamed, AreHomes, AreEntries, IsHighestUser, HasNoUser, IsBoost};
ghost use Rattle.sporadic_model.specs.Given.{HasTaskAndResource, IsTaskOf, IsResourceOf, IsDemandOf};

use crate::boosts::{boost_at, boosts_of_processors};
use crate::demands::{Demand, demand_at, demands_of};
use crate::ids::{ResourceId, TaskId};
use crate::judging::first_refusal;
use crate::limits::{MOST_COUNT, MOST_PROCESSORS, MOST_RESOURCES, MOST_TASKS, MOST_TICKS};
use crate::lookup::{place_of_resource, place_of_task, resource_part, task_part};
use crate::parts::{Parts, ResourcePart, TaskPart};
use crate::refusal::ModelRefusal;
use crate::users::{row_at, used_by_tasks, users_of_resources};
use std::alloc::Global;
use std::marker::Model;

/// An accepted task set. Its tasks are listed from the highest base priority to the lowest.
///
/// The names in requests are resolved once, when the set is made. So no look-up by number searches names.
#[derive(Drop)]
pub struct TaskSet {
    parts: Parts,
    // What each task may ask of each resource: a row per task, and in it a demand per resource.
    demands: Vec<Vec<Demand>>,
    // The resources that each task uses, in the order of the resources.
    used: Vec<Vec<ResourceId>>,
    // The tasks that use each resource, from the highest to the lowest.
    users: Vec<Vec<TaskId>>,
    // The ceilings as each processor sees them: a row per processor, from 0, and in it an entry per resource.
    boosts: Vec<Vec<Option<TaskId>>>,
}

impl Model for TaskSet {
    ghost use Rattle.sporadic_model.specs.SetDef.{SetDef};

    ghost Value = { SetDef };

    ghost use Rattle.sporadic_model.specs.SetView.{set_view, IsKept};

    ghost view = { set_view };

    ghost invariant = { IsKept };
}

impl TaskSet {
    /// Accepts the parts, or names the first refusal that is due. The refusals are tried in the order of [`ModelRefusal`], each over the
    /// whole set. Each names the first place: resources come before tasks, and a task's request entries are in their order. The set keeps
    /// the parts as they are.
    ///
    /// Only an accepted set takes memory, for its tables: what each task may ask of each resource, which resources each task uses, which
    /// tasks use each resource, and the ceilings as each processor sees them. Want of memory is answered with `Memory`.
    pub fn new(alloc: Global, parts: Parts) -> Result<TaskSet, ModelRefusal>
        ensures { Judged result (parts_seen parts) }
    {
        match first_refusal(&parts) {
            Some(refusal) => Err(refusal),
            None => TaskSet::with_tables(alloc, parts),
        }
    }

    /// The set of accepted parts, with the tables of what its tasks request and use.
    fn with_tables(alloc: Global, parts: Parts) -> Result<TaskSet, ModelRefusal>
        requires { IsAccepted (parts_seen parts) }
        ensures { Judged result (parts_seen parts) }
    {
        let demands = demands_of(alloc, &parts)?;
        let used = used_by_tasks(alloc, &parts, &demands)?;
        let users = users_of_resources(alloc, &parts, &demands)?;
        let boosts = boosts_of_processors(alloc, &parts, &users)?;
        Ok(TaskSet {
            parts,
            demands,
            used,
            users,
            boosts,
        })
    }

    /// Task `x`'s part.
    fn task(&self, x: TaskId) -> &TaskPart
        requires { x.0 < length self.now.tasks }
        ensures { IsTaskOf self.now x.0 (task_seen result.now) }
    {
        task_part(&self.parts.tasks, x.0 as usize)
    }

    /// Resource `q`'s part.
    fn resource(&self, q: ResourceId) -> &ResourcePart
        requires { q.0 < length self.now.resources }
        ensures { IsResourceOf self.now q.0 (resource_seen result.now) }
    {
        resource_part(&self.parts.resources, q.0 as usize)
    }

    /// How many processors there are, from 1 to 64. They are numbered from 1.
    pub fn processors(&self) -> u32
        ensures value { result ≡ self.now.processors }
        ensures least { 1 ≤ result }
        ensures most { result ≤ MOST_PROCESSORS }
    {
        self.parts.processors as u32
    }

    /// How many tasks there are, from 1 to 64.
    pub fn tasks(&self) -> u32
        ensures value { result ≡ length self.now.tasks }
        ensures accepted { IsAccepted self.now }
        ensures sizes { SetSizes self.now }
        ensures numbers { (x : ℕ) → x < length self.now.tasks → TaskNumbers self.now x }
        ensures least { 1 ≤ result }
        ensures most { result ≤ MOST_TASKS }
    {
        self.parts.tasks.len() as u32
    }

    /// How many resources there are, at most 32.
    pub fn resources(&self) -> u32
        ensures value { result ≡ length self.now.resources }
        ensures most { result ≤ MOST_RESOURCES }
    {
        self.parts.resources.len() as u32
    }

    /// The task's name.
    pub fn task_name(&self, x: TaskId) -> &str
        requires { x.0 < length self.now.tasks }
        ensures { result.now ≡ (task_at self.now x.0).name }
    {
        self.task(x).name.as_str()
    }

    /// The resource's name.
    pub fn resource_name(&self, q: ResourceId) -> &str
        requires { q.0 < length self.now.resources }
        ensures { result.now ≡ (resource_at self.now q.0).name }
    {
        self.resource(q).name.as_str()
    }

    /// The processor that the task's jobs run on, counted from 1.
    pub fn processor(&self, x: TaskId) -> u32
        requires { x.0 < length self.now.tasks }
        ensures value { result ≡ (task_at self.now x.0).processor }
        ensures least { 1 ≤ result }
        ensures most { result ≤ self.now.processors }
    {
        self.task(x).processor as u32
    }

    /// The least number of ticks between the arrivals of two of the task's jobs.
    pub fn period(&self, x: TaskId) -> u64
        requires { x.0 < length self.now.tasks }
        ensures value { result ≡ (task_at self.now x.0).period }
        ensures least { 1 ≤ result }
        ensures most { result ≤ MOST_TICKS }
    {
        self.task(x).period
    }

    /// The greatest number of ticks from a job's arrival to its end, at most the period.
    pub fn deadline(&self, x: TaskId) -> u64
        requires { x.0 < length self.now.tasks }
        ensures value { result ≡ (task_at self.now x.0).deadline }
        ensures least { 1 ≤ result }
        ensures most { result ≤ (task_at self.now x.0).period }
        ensures ticks { result ≤ MOST_TICKS }
    {
        self.task(x).deadline
    }

    /// The greatest number of ticks that a job executes, at most the deadline.
    pub fn cost(&self, x: TaskId) -> u64
        requires { x.0 < length self.now.tasks }
        ensures value { result ≡ (task_at self.now x.0).cost }
        ensures least { 1 ≤ result }
        ensures most { result ≤ (task_at self.now x.0).deadline }
        ensures ticks { result ≤ MOST_TICKS }
    {
        self.task(x).cost
    }

    /// The greatest number of ticks that a job executes outside its requests, at most the cost.
    pub fn local(&self, x: TaskId) -> u64
        requires { x.0 < length self.now.tasks }
        ensures value { result ≡ (task_at self.now x.0).local }
        ensures least { 1 ≤ result }
        ensures most { result ≤ (task_at self.now x.0).cost }
        ensures ticks { result ≤ MOST_TICKS }
    {
        self.task(x).local
    }

    /// The greatest number of ticks from a job's arrival to its release, at most the deadline less the
    /// cost.
    pub fn jitter(&self, x: TaskId) -> u64
        requires { x.0 < length self.now.tasks }
        ensures value { result ≡ (task_at self.now x.0).jitter }
        ensures most { (task_at self.now x.0).cost + result ≤ (task_at self.now x.0).deadline }
        ensures ticks { result ≤ MOST_TICKS }
    {
        self.task(x).jitter
    }

    /// The latest response-time bound with which each job of the task meets its deadline, in ticks from the job's release to its end: the
    /// deadline less the jitter. It is at least the cost.
    pub fn latest_bound(&self, x: TaskId) -> u64
        requires { x.0 < length self.now.tasks }
        ensures value { result ≡ latest_bound (task_at self.now x.0) }
        ensures least { (task_at self.now x.0).cost ≤ result }
        ensures most { result + (task_at self.now x.0).jitter ≤ MOST_TICKS }
        ensures ticks { result ≤ MOST_TICKS }
    {
        self.task(x).deadline - self.task(x).jitter
    }

    /// What the task may ask of the resource.
    fn demand(&self, x: TaskId, q: ResourceId) -> Demand
        requires { HasTaskAndResource self.now x.0 q.0 }
        ensures { IsDemandOf self.now x.0 q.0 result }
    {
        demand_at(&self.demands, x.0 as usize, q.0 as usize)
    }

    /// How many requests of the resource a job of the task may make: at most 1000, and 0 without an entry.
    pub fn count(&self, x: TaskId, q: ResourceId) -> u64
        requires task { x.0 < length self.now.tasks }
        requires resource { q.0 < length self.now.resources }
        ensures value { result ≡ count_of self.now x.0 q.0 }
        ensures most { result ≤ MOST_COUNT }
    {
        self.demand(x, q).count
    }

    /// The most ticks that one request of the resource by the task may last: below the task's cost, and 0 without an entry.
    pub fn length(&self, x: TaskId, q: ResourceId) -> u64
        requires task { x.0 < length self.now.tasks }
        requires resource { q.0 < length self.now.resources }
        ensures value { result ≡ length_of self.now x.0 q.0 }
        ensures most { result < (task_at self.now x.0).cost }
        ensures ticks { result ≤ MOST_TICKS }
        ensures least { 0 < count_of self.now x.0 q.0 → 1 ≤ result }
    {
        self.demand(x, q).length
    }

    /// The resources that the task's jobs may request, in order.
    pub fn used_by(&self, x: TaskId) -> &[ResourceId]
        requires { x.0 < length self.now.tasks }
        ensures value { map (λ q. q.0) result.now ≡ used_by self.now x.0 }
        ensures within { All (λ q. q.0 < length self.now.resources) result.now }
    {
        row_at(&self.used, x.0 as usize)
    }

    /// The tasks whose jobs may request the resource, from the highest to the lowest.
    pub fn users(&self, q: ResourceId) -> &[TaskId]
        requires { q.0 < length self.now.resources }
        ensures value { map (λ x. x.0) result.now ≡ users_of self.now q.0 }
        ensures within { All (λ x. x.0 < length self.now.tasks) result.now }
    {
        row_at(&self.users, q.0 as usize)
    }

    /// The resource's home, the processor that runs its requests under a protocol that needs one. None if the set gives no home.
    pub fn home(&self, q: ResourceId) -> Option<u32>
        requires { q.0 < length self.now.resources }
        ensures value { result ≡ (resource_at self.now q.0).home }
        ensures least { IfSome result (λ k. 1 ≤ k) }
        ensures most { IfSome result (λ k. k ≤ self.now.processors) }
    {
        match self.resource(q).home {
            Some(processor) => Some(processor as u32),
            None => None,
        }
    }

    /// The highest task that uses the resource; none exactly if no task does.
    pub fn ceiling(&self, q: ResourceId) -> Option<TaskId>
        requires { q.0 < length self.now.resources }
        ensures value { option_map (λ x. x.0) result ≡ ceiling_of self.now q.0 }
        ensures highest { IfSome result (λ x. IsHighestUser self.now q.0 x.0) }
        ensures within { IfSome result (λ x. x.0 < length self.now.tasks) }
        ensures none { IfNone result (HasNoUser self.now q.0) }
    {
        self.users(q).first().copied()
    }

    /// The ceiling of the resource as processor `k` sees it. `k` is a processor of the set, or 0.
    fn kept_boost(&self, q: ResourceId, k: u32) -> Option<TaskId>
        requires resource { q.0 < length self.now.resources }
        requires processor { k ≤ self.now.processors }
        ensures { option_map (λ x. x.0) result ≡ remote_ceiling_of self.now q.0 k }
    {
        boost_at(&self.boosts, k as usize, q.0 as usize)
    }

    /// The ceiling at which a job on processor `k` that holds the resource runs. It is the highest task that uses the resource and isn't on
    /// `k`. If all of its users are on `k`, it is the highest of them. None exactly if no task uses the resource.
    pub fn boost(&self, q: ResourceId, k: u32) -> Option<TaskId>
        requires { q.0 < length self.now.resources }
        ensures value { option_map (λ x. x.0) result ≡ remote_ceiling_of self.now q.0 k }
        ensures highest { IfSome result (λ x. IsBoost self.now q.0 k x.0) }
        ensures within { IfSome result (λ x. x.0 < length self.now.tasks) }
        ensures none { IfNone result (HasNoUser self.now q.0) }
    {
        // no task is on a processor that the set doesn't have
        if k as u64 > self.parts.processors {
            return self.ceiling(q);
        }
        self.kept_boost(q, k)
    }

    /// The task of this name; none exactly if no task has it.
    pub fn task_named(&self, name: &[u8]) -> Option<TaskId>
        ensures value { option_map (λ x. x.0) result ≡ task_with_name self.now name.now }
        ensures within { IfSome result (λ x. x.0 < length self.now.tasks) }
        ensures named { IfSome result (λ x. (task_at self.now x.0).name ≡ name.now) }
    {
        match place_of_task(&self.parts.tasks, name) {
            Some(x) => Some(TaskId(x as u32)),
            None => None,
        }
    }

    /// The resource of this name; none exactly if no resource has it.
    pub fn resource_named(&self, name: &[u8]) -> Option<ResourceId>
        ensures value { option_map (λ q. q.0) result ≡ resource_with_name self.now name.now }
        ensures within { IfSome result (λ q. q.0 < length self.now.resources) }
        ensures named { IfSome result (λ q. (resource_at self.now q.0).name ≡ name.now) }
    {
        match place_of_resource(&self.parts.resources, name) {
            Some(q) => Some(ResourceId(q as u32)),
            None => None,
        }
    }

    /// Every task set keeps the limits and the rules of the model. This call says so in a proof, and does nothing.
    pub fn keeps_the_model(&self)
        ensures accepted { IsAccepted self.now }
        ensures sizes { SetSizes self.now }
        ensures names { AreNamed self.now }
        ensures homes { AreHomes self.now }
        ensures numbers { (x : ℕ) → x < length self.now.tasks → TaskNumbers self.now x }
        ensures entries { (x : ℕ) → x < length self.now.tasks → AreEntries self.now x }
        ensures requests { (x j : ℕ) → x < length self.now.tasks → j < length (task_at self.now x).requests → RequestNumbers self.now x j }
    {
        // what every set keeps is known once a field is read
        let _parts = &self.parts;
    }

    /// Is `h` a task of higher base priority on `i`'s processor?
    pub fn higher_local(&self, i: TaskId, h: TaskId) -> bool
        requires task { i.0 < length self.now.tasks }
        requires other { h.0 < length self.now.tasks }
        ensures { result ≡ is_higher_local self.now i.0 h.0 }
    {
        h < i && self.processor(h) == self.processor(i)
    }
}
