ghost use Rattle.std.specs.Prelude.{◌≡◌, ℕ, ◌<◌, List, length, map, Option};
ghost use Rattle.schedule_model.specs.Seen.{place_seen};
ghost use Rattle.phase_machine.specs.MachineDef.{MachineDef, IsMachine};
ghost use Rattle.phase_machine.specs.Now.{current_now};
ghost use Rattle.shared_choosing.specs.Given.{HasCome, HaveCome};

use phase_machine::Machine;
use phase_machine::lookup::tasks_of;
use schedule_model::JobId;
use sporadic_model::TaskId;

/// What active jobs do to the places of a row, one after the other.
pub trait Visitor {
    /// Which job is named at a place, by the number that the place has for this visitor.
    ghost view: { List (Option ℕ) → ℕ → Option ℕ };

    /// What a visit needs of the machine and the places, and keeps true.
    ghost needs: { Self → MachineDef → List (Option ℕ) → Type 0 };

    /// Which job is named at a place after a job has come, given the one that was named before.
    ghost step: { Self → MachineDef → ℕ → ℕ → Option ℕ → Option ℕ };

    /// The job comes.
    fn visit(&self, machine: &Machine, j: JobId, places: &mut [Option<JobId>])
        requires listed { j.0 < length machine.now.list.jobs }
        requires needs { needs self.now machine.now (map place_seen places.old) }
        ensures needs { needs self.now machine.now (map place_seen places.new) }
        ensures each { (k : ℕ) → view (map place_seen places.new) k ≡ step self.now machine.now j.0 k (view (map place_seen places.old) k) };
}

/// The task's active job comes, if it has one.
fn visit_current<V: Visitor>(
    visitor: &V,
    machine: &Machine,
    x: TaskId,
    places: &mut [Option<JobId>],
)
    requires task { x.0 < length machine.now.list.set.tasks }
    requires needs { V.needs visitor.now machine.now (map place_seen places.old) }
    ensures needs { V.needs visitor.now machine.now (map place_seen places.new) }
    ensures each { HasCome V.view (V.step visitor.now machine.now) (current_now machine.now x.0) places.old places.new }
{
    match machine.current(x) {
        Some(j) => visitor.visit(machine, j, places),
        None => {}
    }
}

/// The active jobs come, from the highest task on.
#[tactic(auto, unfolding(crate::specs::Walks::walked))]
pub fn visit_each<V: Visitor>(visitor: &V, machine: &Machine, places: &mut [Option<JobId>])
    requires needs { V.needs visitor.now machine.now (map place_seen places.old) }
    ensures needs { V.needs visitor.now machine.now (map place_seen places.new) }
    ensures each { HaveCome V.view (V.step visitor.now machine.now) machine.now places.old places.new }
    ensures machine { IsMachine machine.now }
{
    for x in 0..tasks_of(machine) {
        visit_current(visitor, machine, TaskId(x), places);
    }
}
