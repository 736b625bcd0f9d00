ghost use Rattle.std.specs.Prelude.{◌≡◌, ℕ, ◌<◌, Bool, length};
ghost use Rattle.phase_machine.specs.MachineDef.{MachineDef};
ghost use Rattle.shared_rules.specs.RowTests.{current_passes, each_current};

use phase_machine::Machine;
use phase_machine::lookup::tasks_of;
use schedule_model::JobId;
use sporadic_model::TaskId;

/// A test of active jobs.
pub trait JobTest {
    /// What the test needs of the machine.
    ghost needs: { Self → MachineDef → Type 0 };

    /// Which jobs pass.
    ghost passes: { Self → MachineDef → ℕ → Bool };

    /// Does the job pass?
    fn test(&self, machine: &Machine, j: JobId) -> bool
        requires needs { needs self.now machine.now }
        requires listed { j.0 < length machine.now.list.jobs }
        ensures { result ≡ passes self.now machine.now j.0 };
}

/// Does the task's active job pass, if it has one?
fn current_passes<T: JobTest>(test: &T, machine: &Machine, x: TaskId) -> bool
    requires needs { T.needs test.now machine.now }
    requires task { x.0 < length machine.now.list.set.tasks }
    ensures { result ≡ current_passes machine.now (T.passes test.now machine.now) x.0 }
{
    match machine.current(x) {
        Some(j) => test.test(machine, j),
        None => true,
    }
}

/// Does the active job of each task pass?
#[tactic(auto, unfolding(crate::specs::RowTests::each_current))]
pub fn each_passes<T: JobTest>(test: &T, machine: &Machine) -> bool
    requires { T.needs test.now machine.now }
    ensures { result ≡ each_current machine.now (T.passes test.now machine.now) }
{
    for x in 0..tasks_of(machine) {
        if !current_passes(test, machine, TaskId(x)) {
            return false;
        }
    }
    true
}
