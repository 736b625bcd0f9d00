ghost use Rattle.std.specs.Prelude.{◌≡◌, ℕ, ◌<◌, length};
ghost use Rattle.schedule_model.specs.SharedRules.{Ranks};
ghost use Rattle.phase_machine.specs.MachineDef.{MachineDef};
ghost use Rattle.phase_machine.specs.Order.{GivesRanks};

use crate::machine::Machine;
use schedule_model::JobId;

/// The order in which a protocol grants requests, and the one in which it runs holders: the job with the lower number goes first. Only the
/// numbers of jobs in a request count.
pub trait Order {
    /// The two orders, for a schedule and a tick.
    ghost ranks: { Self → Ranks };

    /// The numbers of jobs at a machine.
    ghost grant: { Self → MachineDef → ℕ → ℕ };

    ghost run: { Self → MachineDef → ℕ → ℕ };

    /// The job's number in the order of grants.
    fn grant_of(&self, machine: &Machine, j: JobId) -> u64
        requires { j.0 < length machine.now.list.jobs }
        ensures { result ≡ grant self.now machine.now j.0 };

    /// The job's number in the order of running holders.
    fn run_of(&self, machine: &Machine, j: JobId) -> u64
        requires { j.0 < length machine.now.list.jobs }
        ensures { result ≡ run self.now machine.now j.0 };

    /// The numbers are those of the order, at the machine's tick.
    ghost gives: { (o : Self) → GivesRanks (ranks o) (grant o) (run o) };
}
