ghost use Rattle.std.specs.Prelude.{◌↔◌, IsTrue};
ghost use Rattle.sporadic_model.specs.declared.ids.Protocol.{Protocol};
ghost use Rattle.program_laws.specs.Written.{KeepsJobs};
ghost use Rattle.protocol_programs.specs.Given.{IsTaskAtBoth};
ghost use Rattle.protocol_programs.specs.Limits.{HaveSameLimits};

use fragments::jobs;
use sporadic_model::{TaskId, TaskSet};

/// Can exactly as many jobs of each task run within task `i`'s bound at these bounds as at the earlier ones? Then the limits of `i`'s
/// program are the same, under every protocol that this crate forms programs of.
pub fn keeps_jobs(set: &TaskSet, i: TaskId, earlier: &[u64], bounds: &[u64]) -> bool
    requires { IsTaskAtBoth set.now i.0 earlier.now bounds.now }
    ensures jobs { IsTrue result ↔ KeepsJobs set.now i.0 earlier.now bounds.now }
    ensures limits { (p : Protocol) → IsTrue result → HaveSameLimits p set.now i.0 earlier.now bounds.now }
{
    for x in 0..set.tasks() {
        let task = TaskId(x);
        if jobs(set, i, task, earlier) != jobs(set, i, task, bounds) {
            return false;
        }
    }
    true
}
