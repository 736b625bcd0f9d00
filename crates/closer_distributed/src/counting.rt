ghost use Rattle.std.specs.Prelude.{◌≡◌, ◌<◌, ◌≤◌, length};
ghost use Rattle.closer_distributed_laws.specs.CloserRows.{requests_away};

use fragments::{requests_at, requests_of};
use sporadic_model::{TaskId, TaskSet};

/// How many requests that run on other processors can one job of `i` make?
pub(crate) fn requests_away(set: &TaskSet, i: TaskId) -> u64
    requires { i.0 < length set.now.tasks }
    ensures value { result ≡ requests_away set.now i.0 }
    ensures most { result ≤ 32000 }
{
    requests_of(set, i) - requests_at(set, i, set.processor(i))
}
