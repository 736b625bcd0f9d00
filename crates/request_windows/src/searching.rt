//! The window of a request.

ghost use Rattle.std.specs.Prelude.{◌≡◌, ◌<◌, ◌≤◌, true, length, slice_index, IfSome};
ghost use Rattle.sporadic_model.specs.SetDef.{task_at};
ghost use Rattle.sporadic_model.specs.Homes.{EachHasHome};
ghost use Rattle.sporadic_model.specs.Users.{is_user};
ghost use Rattle.sporadic_model.specs.Bounds.{AreWithinDeadlines};
ghost use Rattle.window_laws.specs.Windows.{window_of};
ghost use Rattle.request_windows.specs.Windows.{IsWindow};

use crate::ticks::{Request, own_and_lower, ticks_there, times_of_higher};
use fragments::home;
use sporadic_model::{ResourceId, TaskId, TaskSet};

// The least number of ticks that is enough, from below. If a number isn't, no number is that is less than what can run in that many ticks.
fn search(at: &Request) -> Option<u64>
    ensures { IsWindow at.now.set.now (slice_index at.now.bounds.now) at.now.i.0 at.now.q.0 result }
{
    let deadline = at.set.deadline(at.i);
    let own = own_and_lower(at);
    let times = times_of_higher(at.set, at.i, home(at.set, at.q));
    let mut span = 1u64;
    while span <= deadline {
        let there = ticks_there(at, own, &times, span);
        if there <= u128::from(span) {
            return Some(span);
        }
        span = there.min(u128::from(deadline) + 1) as u64;
    }
    None
}

/// How long a request of `q` by `i` can be open under DPCP at these bounds, in ticks. It is the least number, from 1 on, that is at least
/// as long as all requests that may run at the resource's home in that many ticks. None exactly if no such number is within the deadline of
/// `i`. It takes no memory.
pub fn window(set: &TaskSet, i: TaskId, q: ResourceId, bounds: &[u64]) -> Option<u64>
    requires task { i.0 < length set.now.tasks }
    requires resource { q.0 < length set.now.resources }
    requires user { is_user set.now q.0 i.0 ≡ true }
    requires suits { EachHasHome set.now }
    requires within { AreWithinDeadlines set.now bounds.now }
    ensures value { result ≡ window_of set.now (slice_index bounds.now) i.0 q.0 }
    ensures within { IfSome result (λ w. (1 ≤ w) × (w ≤ (task_at set.now i.0).deadline)) }
{
    search(&Request { set, i, q, bounds })
}
