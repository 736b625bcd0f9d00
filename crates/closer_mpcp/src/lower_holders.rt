//! For how long a lower task may hold what the analysed task waits for. That doesn't depend on the bounds.

ghost use Rattle.std.specs.Prelude.{◌≡◌, true, false};
ghost use Rattle.number_laws.specs.Sums.{only_if};
ghost use Rattle.sporadic_model.specs.Users.{is_user};
ghost use Rattle.blocking_columns.specs.Columns.{have_one_processor};
ghost use Rattle.mpcp_window_laws.specs.MpcpWindows.{holding_ticks, may_hold_before, longest_lower_holding};
ghost use Rattle.closer_mpcp.specs.Amounts.{IsAmount};
ghost use Rattle.closer_mpcp.specs.Given.{AreTaskAndResource, AreTwoTasksAndResource};
ghost use Rattle.closer_mpcp.specs.Tables.{AreFirst, AreLongestOn, AreFirstOn, AreHolders};

use crate::first_ticks::{FirstTicks, first_of_tasks};
use fragments::{share_processor, uses};
use sporadic_model::{ResourceId, TaskId, TaskSet};

/// What others may do with a resource while the analysed task waits for it, as far as it doesn't depend on the bounds.
#[derive(Drop)]
pub(crate) struct OtherHolders {
    /// Of each task, by its number, how long its requests last that go first. It is 0 if no other task of its processor uses the resource.
    pub(crate) first: [FirstTicks; 64],
    /// For how many ticks a lower task may hold the resource.
    pub(crate) lower: u64,
}

// How long requests that go first last on each processor, the longest one of each of its tasks?
fn longest_on(set: &TaskSet, q: ResourceId, first: &[FirstTicks]) -> [u64; 65]
    requires { AreFirst set.now q.0 first.now }
    ensures { AreLongestOn set.now q.0 result }
{
    // a set has at most 64 processors, which are counted from 1
    let tasks = set.tasks();
    let mut on = [0u64; 65];
    for x in 0..tasks {
        let longest = first[x as usize].longest;
        on[set.processor(TaskId(x)) as usize] += longest;
    }
    on
}

// For how many ticks may `y` hold `q` while `i` waits on another processor? Its own request runs, and one that goes first of each other task
// there.
fn holding_ticks(
    set: &TaskSet,
    i: TaskId,
    q: ResourceId,
    first: &[FirstTicks],
    on: &[u64],
    y: TaskId,
) -> u64
    requires held { AreTaskAndResource set.now y.0 q.0 }
    requires user { is_user set.now q.0 y.0 ≡ true }
    requires away { have_one_processor set.now y.0 i.0 ≡ false }
    requires first { AreFirstOn set.now q.0 first.now on.now }
    ensures { IsAmount result (holding_ticks set.now i.0 q.0 y.0) 65000000000 }
{
    // a set has at most 64 processors
    let _tasks = set.tasks();
    let others = on[set.processor(y) as usize] - first[y.0 as usize].longest;
    set.length(y, q) + others
}

// May the lower task `y` hold `q` when `i` issues its request?
fn may_hold_before(set: &TaskSet, i: TaskId, q: ResourceId, y: TaskId) -> bool
    requires { AreTwoTasksAndResource set.now i.0 y.0 q.0 }
    ensures { result ≡ may_hold_before set.now i.0 q.0 y.0 }
{
    i < y && uses(set, y, q) && !share_processor(set, y, i)
}

// For how many ticks may it hold `q` then?
fn lower_holding(
    set: &TaskSet,
    i: TaskId,
    q: ResourceId,
    first: &[FirstTicks],
    on: &[u64],
    y: TaskId,
) -> u64
    requires held { AreTwoTasksAndResource set.now i.0 y.0 q.0 }
    requires first { AreFirstOn set.now q.0 first.now on.now }
    ensures { IsAmount result (only_if (may_hold_before set.now i.0 q.0 y.0) (holding_ticks set.now i.0 q.0 y.0)) 65000000000 }
{
    if may_hold_before(set, i, q, y) {
        holding_ticks(set, i, q, first, on, y)
    } else {
        0
    }
}

// For how many ticks may the longest such holding last?
fn longest_lower_holding(
    set: &TaskSet,
    i: TaskId,
    q: ResourceId,
    first: &[FirstTicks],
    on: &[u64],
) -> u64
    requires request { AreTaskAndResource set.now i.0 q.0 }
    requires first { AreFirstOn set.now q.0 first.now on.now }
    ensures { IsAmount result (longest_lower_holding set.now i.0 q.0) 65000000000 }
{
    let users = set.users(q);
    let mut longest = 0;
    for y in users {
        longest = lower_holding(set, i, q, first, on, *y).max(longest);
    }
    longest
}

/// What others may do with `q` while `i` waits for it.
pub(crate) fn other_holders(set: &TaskSet, i: TaskId, q: ResourceId) -> OtherHolders
    requires { AreTaskAndResource set.now i.0 q.0 }
    ensures { AreHolders set.now i.0 q.0 result }
{
    let first = first_of_tasks(set, q);
    let on = longest_on(set, q, &first);
    let lower = longest_lower_holding(set, i, q, &first, &on);
    OtherHolders { first, lower }
}
