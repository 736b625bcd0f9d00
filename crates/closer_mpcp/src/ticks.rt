//! For how many ticks other tasks may hold a resource in a span of ticks from the issue of a request on.

ghost use Rattle.std.specs.Prelude.{◌≡◌, ◌≤◌, ◌*◌, nat_lt, length, slice_index};
ghost use Rattle.number_laws.specs.Sums.{only_if, sum_below};
ghost use Rattle.blocking_columns.specs.Windows.{jobs_during, requests_during};
ghost use Rattle.mpcp_window_laws.specs.MpcpWindows.{own_ticks, holdings_beside, ticks_instead, ticks_held};
ghost use Rattle.closer_mpcp.specs.Amounts.{IsAmount};
ghost use Rattle.closer_mpcp.specs.Given.{AreInSpan, AreJobsIn, AreRequestsIn};
ghost use Rattle.closer_mpcp.specs.Tables.{AreFirst, AreHoldingsFor, AreHolders, all_ticks_instead};

use crate::first_ticks::FirstTicks;
use crate::lower_holders::OtherHolders;
use crate::sums::{Requests, Sums, beside, sums_of};
use sporadic_model::{ResourceId, TaskId, TaskSet, jobs_in};

/// How many jobs of `x` can run in a span of ticks?
pub(crate) fn jobs_during(set: &TaskSet, bounds: &[u64], span: u64, x: TaskId) -> u64
    requires { AreJobsIn set.now bounds.now span x.0 }
    ensures { IsAmount result (jobs_during set.now (slice_index bounds.now) span x.0) 2000000000 }
{
    // no bound and jitter together are above the deadline of their task, which is within the limits of every set
    let _tasks = set.tasks();
    let bound = bounds[x.0 as usize] + set.jitter(x);
    jobs_in(span, bound, set.period(x))
}

// For how many ticks may requests of these jobs run, if those of one job run for `time`?
fn ticks_of_jobs(set: &TaskSet, bounds: &[u64], span: u64, x: TaskId, time: u64) -> u128
    requires jobs { AreJobsIn set.now bounds.now span x.0 }
    requires time { time ≤ 32000000000000 }
    ensures { IsAmount result (jobs_during set.now (slice_index bounds.now) span x.0 * time) 64000000000000000000000 }
{
    u128::from(jobs_during(set, bounds, span, x)) * u128::from(time)
}

/// The requests that each task can make in a span of ticks.
#[derive(Drop)]
pub(crate) struct InSpan<'a> {
    pub(crate) bounds: &'a [u64],
    pub(crate) span: u64,
}

impl<'a> Requests for InSpan<'a> {
    ghost use Rattle.mpcp_window_laws.proofs.WaitLimits.{none_by};

    ghost made = { λ k set r y. requests_during set (slice_index k.bounds.now) k.span y r };

    ghost fits = { λ k set. AreInSpan set k.bounds.now k.span };

    fn number(&self, set: &TaskSet, r: ResourceId, y: TaskId) -> u64 {
        set.count(y, r) * jobs_during(set, self.bounds, self.span, y)
    }

    ghost none = { λ k set r y unused. none_by set (slice_index k.bounds.now) k.span y r unused };
}

// For how many ticks may requests of `q` by `x` run, if it is higher than `i`?
fn own_ticks_of(
    set: &TaskSet,
    i: TaskId,
    q: ResourceId,
    bounds: &[u64],
    span: u64,
    holdings: &Sums,
    x: TaskId,
) -> u128
    requires { AreHoldingsFor set.now bounds.now i.0 q.0 span holdings.now x.0 }
    ensures { IsAmount result (only_if (nat_lt x.0 i.0) (own_ticks set.now (slice_index bounds.now) q.0 span x.0)) 128000000000000000000000 }
{
    // a set has at most 64 tasks
    let _tasks = set.tasks();
    u128::from(holdings.own[x.0 as usize]) * u128::from(set.length(x, q))
}

// For how many ticks may requests of `q` by tasks higher than `i` run?
fn own_ticks(
    set: &TaskSet,
    i: TaskId,
    q: ResourceId,
    bounds: &[u64],
    span: u64,
    holdings: &Sums,
) -> u128
    requires { AreHoldingsFor set.now bounds.now i.0 q.0 span holdings.now i.0 }
    ensures { IsAmount result (sum_below i.0 (own_ticks set.now (slice_index bounds.now) q.0 span)) 8192000000000000000000000 }
{
    // a set has at most 64 tasks, so the sum fits
    let _tasks = set.tasks();
    let users = set.users(q);
    let mut total = 0u128;
    for x in users {
        total += own_ticks_of(set, i, q, bounds, span, holdings, *x);
    }
    total
}

// How often may jobs of higher tasks hold it so that `x` may run instead? These are on its processor, and aren't its own.
fn holdings_beside(
    set: &TaskSet,
    i: TaskId,
    q: ResourceId,
    bounds: &[u64],
    span: u64,
    holdings: &Sums,
    x: TaskId,
) -> u64
    requires { AreHoldingsFor set.now bounds.now i.0 q.0 span holdings.now x.0 }
    ensures { IsAmount result (holdings_beside set.now (slice_index bounds.now) i.0 q.0 span x.0) 128000000000000 }
{
    if x == i { 0 } else { beside(set, holdings, x) }
}

// For how many ticks may `x` run instead? It runs one request in each of these holdings, and no more than its jobs make.
fn ticks_by(
    set: &TaskSet,
    i: TaskId,
    q: ResourceId,
    bounds: &[u64],
    first: &[FirstTicks],
    span: u64,
    holdings: &Sums,
    x: TaskId,
) -> u128
    requires holdings { AreHoldingsFor set.now bounds.now i.0 q.0 span holdings.now x.0 }
    requires first { AreFirst set.now q.0 first.now }
    ensures { IsAmount result (ticks_instead set.now (slice_index bounds.now) i.0 q.0 span x.0) 64000000000000000000000 }
{
    let of_runner = first[x.0 as usize];
    // most tasks have no request that goes first
    if of_runner.longest == 0 {
        return 0;
    }
    let beside = holdings_beside(set, i, q, bounds, span, holdings, x);
    // beside most tasks no higher one holds it
    if beside == 0 {
        return 0;
    }
    let instead = u128::from(beside) * u128::from(of_runner.longest);
    instead.min(ticks_of_jobs(set, bounds, span, x, of_runner.all))
}

// For how many ticks may all tasks run instead of the holders?
fn ticks_instead(
    set: &TaskSet,
    i: TaskId,
    q: ResourceId,
    bounds: &[u64],
    first: &[FirstTicks],
    span: u64,
    holdings: &Sums,
) -> u128
    requires holdings { AreHoldingsFor set.now bounds.now i.0 q.0 span holdings.now i.0 }
    requires first { AreFirst set.now q.0 first.now }
    ensures { IsAmount result (all_ticks_instead set.now (slice_index bounds.now) i.0 q.0 span) 4096000000000000000000000 }
{
    let mut total = 0u128;
    for x in 0..set.tasks() {
        total += ticks_by(set, i, q, bounds, first, span, holdings, TaskId(x));
    }
    total
}

/// Let a request of `q` by `i` be issued. For how many ticks may other tasks hold `q`, with the jobs that run in this span from its issue on?
pub(crate) fn ticks_held(
    set: &TaskSet,
    i: TaskId,
    q: ResourceId,
    bounds: &[u64],
    holders: &OtherHolders,
    span: u64,
) -> u128
    requires request { AreRequestsIn set.now bounds.now span i.0 q.0 }
    requires holders { AreHolders set.now i.0 q.0 holders.now }
    ensures { result ≡ ticks_held set.now (slice_index bounds.now) i.0 q.0 span }
{
    // a set has at most 64 tasks, so the sum fits
    let _tasks = set.tasks();
    let holdings = sums_of(set, &InSpan { bounds, span }, i, q);
    let own = own_ticks(set, i, q, bounds, span, &holdings);
    let instead = ticks_instead(set, i, q, bounds, &holders.first, span, &holdings);
    u128::from(holders.lower) + (own + instead)
}
