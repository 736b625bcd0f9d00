ghost use Rattle.std.specs.Prelude.{◌≡◌, ℕ, ◌+◌, ◌*◌, ◌≤◌, ◌↔◌, List, length, map, IfOk, IsErrOf};
ghost use Rattle.program_form.specs.Certificate.{dual_seen};
ghost use Rattle.sporadic_model.specs.Homes.{HasHomesFor};
ghost use Rattle.sporadic_model.specs.Bounds.{IsInRange};
ghost use Rattle.program_sources.specs.Fitting.{AreFitting};
ghost use Rattle.program_sources.specs.Recurrence.{source_at};
ghost use Rattle.program_laws.specs.Programs.{source_of};
ghost use Rattle.response_fixpoint.specs.Rounds.{Ending, EndsIn};
ghost use Rattle.response_fixpoint.specs.Runs.{rounds_of, slack_of, HasNoColumns, RequestsNothing};
ghost use Rattle.response_fixpoint.specs.Given.{BeginsRound};
ghost use Rattle.response_fixpoint.specs.Answers.{Answers, GivesRound, IsAnswerOf, IsRight, IsSchedulable, IsSettled, answer_at};

use crate::beginning::first_plan;
use crate::laws::no_requests_no_columns;
use crate::plan::{Kept, Planned};
use crate::rounds::{Round, RoundStop, take_round};
use crate::taking::{RoundRecord, take_rounds};
use crate::task_run::Solution;
use crate::verdict::{Stop, Verdict};
use program_form::{Certificate, Dual};
use program_sources::{ProgramSource, recurrence_is_monotone};
use protocol_programs::Written;
use sporadic_model::{Protocol, TaskId, TaskSet};
use std::alloc::{AllocError, Global};
use std::thread::Threads;

/// The vector that the rounds begin with: each task's cost.
pub fn costs(alloc: Global, set: &TaskSet) -> Result<Vec<u64>, AllocError>
    ensures first { IfOk result (λ v. v.items ≡ map (λ t. t.cost) set.now.tasks) }
    ensures range { IfOk result (λ v. IsInRange set.now v.items) }
{
    let mut costs = Vec::new(alloc);
    for i in 0..set.tasks() {
        costs.push(set.cost(TaskId(i)))?;
    }
    Ok(costs)
}

/// What the analysis answers for this end of a round.
fn verdict_of_stop(stop: RoundStop) -> Result<Verdict, Stop>
    ensures { result ≡ answer_at stop }
{
    match stop {
        RoundStop::NotShown { task, bound } => Ok(Verdict::NotShown { task, bound }),
        RoundStop::Wide(task) => Err(Stop::Wide(task)),
        RoundStop::Allowance => Err(Stop::Allowance),
        RoundStop::Memory => Err(Stop::Memory),
    }
}

/// The duals of kept solutions.
fn duals_of(alloc: Global, kept: Vec<Kept>) -> Result<Vec<Dual>, AllocError>
    ensures { IfOk result (λ v. map dual_seen v.items ≡ map (λ k. dual_seen k.solution.dual) kept.items) }
{
    let mut duals = Vec::new(alloc);
    for last in kept {
        let Kept { solution, .. } = last;
        let Solution { dual, .. } = solution;
        duals.push(dual)?;
    }
    Ok(duals)
}

/// What the analysis answers where a round gives the vector that it began with.
fn verdict_at_fixpoint(alloc: Global, bounds: Vec<u64>, kept: Vec<Kept>) -> Result<Verdict, Stop>
    ensures { IsSettled result bounds.items (map (λ k. dual_seen k.solution.dual) kept.items) }
{
    let duals = duals_of(alloc, kept)?;
    Ok(Verdict::Schedulable(Certificate { bounds, duals }))
}

/// An analysis records nothing of its rounds.
#[derive(Drop)]
struct NoRecord;

impl RoundRecord for NoRecord {
    ghost use Rattle.response_fixpoint.specs.Solutions.{IsPlan};
    ghost use Rattle.response_fixpoint.specs.Taking.{IsReached, EndsWith};

    ghost begins = { IsPlan };

    ghost stands = { λ none. IsReached };

    ghost ends = { λ none. EndsWith };

    ghost plans_begin = { λ f r left plan whole. whole };

    ghost memory = { λ none f allowance. tt };
}

/// The verdict at the end of the rounds from the costs on.
fn verdict_of_rounds<R: Threads + Sync, P: ProgramSource + Sync>(
    rt: &R,
    alloc: Global,
    set: &TaskSet,
    protocol: &P,
    allowance: u64,
) -> Result<Verdict, Stop>
    requires { P.serves protocol.now set.now }
    ensures { Answers result (source_at (P.source protocol.now) set.now) allowance }
{
    let first = costs(alloc, set)?;
    let begun = first_plan(rt, alloc, set, protocol, &first, allowance)?;
    let take = |_none: &mut NoRecord, bounds: &[u64], left: u64, plan: Vec<Planned>| -> Result<
        Round,
        RoundStop,
    >
        requires { BeginsRound (P.serves protocol.now) (source_at (P.source protocol.now) set.now) bounds.now left plan.items }
        ensures { GivesRound result (source_at (P.source protocol.entry.now) set.entry.now) bounds.now left }
    { take_round(rt, alloc, set, protocol, bounds, left, plan) };
    let mut none = NoRecord;
    match take_rounds(
        alloc, set, protocol, allowance, &mut none, &take, first, begun,
    ) {
        Ok(Round { values, kept, .. }) => verdict_at_fixpoint(alloc, values, kept),
        Err(stop) => verdict_of_stop(stop),
    }
}

/// Finds the least bounds within all deadlines that satisfy the recurrence of a source of programs, or shows that there are none.
///
/// Bounds are in ticks. `allowance` is the number of units that all programs together may take. Each takes one unit, and one more for
/// each exchange of its run. A program with the same limits as in the round before keeps its solution, and the units of that are
/// counted again. A round solves the other programs side by side. The answer is the one that a single thread would give, solving the
/// programs in turn.
///
/// `Stop::Wide` and `Stop::Allowance` come if the rounds end so, and only then. `Stop::Memory` comes only if memory runs out. This is
/// the fixed-point iteration of response-time analysis (Joseph and Pandya 1986; Audsley et al. 1993). It takes the bounds of all tasks
/// at once.
pub fn analyse_with<R: Threads + Sync, P: ProgramSource + Sync>(
    rt: &R,
    alloc: Global,
    set: &TaskSet,
    protocol: &P,
    allowance: u64,
) -> Result<Verdict, Stop>
    requires serves { P.serves protocol.now set.now }

    // The answer, be it a verdict or a stop, is how the rounds end.
    ensures rounds { Answers result (source_at (P.source protocol.now) set.now) allowance }

    // Conversely, each end of the rounds gives its own answer and no other, unless memory runs out.
    ensures only { (e : Ending)
        → EndsIn (rounds_of (source_at (P.source protocol.now) set.now)) allowance e → IsAnswerOf result e }

    // Schedulable comes with the least fitting bounds and optimal duals. NotShown means that nothing fits. So Schedulable comes if some
    // bounds fit, and only then.
    ensures right { IfOk result (λ verdict. IsRight verdict (source_at (P.source protocol.now) set.now)) }
    ensures exactly { IfOk result (λ verdict. IsSchedulable verdict
        ↔ ((s : List ℕ) × AreFitting (source_at (P.source protocol.now) set.now) s)) }

    // Stops that don't come if no program has a column.
    ensures never_wide { HasNoColumns (source_at (P.source protocol.now) set.now)
        → (task : ℕ) → IsErrOf result (Stop.Wide (record { 0 = task })) → ⊥ }
    ensures enough { HasNoColumns (source_at (P.source protocol.now) set.now)
        → length set.now.tasks * (1 + slack_of (source_at (P.source protocol.now) set.now)) ≤ allowance
        → IsErrOf result Stop.Allowance → ⊥ }
{
    // the costs of a set are within its latest bounds
    let _tasks = set.tasks();
    recurrence_is_monotone::<P>();
    verdict_of_rounds(rt, alloc, set, protocol, allowance)
}

/// The same over the programs of the protocol. Under DPCP each resource has a home.
pub fn analyse<R: Threads + Sync>(
    rt: &R,
    alloc: Global,
    set: &TaskSet,
    protocol: Protocol,
    allowance: u64,
) -> Result<Verdict, Stop>
    requires suits { HasHomesFor protocol set.now }
    ensures rounds { Answers result (source_of protocol set.now) allowance }
    ensures only { (e : Ending) → EndsIn (rounds_of (source_of protocol set.now)) allowance e → IsAnswerOf result e }
    ensures right { IfOk result (λ verdict. IsRight verdict (source_of protocol set.now)) }
    ensures exactly { IfOk result (λ verdict. IsSchedulable verdict ↔ ((s : List ℕ) × AreFitting (source_of protocol set.now) s)) }

    // Stops that don't come for a set that requests nothing.
    ensures never_wide { RequestsNothing set.now → (task : ℕ) → IsErrOf result (Stop.Wide (record { 0 = task })) → ⊥ }
    ensures enough { RequestsNothing set.now → length set.now.tasks * (1 + slack_of (source_of protocol set.now)) ≤ allowance
        → IsErrOf result Stop.Allowance → ⊥ }
{
    no_requests_no_columns();
    analyse_with(rt, alloc, set, &Written(protocol), allowance)
}
