ghost use Rattle.std.specs.Prelude.{◌≡◌, IfOk};
ghost use Rattle.program_sources.specs.Recurrence.{source_at};
ghost use Rattle.response_fixpoint.specs.Given.{IsServedAt};
ghost use Rattle.response_fixpoint.specs.Places.{AreEach};
ghost use Rattle.response_fixpoint.specs.Rounds.{Ending, EndsIn};
ghost use Rattle.response_fixpoint.specs.Solutions.{IsPlanned};
ghost use Rattle.refusal_cert.specs.Refuting.{refuting};
ghost use Rattle.refusal_cert.specs.Answers.{Refutes, IsAnswerOf, FollowsAnalysis, IsRight, GivesRound, answer_at, seen};
ghost use Rattle.refusal_cert.specs.Steps.{refusal_of};

use crate::answer::{Answer, RefuteStop};
use crate::rounds::take_round;
use program_sources::{ProgramSource, recurrence_is_monotone};
use refusal_laws::{Refusal, RefusalStep};
use response_fixpoint::{Planned, Round, RoundRecord, RoundStop, costs, take_rounds};
use sporadic_model::TaskSet;
use std::alloc::Global;

/// What is answered for this end of a round, with the steps up to there.
fn answer_of_stop(stop: RoundStop, steps: Vec<RefusalStep>) -> Result<Answer, RefuteStop>
    ensures { result ≡ answer_at stop steps }
{
    match stop {
        RoundStop::NotShown { .. } => Ok(Answer::Refused(Refusal { steps })),
        RoundStop::Wide(task) => Err(RefuteStop::Wide(task)),
        RoundStop::Allowance => Err(RefuteStop::Allowance),
        RoundStop::Memory => Err(RefuteStop::Memory),
    }
}

/// A refutation records the steps of its rounds.
#[derive(Drop)]
struct StepRecord {
    steps: Vec<RefusalStep>,
}

impl RoundRecord for StepRecord {
    ghost use Rattle.refusal_cert.specs.Answers.{Stands, answer_of};

    ghost begins = { λ f r left plan. AreEach (IsPlanned f r left) 0 plan };

    ghost stands = { λ s f allowance spent r. Stands f allowance spent r (seen s.steps.items) };

    ghost ends = { λ s f allowance given. Refutes (answer_of given s.steps) f allowance };

    ghost plans_begin = { λ f r left plan whole. whole.planned };

    ghost memory = { λ s f allowance. tt };
}

/// What is answered at the end of the rounds from the costs on.
fn answer_of_rounds<P: ProgramSource>(
    alloc: Global,
    set: &TaskSet,
    protocol: &P,
    allowance: u64,
) -> Result<Answer, RefuteStop>
    requires { P.serves protocol.now set.now }
    ensures { Refutes result (source_at (P.source protocol.now) set.now) allowance }
{
    let first = costs(alloc, set)?;
    let take = |written: &mut StepRecord, bounds: &[u64], left: u64, plan: Vec<Planned>| -> Result<
        Round,
        RoundStop,
    >
        requires served { IsServedAt (P.serves protocol.now) set.now bounds.now }
        requires plan { AreEach (IsPlanned (source_at (P.source protocol.now) set.now) bounds.now left) 0 plan.items }
        ensures { GivesRound result (source_at (P.source protocol.entry.now) set.entry.now) bounds.now left (seen written.old.steps.items)
            (seen written.new.steps.items) }
    { take_round(alloc, set, protocol, bounds, left, plan, &mut written.steps) };
    let mut written = StepRecord {
        steps: Vec::new(alloc),
    };
    // the first round forms the programs, in their places
    let none = Vec::new(alloc);
    match take_rounds(
        alloc,
        set,
        protocol,
        allowance,
        &mut written,
        &take,
        first,
        none,
    ) {
        Ok(_) => Ok(Answer::Schedulable),
        Err(stop) => answer_of_stop(stop, written.steps),
    }
}

/// Shows that no bounds fit, by steps that a reader can judge from the programs alone. Or shows that some bounds fit.
///
/// The rounds are those of an analysis, with one program solved at a time. A program keeps its solution where its limits stay the same.
/// A task whose value is above its bound at the round's start gives a step. A step has the value, and the best point of the task's
/// program over its least common denominator. The task whose value passes its latest bound gives the last one. `allowance` is the
/// number of units that all programs together may take, counted as in an analysis.
///
/// `RefuteStop::Wide` names the first task whose run is wide, or whose step has a point that passes 2^63 - 1. `RefuteStop::Allowance`
/// comes if the rounds end so, and only then. `RefuteStop::Memory` comes only if memory runs out.
pub fn refute<P: ProgramSource>(
    alloc: Global,
    set: &TaskSet,
    protocol: &P,
    allowance: u64,
) -> Result<Answer, RefuteStop>
    requires serves { P.serves protocol.now set.now }

    // The answer, be it a verdict or a stop, is how the rounds end. A refusal has the steps of these rounds and no others.
    ensures rounds { Refutes result (source_at (P.source protocol.now) set.now) allowance }

    // Conversely, each end of the rounds gives its own answer, with the steps of that end, unless memory runs out.
    ensures only { (e : Ending) (ends : EndsIn (refuting (source_at (P.source protocol.now) set.now)) allowance e)
        → IsAnswerOf result e (refusal_of (refuting (source_at (P.source protocol.now) set.now)) allowance e ends) }

    // Refused comes if and only if the rounds of an analysis end at a task that isn't shown and the point of each step can be written.
    // Schedulable comes if and only if they end in bounds that fit and each of these points can be written.
    ensures follows { FollowsAnalysis result (source_at (P.source protocol.now) set.now) allowance }

    // Refused: the refusal holds, and nothing fits. Schedulable: something fits.
    ensures right { IfOk result (λ answer. IsRight answer (source_at (P.source protocol.now) set.now)) }
{
    // the costs of a set are within its latest bounds
    let _tasks = set.tasks();
    recurrence_is_monotone::<P>();
    answer_of_rounds(alloc, set, protocol, allowance)
}
