//! The loop of the rounds, over what takes one of them and what is recorded.

ghost use Rattle.std.specs.Prelude.{ℕ, List, Result, Err};
ghost use Rattle.program_sources.specs.Recurrence.{SourceDef, source_at};
ghost use Rattle.response_fixpoint.specs.Given.{IsServedAt};
ghost use Rattle.response_fixpoint.specs.Solutions.{IsPlan};
ghost use Rattle.response_fixpoint.specs.Taking.{TakesRound};
ghost use Rattle.response_fixpoint.specs.declared.plan.Planned.{Planned};
ghost use Rattle.response_fixpoint.specs.declared.rounds.Round.{Round};
ghost use Rattle.response_fixpoint.specs.declared.rounds.RoundStop.{RoundStop};
ghost use Rattle.response_fixpoint.specs.declared.rounds.RoundStop.TheVariants.{Memory};

use crate::plan::{Planned, next_plan};
use crate::rounds::{Round, RoundStop};
use program_sources::ProgramSource;
use sporadic_model::TaskSet;
use std::alloc::Global;

/// What is recorded of rounds.
pub trait RoundRecord {
    /// Can a round of this source begin at these bounds, with this many units and this plan?
    ghost begins: { SourceDef → List ℕ → ℕ → List Planned → Type 0 };

    /// Have the rounds of this source come to these bounds with this allowance, of which this many units are spent? And is this their
    /// record?
    ghost stands: { Self → SourceDef → ℕ → ℕ → List ℕ → Type 0 };

    /// Do they end with this allowance in a round that gives this? And is this their record?
    ghost ends: { Self → SourceDef → ℕ → Result Round RoundStop → Type 0 };

    /// A round can begin with a plan of all tasks.
    ghost plans_begin: { (f : SourceDef) (r : List ℕ) (left : ℕ) (plan : List Planned) → IsPlan f r left plan → begins f r left plan };

    /// Running out of memory says nothing of the rounds.
    ghost memory: { (t : Self) (f : SourceDef) (allowance : ℕ) → ends t f allowance (Err Memory) };
}

/// One round at these bounds, as `take` takes and records it.
fn next_round<
    P: ProgramSource,
    S: RoundRecord,
    F: Fn(&mut S, &[u64], u64, Vec<Planned>) -> Result<Round, RoundStop>,
>(
    set: &TaskSet,
    protocol: &P,
    recorded: &mut S,
    take: &F,
    bounds: &Vec<u64>,
    left: u64,
    plan: Vec<Planned>,
) -> Result<Round, RoundStop>
    requires served { IsServedAt (P.serves protocol.now) set.now bounds.now.items }
    requires takes { (s : _) (b : _) (left : ℕ) (p : _) → IsServedAt (P.serves protocol.now) set.now b.now
        → S.begins (source_at (P.source protocol.now) set.now) b.now left p.items
        → (F.pre take.now s b left p) × ((given : _) (t : _) → F.post take.now s b left p given t
        → TakesRound (S.stands s.now) (S.stands t.now) (S.ends t.now) (source_at (P.source protocol.now) set.now) b.now left given) }
    requires plan { S.begins (source_at (P.source protocol.now) set.now) bounds.now.items left plan.items }
    ensures { TakesRound (S.stands recorded.old) (S.stands recorded.new) (S.ends recorded.new) (source_at (P.source protocol.now) set.now)
        bounds.now.items left result }
{
    take(recorded, bounds, left, plan)
}

/// Takes rounds from these bounds on, until one ends or gives the vector that it began with. What it answers is what that round gives.
/// `take` takes one round and records it: at these bounds, with this many units left, and with this plan. `plan` is that of the first.
pub fn take_rounds<
    P: ProgramSource,
    S: RoundRecord,
    F: Fn(&mut S, &[u64], u64, Vec<Planned>) -> Result<Round, RoundStop>,
>(
    alloc: Global,
    set: &TaskSet,
    protocol: &P,
    allowance: u64,
    recorded: &mut S,
    take: &F,
    bounds: Vec<u64>,
    plan: Vec<Planned>,
) -> Result<Round, RoundStop>
    requires served { IsServedAt (P.serves protocol.now) set.now bounds.items }
    requires takes { (s : _) (b : _) (left : ℕ) (p : _) → IsServedAt (P.serves protocol.now) set.now b.now
        → S.begins (source_at (P.source protocol.now) set.now) b.now left p.items
        → (F.pre take.now s b left p) × ((given : _) (t : _) → F.post take.now s b left p given t
        → TakesRound (S.stands s.now) (S.stands t.now) (S.ends t.now) (source_at (P.source protocol.now) set.now) b.now left given) }
    requires stands { S.stands recorded.old (source_at (P.source protocol.now) set.now) allowance 0 bounds.items }
    requires plan { S.begins (source_at (P.source protocol.now) set.now) bounds.items allowance plan.items }
    ensures { S.ends recorded.new (source_at (P.source protocol.now) set.now) allowance result }
{
    // a set has a task, so each round takes a unit, and the rounds end
    let _tasks = set.tasks();
    let mut bounds = bounds;
    let mut plan = plan;
    let mut spent = 0;
    loop {
        let left = allowance - spent;
        let round = match next_round(set, protocol, recorded, take, &bounds, left, plan) {
            Ok(round) => round,
            Err(stop) => return Err(stop),
        };
        if round.values == bounds {
            return Ok(round);
        }
        let Round { used, values, kept } = round;
        plan = next_plan(alloc, set, protocol, &bounds, &values, kept)?;
        bounds = values;
        spent += used;
    }
}
