ghost use Rattle.std.specs.Prelude.{IfOk};
ghost use Rattle.program_sources.specs.Recurrence.{source_at};
ghost use Rattle.response_fixpoint.specs.Rounds.{Wide, EndsIn};
ghost use Rattle.response_fixpoint.specs.Runs.{rounds_of};
ghost use Rattle.settling.specs.Answers.{IsAnswered, IsAnswerFor, IsNotShown, IsSound, IsWideToAnalyse};
ghost use Rattle.settling.specs.Rising.{IsFixed};
ghost use Rattle.settling.specs.Ways.{NothingFits};
ghost use Rattle.settling.specs.declared.finding.Points.TheVariants.{Exact};

use crate::answer::{SettleStop, Settled};
use crate::certificates::certificate_of;
use crate::finding::Points;
use crate::laws::certificates_of_analyses_need_no_more_bits;
use crate::reached::Reached;
use crate::refusals::{answer_refusal, keeps_64_bits, refuse_by_rounded_points};
use crate::rising::{Risen, rise};
use charged_protocols::{ChargedProtocol, charged_protocols_are_analysed};
use free_search::{the_end_is_read_in_one_way, what_is_found_is_best};
use program_sources::{ProgramSource, recurrence_is_monotone};
use refusal_cert::{Answer, RefuteStop, refute};
use response_fixpoint::{Stop, Verdict, analyse_with, the_rounds_have_one_ending};
use soundness_laws::analysed_protocols_are_sound;
use sporadic_model::{TaskId, TaskSet};
use std::alloc::Global;
use std::thread::Threads;

/// The certificate at the end of a walk with exact points.
fn settle_fixed<P: ProgramSource>(
    alloc: Global,
    set: &TaskSet,
    protocol: &P,
    bounds: Vec<u64>,
    reached: Vec<Reached>,
    allowance: u64,
) -> Result<Settled, SettleStop>
    requires serves { P.serves protocol.now set.now }
    requires wide { IsWideToAnalyse (source_at (P.source protocol.now) set.now) allowance }
    requires fixed { IsFixed Exact (source_at (P.source protocol.now) set.now) allowance bounds.items reached.items }
    ensures { IsAnswered (source_at (P.source protocol.now) set.now) allowance result }
{
    recurrence_is_monotone::<P>();
    what_is_found_is_best();
    the_end_is_read_in_one_way();
    match certificate_of(alloc, set, protocol, bounds, reached, allowance) {
        Ok(certificate) => Ok(Settled::Schedulable(certificate)),
        Err(stop) => Err(stop),
    }
}

/// Settles a set whose analysis is wide at this task.
fn settle_wide<R: Threads + Sync, P: ProgramSource + Sync>(
    rt: &R,
    alloc: Global,
    set: &TaskSet,
    protocol: &P,
    task: TaskId,
    allowance: u64,
) -> Result<Settled, SettleStop>
    requires serves { P.serves protocol.now set.now }
    requires wide { EndsIn (rounds_of (source_at (P.source protocol.now) set.now)) allowance (Wide task.0) }
    ensures { IsAnswered (source_at (P.source protocol.now) set.now) allowance result }
{
    recurrence_is_monotone::<P>();
    what_is_found_is_best();
    the_end_is_read_in_one_way();
    match rise(rt, alloc, set, protocol, Points::Exact, allowance) {
        Ok(Risen::Fixed(bounds, reached)) => {
            settle_fixed(alloc, set, protocol, bounds, reached, allowance)
        }
        Ok(Risen::Late(Some(refusal))) => Ok(answer_refusal(rt, alloc, set, protocol, refusal)),
        Ok(Risen::Late(None)) => {
            refuse_by_rounded_points(rt, alloc, set, protocol, task, allowance)
        }
        Err(stop) => Err(stop),
    }
}

/// Refuses a set that the analysis doesn't show.
fn refuse<R: Threads + Sync, P: ProgramSource + Sync>(
    rt: &R,
    alloc: Global,
    set: &TaskSet,
    protocol: &P,
    allowance: u64,
) -> Result<Settled, SettleStop>
    requires serves { P.serves protocol.now set.now }
    requires none { NothingFits (source_at (P.source protocol.now) set.now) }
    requires late { IsNotShown (source_at (P.source protocol.now) set.now) allowance }
    ensures { IsAnswered (source_at (P.source protocol.now) set.now) allowance result }
{
    the_rounds_have_one_ending();
    match refute(alloc, set, protocol, allowance) {
        Ok(Answer::Refused(refusal)) => {
            keeps_64_bits(&refusal);
            Ok(Settled::Refused(refusal))
        }
        Ok(Answer::Schedulable) => unreachable!(),
        Err(RefuteStop::Wide(task)) => {
            refuse_by_rounded_points(rt, alloc, set, protocol, task, allowance)
        }
        // the analysis had units enough, and the rounds of refusals take as many
        Err(RefuteStop::Allowance) => unreachable!(),
        Err(RefuteStop::Memory) => Err(SettleStop::Memory),
    }
}

/// The answer, from the analysis, a refutation or a search.
fn settle<R: Threads + Sync, P: ProgramSource + Sync>(
    rt: &R,
    alloc: Global,
    set: &TaskSet,
    protocol: &P,
    allowance: u64,
) -> Result<Settled, SettleStop>
    requires serves { P.serves protocol.now set.now }
    ensures { IsAnswered (source_at (P.source protocol.now) set.now) allowance result }
{
    certificates_of_analyses_need_no_more_bits();
    match analyse_with(rt, alloc, set, protocol, allowance) {
        Ok(Verdict::Schedulable(certificate)) => Ok(Settled::Schedulable(certificate)),
        Ok(Verdict::NotShown { .. }) => refuse(rt, alloc, set, protocol, allowance),
        Err(Stop::Wide(task)) => settle_wide(rt, alloc, set, protocol, task, allowance),
        Err(Stop::Allowance) => Err(SettleStop::Allowance),
        Err(Stop::Memory) => Err(SettleStop::Memory),
    }
}

/// Settles a task set over any source of programs: see [`settle_with`].
pub fn settle_by<R: Threads + Sync, P: ProgramSource + Sync>(
    rt: &R,
    alloc: Global,
    set: &TaskSet,
    protocol: &P,
    allowance: u64,
) -> Result<Settled, SettleStop>
    requires serves { P.serves protocol.now set.now }
    ensures { IsAnswerFor (source_at (P.source protocol.now) set.now) allowance result }
{
    set.keeps_the_model();
    the_rounds_have_one_ending();
    settle(rt, alloc, set, protocol, allowance)
}

/// Settles a task set: least bounds with a certificate, or a refusal.
///
/// The analysis is made first, so that its answer stays if it has one. A set that it doesn't show is refuted. If either is wide, a search
/// over numbers of any size proposes points and duals. Bounds rise from the costs by points that are tested. If no bound rises any more,
/// they are the least that fit, and the duals make a certificate, which is judged. If a value passes its task's latest bound, steps with
/// points of 63 bits make a refusal. Steps that its last one doesn't need are left out, as far as they are found.
///
/// `allowance` is the number of units for the analysis, as many for the refutation, and as many for each walk of a search. A task takes one
/// in each round, and one more for each exchange. `SettleStop::Wide` comes only if the analysis is wide, or the refutation of a set that
/// isn't shown. It names a task whose program needs numbers of more than 63 bits. Or nothing fits, and the walk whose points are rounded
/// down to 63 bits passes no latest bound. `SettleStop::Allowance` comes only if the analysis, or a walk, wants more units.
/// `SettleStop::Memory` comes only if memory runs out.
pub fn settle_with<R: Threads + Sync, P: ChargedProtocol + Sync>(
    rt: &R,
    alloc: Global,
    set: &TaskSet,
    protocol: &P,
    allowance: u64,
) -> Result<Settled, SettleStop>
    requires suits { P.suits protocol.now set.now }
    ensures answers { IsAnswerFor (source_at (P.source protocol.now) set.now) allowance result }

    // The bounds of a certificate hold in every schedule of lawful jobs that keeps the protocol's rules.
    ensures sound { IfOk result (λ settled.
        IsSound (P.keeps protocol.now) (P.interferes protocol.now) (source_at (P.source protocol.now) set.now) settled) }
{
    set.keeps_the_model();
    charged_protocols_are_analysed::<P>();
    analysed_protocols_are_sound::<P>();
    settle_by(rt, alloc, set, protocol, allowance)
}
