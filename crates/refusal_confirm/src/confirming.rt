ghost use Rattle.std.specs.Prelude.{◌≡◌, ◌↔◌, ℕ, List, map, IsTrue, IfOk, IfErr};
ghost use Rattle.program_sources.specs.Fitting.{AreFitting};
ghost use Rattle.program_sources.specs.Recurrence.{source_at};
ghost use Rattle.refusal_laws.specs.Steps.{HasDenominators, Holds};
ghost use Rattle.refusal_laws.specs.Seen.{step_seen, steps_seen};
ghost use Rattle.refusal_confirm.specs.Faults.{IsFault, Confirms, Names};

use crate::batches::{first_fault, next_batch, test_batch};
use crate::fault::{Fault, fault_of};
use crate::laws::faults_are_exact;
use crate::walk::start;
use program_sources::ProgramSource;
use refusal_laws::{Refusal, RefusalStep, refusals_are_right};
use sporadic_model::TaskSet;
use std::alloc::Global;
use std::thread::Threads;

/// Whether each point's denominator is at least 1.
pub fn has_denominators(refusal: &Refusal) -> bool
    ensures { IsTrue result ↔ HasDenominators (steps_seen refusal.now) }
{
    for k in 0..refusal.steps.len() {
        if refusal.steps[k].point.den == 0 {
            return false;
        }
    }
    true
}

/// Tests batch after batch.
fn confirm_in_batches<R: Threads + Sync, P: ProgramSource + Sync>(
    rt: &R,
    alloc: Global,
    set: &TaskSet,
    protocol: &P,
    steps: &[RefusalStep],
) -> Result<(), Fault>
    requires serves { P.serves protocol.now set.now }
    requires denominators { HasDenominators (map step_seen steps.now) }
    ensures { Confirms result (source_at (P.source protocol.now) set.now) (map step_seen steps.now) }
{
    let mut walk = start(alloc, set)?;
    let mut done = 0;
    while done < steps.len() {
        let batch = next_batch(alloc, set, &mut walk, steps, done)?;
        let tested = test_batch(rt, alloc, set, protocol, steps, done, &batch.trials)?;
        match first_fault(&tested, done) {
            Ok(()) => {}
            Err(fault) => return Err(fault),
        }
        done += batch.trials.len();
        if let Some(part) = batch.stop {
            return Err(fault_of(part, done as u64 + 1));
        }
    }
    if walk.is_over {
        Ok(())
    } else {
        Err(Fault::Open)
    }
}

/// Confirms a refusal for the programs of a source that serves the set. Each point's denominator has to be at least 1.
///
/// `Ok` says that the refusal holds, so nothing fits. `Fault` names the first test that fails, at the first step that fails one. It is
/// `Memory` only for want of memory. Up to 64 points are tested at the same time. The answer is the same as if one thread tested step after
/// step.
pub fn confirm<R: Threads + Sync, P: ProgramSource + Sync>(
    rt: &R,
    alloc: Global,
    set: &TaskSet,
    protocol: &P,
    refusal: &Refusal,
) -> Result<(), Fault>
    requires serves { P.serves protocol.now set.now }
    requires denominators { HasDenominators (steps_seen refusal.now) }

    // Ok if the refusal holds, and else its first fault.
    ensures confirms { Confirms result (source_at (P.source protocol.now) set.now) (steps_seen refusal.now) }

    // A refusal that holds is Ok, and one with a fault gets exactly that fault, except for want of memory. So each answer comes exactly
    // there.
    ensures accepts { Holds (source_at (P.source protocol.now) set.now) (steps_seen refusal.now) → IfErr result (λ e. e ≡ Fault.Memory) }
    ensures only { (e : Fault) → IsFault e (source_at (P.source protocol.now) set.now) (steps_seen refusal.now) → Names result e }

    // If it is Ok, nothing fits.
    ensures fits_none { IfOk result (λ done. (s : List ℕ) → AreFitting (source_at (P.source protocol.now) set.now) s → ⊥) }
{
    faults_are_exact();
    refusals_are_right::<P>();
    confirm_in_batches(rt, alloc, set, protocol, &refusal.steps)
}
