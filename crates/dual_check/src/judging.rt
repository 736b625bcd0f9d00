ghost use Rattle.std.specs.Prelude.{◌≡◌, ℕ, ◌<◌, ◌≤◌, List, map, length, vec_len, option_map, slice_index, ◌^◌, ◌↔◌, IsTrue, IfOk, IfErr};
ghost use Rattle.program_form.specs.Certificate.{certificate_seen};
ghost use Rattle.sporadic_model.specs.Homes.{HasHomesFor};
ghost use Rattle.program_sources.specs.Recurrence.{response_with, source_at};
ghost use Rattle.sporadic_model.specs.SetDef.{task_at, latest_bound};
ghost use Rattle.sporadic_model.specs.Bounds.{AreWithinDeadlines, AreFromCostsAbove};
ghost use Rattle.program_sources.specs.Valid.{IsValid};
ghost use Rattle.program_laws.specs.Programs.{source_of};
ghost use Rattle.soundness_laws.specs.Sound.{Sound};
ghost use Rattle.dual_check.specs.Answers.{HasDenominators, FindsLate, IsCovering, counted, Judges, Sums};
ghost use Rattle.dual_check.specs.Given.{IsServedWithin, AreCovering};
ghost use Rattle.dual_check.specs.Soundness.{SoundUnder};

use crate::duals::{DualWorth, first_uncovered_of, weigh_duals};
use crate::laws::what_passes_is_sound;
use charged_protocols::{ChargedProtocol, charged_protocols_are_analysed};
use dpcp_rules::Dpcp;
use fmlp_rules::FmlpPlus;
use mpcp_rules::Mpcp;
use program_form::Certificate;
use program_sources::{ProgramSource, response};
use schedule_answers::{Invalid, Valid};
use sporadic_model::{Protocol, TaskId, TaskSet};
use std::alloc::Global;

/// Whether each dual's denominator is at least 1.
pub fn has_denominators(certificate: &Certificate) -> bool
    ensures { IsTrue result ↔ HasDenominators (certificate_seen certificate.now) }
{
    for i in 0..certificate.duals.len() {
        if certificate.duals[i].den == 0 {
            return false;
        }
    }
    true
}

/// The first task whose bound passes its latest one.
fn first_late(set: &TaskSet, bounds: &[u64]) -> Option<TaskId>
    requires { length bounds.now ≡ length set.now.tasks }
    ensures { FindsLate result set.now bounds.now }
{
    (0..set.tasks())
        .map(TaskId)
        .find(|i| bounds[i.0 as usize] > set.latest_bound(*i))
}

/// The value of a dual that holds all columns.
fn value_of(worth: DualWorth) -> u64
    requires { IsCovering worth }
    ensures { result ≡ counted worth }
{
    match worth {
        DualWorth::Uncovered(_) => unreachable!(),
        DualWorth::Covering(value) => value,
    }
}

/// The values of the duals, or the first task whose dual has too great a value. A task's interference is formed once the bounds of the
/// higher tasks are known to be enough. So these are at least their costs.
fn add_up<P: ProgramSource>(
    alloc: Global,
    set: &TaskSet,
    protocol: &P,
    certificate: &Certificate,
    worths: &[DualWorth],
) -> Result<Vec<u64>, Invalid>
    requires at { IsServedWithin (P.serves protocol.now) set.now certificate.now }
    requires duals { AreCovering (source_at (P.source protocol.now) set.now) (certificate_seen certificate.now) worths.now }
    ensures { Sums result (source_at (P.source protocol.now) set.now) (certificate_seen certificate.now) }
{
    let mut values = Vec::new(alloc);
    for i in 0..set.tasks() {
        let task = TaskId(i);
        let bound = certificate.bounds[i as usize];
        let value = value_of(worths[i as usize]);
        if response(set, protocol, task, &certificate.bounds, value) > bound {
            return Err(Invalid::Small(task));
        }
        values.push(value)?;
    }
    Ok(values)
}

/// Judges a certificate for the programs of a source that serves the set. Each dual's denominator is at least 1.
///
/// `Ok` has the values of the duals, in ticks. `Invalid` names the first test that fails. Each test is tried for all tasks before the
/// next one. `Invalid::Memory` comes only if memory runs out.
pub fn judge<P: ProgramSource>(
    alloc: Global,
    protocol: &P,
    set: &TaskSet,
    certificate: &Certificate,
) -> Result<Valid, Invalid>
    requires serves { P.serves protocol.now set.now }
    requires denominators { HasDenominators (certificate_seen certificate.now) }
    ensures judges { Judges result (source_at (P.source protocol.now) set.now) (certificate_seen certificate.now) }
    ensures accepts { IsValid (source_at (P.source protocol.now) set.now)
        (certificate_seen certificate.now) → IfErr result (λ e. e ≡ Invalid.Memory) }
{
    let count = set.tasks() as usize;
    if certificate.bounds.len() != count || certificate.duals.len() != count {
        return Err(Invalid::Size);
    }
    if let Some(task) = first_late(set, &certificate.bounds) {
        return Err(Invalid::Bound(task));
    }
    let worths = weigh_duals(alloc, set, protocol, certificate)?;
    if let Some((task, column)) = first_uncovered_of(&worths) {
        return Err(Invalid::Cover(task, column));
    }
    let values = add_up(alloc, set, protocol, certificate, &worths)?;
    Ok(Valid { values })
}

/// Judges a certificate for the programs of a protocol, which the set suits. Each dual's denominator is at least 1.
///
/// `Ok` has the values of the duals, in ticks. `Invalid` names the first test that fails. Each test is tried for all tasks before the
/// next one. `Invalid::Memory` comes only if memory runs out.
pub fn check_with<P: ChargedProtocol>(
    alloc: Global,
    protocol: &P,
    set: &TaskSet,
    certificate: &Certificate,
) -> Result<Valid, Invalid>
    requires suits { P.suits protocol.now set.now }
    requires denominators { HasDenominators (certificate_seen certificate.now) }

    // The certificate is valid and these are the duals' values, or this is its first failure.
    ensures judges { Judges result (source_at (P.source protocol.now) set.now) (certificate_seen certificate.now) }

    // A valid certificate gets Ok, unless memory runs out.
    ensures accepts { IsValid (source_at (P.source protocol.now) set.now)
        (certificate_seen certificate.now) → IfErr result (λ e. e ≡ Invalid.Memory) }

    // What is Ok holds in every schedule of lawful jobs that keeps the protocol's rules.
    ensures sound { IfOk result (λ v.
        Sound (P.keeps protocol.now) (P.interferes protocol.now) set.now certificate.now.bounds.items v.values.items) }
{
    set.keeps_the_model();
    charged_protocols_are_analysed::<P>();
    what_passes_is_sound::<P>();
    judge(alloc, protocol, set, certificate)
}

/// Judges a certificate for the programs of the protocol. Under DPCP each resource has a home. Each dual's denominator is at least 1.
pub fn check(
    alloc: Global,
    protocol: Protocol,
    set: &TaskSet,
    certificate: &Certificate,
) -> Result<Valid, Invalid>
    requires suits { HasHomesFor protocol set.now }
    requires denominators { HasDenominators (certificate_seen certificate.now) }
    ensures judges { Judges result (source_of protocol set.now) (certificate_seen certificate.now) }
    ensures accepts { IsValid (source_of protocol set.now) (certificate_seen certificate.now) → IfErr result (λ e. e ≡ Invalid.Memory) }

    // What is Ok holds in every schedule of lawful jobs that keeps the protocol's rules.
    ensures sound { IfOk result (λ v. SoundUnder protocol set.now certificate.now.bounds.items v.values.items) }
{
    match protocol {
        Protocol::Mpcp => check_with(alloc, &Mpcp, set, certificate),
        Protocol::FmlpPlus => check_with(alloc, &FmlpPlus, set, certificate),
        Protocol::Dpcp => check_with(alloc, &Dpcp, set, certificate),
    }
}
