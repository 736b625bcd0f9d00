//! Certificates of bounds that are at most every fitting vector. None is answered without its check.

ghost use Rattle.std.specs.Prelude.{◌≡◌, ◌≤◌, map, IfOk, IfErr, IsTrue};
ghost use Rattle.program_form.specs.Certificate.{dual_seen, certificate_seen};
ghost use Rattle.program_sources.specs.Recurrence.{source_at};
ghost use Rattle.response_fixpoint.specs.Answers.{IsSmallDual};
ghost use Rattle.settling.specs.Rising.{IsFixed, IsLastFailure, ProvesLeast, StopsFor, StopsLost};
ghost use Rattle.settling.specs.declared.finding.Points.TheVariants.{Exact};

use crate::answer::SettleStop;
use crate::reached::Reached;
use dual_check::{Invalid, judge};
use free_search::what_is_found_is_best;
use least_laws::a_certificate_below_all_fitting_is_least;
use program_form::{Certificate, Dual, MOST_NUMBER};
use program_sources::ProgramSource;
use sporadic_model::TaskSet;
use std::alloc::{AllocError, Global};

/// Does the dual have a denominator of at least 1, and no number above 2^63 - 1?
pub(crate) fn is_small(dual: &Dual) -> bool
    ensures positive { IsTrue result → 1 ≤ dual.now.den }
    ensures small { IsTrue result → IsSmallDual (dual_seen dual.now) }
{
    dual.den >= 1 && dual.den <= MOST_NUMBER && dual.num.iter().all(|n| *n <= MOST_NUMBER)
}

/// The duals that were found.
fn duals_of(alloc: Global, reached: Vec<Reached>) -> Result<Vec<Dual>, AllocError>
    ensures { IfOk result (λ v. v.items ≡ map (λ r. r.dual) reached.items) }
{
    let mut duals = Vec::new(alloc);
    for last in reached {
        let Reached { dual, .. } = last;
        duals.push(dual)?;
    }
    Ok(duals)
}

/// Why settling stops if a certificate isn't valid. Bounds in range, and duals that cover, fail no test but the last.
fn stop_for(invalid: Invalid) -> SettleStop
    requires { IsLastFailure invalid }
    ensures { StopsFor invalid result }
{
    match invalid {
        Invalid::Small(task) => SettleStop::Wide(task),
        Invalid::Memory => SettleStop::Memory,
        Invalid::Size => unreachable!(),
        Invalid::Bound(_) => unreachable!(),
        Invalid::DualSize(_) => unreachable!(),
        Invalid::Cover(..) => unreachable!(),
    }
}

/// The certificate of bounds that don't rise any more, with the duals that were found. It is judged. It is valid, unless a dual loses the
/// whole part of its optimum.
pub(crate) fn certificate_of<P: ProgramSource>(
    alloc: Global,
    set: &TaskSet,
    protocol: &P,
    bounds: Vec<u64>,
    reached: Vec<Reached>,
    allowance: u64,
) -> Result<Certificate, SettleStop>
    requires serves { P.serves protocol.now set.now }
    requires fixed { IsFixed Exact (source_at (P.source protocol.now) set.now) allowance bounds.items reached.items }
    ensures proved { IfOk result (λ c. ProvesLeast (source_at (P.source protocol.now) set.now) bounds.items reached.items (certificate_seen c)) }
    ensures lost { IfErr result (StopsLost (source_at (P.source protocol.now) set.now) bounds.items) }
{
    what_is_found_is_best();
    a_certificate_below_all_fitting_is_least();
    let duals = duals_of(alloc, reached)?;
    let certificate = Certificate { bounds, duals };
    match judge(alloc, protocol, set, &certificate) {
        Ok(_) => Ok(certificate),
        Err(invalid) => Err(stop_for(invalid)),
    }
}
