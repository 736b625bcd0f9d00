ghost use Rattle.std.specs.Prelude.{◌≡◌, ℕ, ◌≤◌, true, List, IfOk};
ghost use Rattle.sporadic_model.specs.declared.limits.TheConstants.{MOST_TICKS};
ghost use Rattle.sporadic_model.specs.declared.ids.Protocol.{Protocol};
ghost use Rattle.sporadic_model.specs.Homes.{HasHomesFor};
ghost use Rattle.schedule_model.specs.JobDef.{JobsDef};
ghost use Rattle.schedule_model.specs.RowDef.{RunDef, trace_in, ticks_of};
ghost use Rattle.schedule_model.specs.Fitting.{is_fitting};
ghost use Rattle.schedule_model.specs.Keeping.{KeepsBefore, IsFirstUnlawful};
ghost use Rattle.schedule_model.specs.declared.rule.Rule.{Rule};
ghost use Rattle.schedule_model.specs.ByProtocol.{rules_of, choice_of};
ghost use Rattle.sim_engine.specs.Simulated.{IsSimulated};

use crate::simulating::simulate_with;
use dpcp_rules::Dpcp;
use fmlp_rules::FmlpPlus;
use mpcp_rules::Mpcp;
use schedule_model::{JobList, RowList};
use sporadic_model::Protocol;
use std::alloc::{AllocError, Global};

/// The schedule of [`simulate_with`], by the protocol's name. Under DPCP each resource of the set has a home.
pub fn simulate(
    alloc: Global,
    protocol: Protocol,
    jobs: &JobList,
    ticks: u64,
) -> Result<RowList, AllocError>
    requires suits { HasHomesFor protocol jobs.now.set }
    requires some { 1 ≤ ticks }
    requires most { ticks ≤ MOST_TICKS }
    ensures simulated { IfOk result (λ rows. IsSimulated (choice_of protocol) jobs.now ticks rows.runs) }
    ensures keeps { IfOk result (λ rows. KeepsBefore (rules_of protocol) (trace_in jobs.now rows.runs) ticks) }
    ensures unbroken { IfOk result (λ rows. (t : ℕ) (r : Rule)
        → IsFirstUnlawful (rules_of protocol) (trace_in jobs.now rows.runs) (ticks_of rows.runs) t r → ⊥) }
    ensures fits { IfOk result (λ rows. is_fitting rows jobs.now ≡ true) }
{
    match protocol {
        Protocol::Mpcp => simulate_with(alloc, &Mpcp, jobs, ticks),
        Protocol::FmlpPlus => simulate_with(alloc, &FmlpPlus, jobs, ticks),
        Protocol::Dpcp => simulate_with(alloc, &Dpcp, jobs, ticks),
    }
}

/// A protocol chooses one schedule for jobs and a number of ticks.
pub fn simulations_are_unique()
    ensures { (protocol : Protocol) (jobs : JobsDef) (n : ℕ) (a b : List RunDef)
        → IsSimulated (choice_of protocol) jobs n a → IsSimulated (choice_of protocol) jobs n b → a ≡ b }
{}
