//! MPCP: requests are granted to the highest task, and holders run by the ceilings of the resources that they hold.
#![tactic(auto)]

mod programs;

ghost use Rattle.std.specs.Prelude.{◌≡◌, ◌<◌, length, unwrap_or};
ghost use Rattle.sporadic_model.specs.Users.{remote_ceiling_of};
ghost use Rattle.schedule_model.specs.Ranks.{mpcp};
ghost use Rattle.schedule_model.specs.Protocols.{shared_rule, EachSetSuits};
ghost use Rattle.schedule_model.specs.Chosen.{IsSharedChoice};
ghost use Rattle.schedule_model.specs.BlockedTicks.{is_shared_interference};
ghost use Rattle.schedule_laws.proofs.SharedLaws.{shared_one_of_three, shared_sound_row, shared_chosen_keeps};
ghost use Rattle.schedule_laws.proofs.SharedAgreement.{mpcp_rules_read, mpcp_choice_reads};
ghost use Rattle.schedule_laws.proofs.TickAgreement.{shared_interference_agree};
ghost use Rattle.schedule_laws.proofs.SharedStretches.{mpcp_stays_lawful};
ghost use Rattle.mpcp_rules.specs.CeilingOrder.{task_now, boost_now};
ghost use Rattle.mpcp_rules.specs.CeilingOrderLaw.{ceilings_give};

use phase_machine::{Judge, Machine, Order, Phase};
use schedule_model::{BlockingProtocol, JobId, Row, Rule};
use shared_choosing::choose_shared;
use shared_rules::{blocked_shared, judge_shared};
use sporadic_model::{ResourceId, TaskSet};

/// The multiprocessor priority ceiling protocol.
#[derive(Clone, Copy, Debug, PartialEq, Eq)]
pub struct Mpcp;

impl Order for Mpcp {
    ghost ranks = { λ p. mpcp };

    ghost grant = { λ p. task_now };

    ghost run = { λ p. boost_now };

    /// The job's task.
    fn grant_of(&self, machine: &Machine, j: JobId) -> u64 {
        u64::from(machine.jobs().job(j).task.0)
    }

    /// The ceiling of the resource that the job requests, as its processor sees it.
    fn run_of(&self, machine: &Machine, j: JobId) -> u64 {
        let set = machine.jobs().set();
        match machine.phase(j) {
            Phase::Asking(_, q) => boost(set, q, set.processor(machine.jobs().job(j).task)),
            Phase::Local => u64::from(set.tasks()),
            Phase::Finished => u64::from(set.tasks()),
        }
    }

    ghost gives = { λ p. ceilings_give };
}

/// The ceiling of the resource as processor `k` sees it, and the number of tasks if no task uses it.
fn boost(set: &TaskSet, q: ResourceId, k: u32) -> u64
    requires { q.0 < length set.now.resources }
    ensures { result ≡ unwrap_or (remote_ceiling_of set.now q.0 k) (length set.now.tasks) }
{
    match set.boost(q, k) {
        Some(x) => u64::from(x.0),
        None => u64::from(set.tasks()),
    }
}

impl BlockingProtocol for Mpcp {
    ghost suits = { λ p. EachSetSuits };

    ghost keeps = { λ p. shared_rule mpcp };

    ghost chooses = { λ p. IsSharedChoice mpcp };

    ghost interferes = { λ p. is_shared_interference };

    ghost one_of_three = { λ p w t j suits. shared_one_of_three w t j };

    ghost sound_row = { λ p w t suits keeps. shared_sound_row mpcp w t keeps };

    ghost chosen_keeps = { λ p w t suits chosen. shared_chosen_keeps mpcp w t chosen };
}

impl Judge for Mpcp {
    fn judge(&self, machine: &Machine, row: &Row) -> Result<(), Rule> {
        judge_shared(self, machine, row)
    }

    fn choose(&self, machine: &Machine, row: &mut Row) {
        choose_shared(self, machine, row);
    }

    fn blocked(&self, machine: &Machine, row: &Row, j: JobId) -> bool {
        blocked_shared(machine, row, j)
    }

    ghost rules_read = { λ p. mpcp_rules_read };

    ghost choice_reads = { λ p. mpcp_choice_reads };

    ghost ticks_read = { λ p. shared_interference_agree };

    ghost stays_lawful = { λ p. mpcp_stays_lawful };
}
