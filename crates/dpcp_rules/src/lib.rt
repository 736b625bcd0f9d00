//! DPCP. Requests run on their resource's home. A request is granted to the highest task that waits there, if it is higher than every
//! ceiling that is kept there. Holders run by base priority.
#![tactic(auto)]

pub mod blocking;
mod choosing;
pub mod judging;
mod laws;
pub mod lookup;
mod programs;
mod tables;

ghost use Rattle.sporadic_model.specs.Homes.{EachHasHome};
ghost use Rattle.schedule_model.specs.Protocols.{dpcp_rule};
ghost use Rattle.schedule_model.specs.Chosen.{IsDpcpChoice};
ghost use Rattle.schedule_model.specs.BlockedTicks.{is_dpcp_interference};
ghost use Rattle.schedule_laws.proofs.DpcpLaws.{dpcp_one_of_three, dpcp_sound_row, dpcp_chosen_keeps};
ghost use Rattle.schedule_laws.proofs.DpcpAgreement.{dpcp_rules_read, dpcp_choice_reads};
ghost use Rattle.schedule_laws.proofs.TickAgreement.{dpcp_interference_agree};
ghost use Rattle.schedule_laws.proofs.DpcpStretches.{dpcp_stays_lawful};
ghost use Rattle.dpcp_rules.specs.TaskOrder.{task_ranks, task_now, tasks_give};

pub use laws::each_schedule_has_a_next_row;
use phase_machine::{Judge, Machine, Order};
use schedule_model::{BlockingProtocol, JobId, Row, Rule};

/// The distributed priority ceiling protocol. It suits task sets in which each resource has a home.
#[derive(Clone, Copy, Debug, PartialEq, Eq)]
pub struct Dpcp;

impl Order for Dpcp {
    ghost ranks = { λ p. task_ranks };

    ghost grant = { λ p. task_now };

    ghost run = { λ p. task_now };

    /// The job's task.
    fn grant_of(&self, machine: &Machine, j: JobId) -> u64 {
        u64::from(machine.jobs().job(j).task.0)
    }

    /// The same task.
    fn run_of(&self, machine: &Machine, j: JobId) -> u64 {
        self.grant_of(machine, j)
    }

    ghost gives = { λ p. tasks_give };
}

impl BlockingProtocol for Dpcp {
    ghost suits = { λ p. EachHasHome };

    ghost keeps = { λ p. dpcp_rule };

    ghost chooses = { λ p. IsDpcpChoice };

    ghost interferes = { λ p. is_dpcp_interference };

    ghost one_of_three = { λ p w t j suits. dpcp_one_of_three w t j };

    ghost sound_row = { λ p w t suits keeps. dpcp_sound_row w t keeps };

    ghost chosen_keeps = { λ p w t suits chosen. dpcp_chosen_keeps w t chosen };
}

impl Judge for Dpcp {
    fn judge(&self, machine: &Machine, row: &Row) -> Result<(), Rule> {
        judging::judge(machine, row)
    }

    fn choose(&self, machine: &Machine, row: &mut Row) {
        choosing::choose(machine, row);
    }

    fn blocked(&self, machine: &Machine, row: &Row, j: JobId) -> bool {
        blocking::blocked(machine, row, j)
    }

    ghost rules_read = { λ p. dpcp_rules_read };

    ghost choice_reads = { λ p. dpcp_choice_reads };

    ghost ticks_read = { λ p. dpcp_interference_agree };

    ghost stays_lawful = { λ p. dpcp_stays_lawful };
}
