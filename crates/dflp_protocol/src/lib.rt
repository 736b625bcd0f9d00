//! The distributed FIFO protocol. A request runs on its resource's home. Requests are granted, and run there, in the order of issue.
#![tactic(auto)]

mod charges;
mod choosing;
mod judging;
mod laws;
mod programs;
mod queues;

ghost use Rattle.sporadic_model.specs.Homes.{EachHasHome};
ghost use Rattle.schedule_model.specs.BlockedTicks.{is_dpcp_interference};
ghost use Rattle.schedule_laws.proofs.DpcpLaws.{dpcp_one_of_three};
ghost use Rattle.schedule_laws.proofs.TickAgreement.{dpcp_interference_agree};
ghost use Rattle.dflp_laws.specs.Rules.{dflp_rule, IsDflpChoice};
ghost use Rattle.dflp_laws.proofs.Laws.{dflp_sound_row, dflp_chosen_keeps};
ghost use Rattle.dflp_laws.proofs.Agreement.{dflp_rules_read, dflp_choice_reads};
ghost use Rattle.dflp_laws.proofs.Stretches.{dflp_stays_lawful};

use dpcp_rules::blocking::blocked;
pub use laws::{each_schedule_has_a_next_row, programs_are_small};
use phase_machine::{Judge, Machine};
use schedule_model::{BlockingProtocol, JobId, Row, Rule};

/// The distributed FIFO protocol. It suits task sets in which each resource has a home.
#[derive(Clone, Copy, Debug, PartialEq, Eq)]
pub struct Dflp;

impl BlockingProtocol for Dflp {
    ghost suits = { λ p. EachHasHome };

    ghost keeps = { λ p. dflp_rule };

    ghost chooses = { λ p. IsDflpChoice };

    ghost interferes = { λ p. is_dpcp_interference };

    ghost one_of_three = { λ p w t j suits. dpcp_one_of_three w t j };

    ghost sound_row = { λ p w t suits keeps. dflp_sound_row w t keeps };

    ghost chosen_keeps = { λ p w t suits chosen. dflp_chosen_keeps w t chosen };
}

impl Judge for Dflp {
    fn judge(&self, machine: &Machine, row: &Row) -> Result<(), Rule> {
        judging::judge(machine, row)
    }

    fn choose(&self, machine: &Machine, row: &mut Row) {
        choosing::choose(machine, row);
    }

    fn blocked(&self, machine: &Machine, row: &Row, j: JobId) -> bool {
        blocked(machine, row, j)
    }

    ghost rules_read = { λ p. dflp_rules_read };

    ghost choice_reads = { λ p. dflp_choice_reads };

    ghost ticks_read = { λ p. dpcp_interference_agree };

    ghost stays_lawful = { λ p. dflp_stays_lawful };
}
