//! FMLP+: requests are granted, and holders run, in the order of issue.
#![tactic(auto)]

mod programs;

ghost use Rattle.std.specs.Prelude.{◌≡◌, ◌<◌, length};
ghost use Rattle.schedule_model.specs.Ranks.{fmlp_plus};
ghost use Rattle.schedule_model.specs.Protocols.{shared_rule, EachSetSuits};
ghost use Rattle.schedule_model.specs.Chosen.{IsSharedChoice};
ghost use Rattle.schedule_model.specs.BlockedTicks.{is_shared_interference};
ghost use Rattle.schedule_laws.proofs.SharedLaws.{shared_one_of_three, shared_sound_row, shared_chosen_keeps};
ghost use Rattle.schedule_laws.proofs.SharedAgreement.{fmlp_plus_rules_read, fmlp_plus_choice_reads};
ghost use Rattle.schedule_laws.proofs.TickAgreement.{shared_interference_agree};
ghost use Rattle.schedule_laws.proofs.SharedStretches.{fmlp_plus_stays_lawful};
ghost use Rattle.fmlp_rules.specs.IssueOrder.{issue_now};
ghost use Rattle.fmlp_rules.specs.IssueOrderLaw.{issue_gives};

use phase_machine::{Judge, Machine, Order};
use schedule_model::{BlockingProtocol, JobId, Row, Rule};
use shared_choosing::choose_shared;
use shared_rules::{blocked_shared, judge_shared};

/// The FIFO multiprocessor locking protocol in its partitioned form.
#[derive(Clone, Copy, Debug, PartialEq, Eq)]
pub struct FmlpPlus;

impl Order for FmlpPlus {
    ghost ranks = { λ p. fmlp_plus };

    ghost grant = { λ p. issue_now };

    ghost run = { λ p. issue_now };

    /// The tick at which the job's request was issued.
    fn grant_of(&self, machine: &Machine, j: JobId) -> u64 {
        issue_tick(machine, j)
    }

    /// The same tick.
    fn run_of(&self, machine: &Machine, j: JobId) -> u64 {
        self.grant_of(machine, j)
    }

    ghost gives = { λ p. issue_gives };
}

/// The tick at which the job's request was issued, and 0 if the job is in no request.
fn issue_tick(machine: &Machine, j: JobId) -> u64
    requires { j.0 < length machine.now.list.jobs }
    ensures { result ≡ issue_now machine.now j.0 }
{
    match machine.issued(j) {
        Some(tick) => tick,
        None => 0,
    }
}

impl BlockingProtocol for FmlpPlus {
    ghost suits = { λ p. EachSetSuits };

    ghost keeps = { λ p. shared_rule fmlp_plus };

    ghost chooses = { λ p. IsSharedChoice fmlp_plus };

    ghost interferes = { λ p. is_shared_interference };

    ghost one_of_three = { λ p w t j suits. shared_one_of_three w t j };

    ghost sound_row = { λ p w t suits keeps. shared_sound_row fmlp_plus w t keeps };

    ghost chosen_keeps = { λ p w t suits chosen. shared_chosen_keeps fmlp_plus w t chosen };
}

impl Judge for FmlpPlus {
    fn judge(&self, machine: &Machine, row: &Row) -> Result<(), Rule> {
        judge_shared(self, machine, row)
    }

    fn choose(&self, machine: &Machine, row: &mut Row) {
        choose_shared(self, machine, row);
    }

    fn blocked(&self, machine: &Machine, row: &Row, j: JobId) -> bool {
        blocked_shared(machine, row, j)
    }

    ghost rules_read = { λ p. fmlp_plus_rules_read };

    ghost choice_reads = { λ p. fmlp_plus_choice_reads };

    ghost ticks_read = { λ p. shared_interference_agree };

    ghost stays_lawful = { λ p. fmlp_plus_stays_lawful };
}
