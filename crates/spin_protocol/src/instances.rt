//! The protocol as a judge, as a source of programs, and as a charged protocol.

ghost use Rattle.std.specs.Prelude.{refl};
ghost use Rattle.sporadic_model.proofs.Laws.{formed_of_accepted};
ghost use Rattle.schedule_model.specs.Protocols.{EachSetSuits};
ghost use Rattle.schedule_model.specs.BlockedTicks.{is_shared_interference};
ghost use Rattle.schedule_laws.proofs.SharedLaws.{shared_one_of_three};
ghost use Rattle.schedule_laws.proofs.TickAgreement.{shared_interference_agree};
ghost use Rattle.spin_rules.specs.SpinRules.{spin_rule, IsSpinChoice};
ghost use Rattle.spin_rules.proofs.SpinLaws.{spin_sound_row};
ghost use Rattle.spin_rules.proofs.SpinAgreement.{spin_rules_read, spin_choice_reads};
ghost use Rattle.spin_rules.proofs.SpinStretches.{spin_stays_lawful};
ghost use Rattle.spin_charging.specs.SpinCharges.{spin_charge};
ghost use Rattle.spin_charging.specs.SpinPrograms.{spin_columns, spin_source};
ghost use Rattle.spin_charging.proofs.SpinCharging.{spin_charge_blocked};
ghost use Rattle.spin_charging.proofs.SpinPlacement.{spin_charges_blocked};
ghost use Rattle.spin_charging.proofs.SpinStretches.{spin_stays_charged};
ghost use Rattle.spin_charging.proofs.SpinPrograms.{spin_is_program, spin_rises, spin_covered, cost_least, cost_most};
ghost use Rattle.spin_charging.proofs.SpinPoints.{spin_point, spin_interferes_within};

use crate::Spin;
use crate::charging::{Tick, charged_spin};
use crate::choosing::SpinChoice;
use crate::judging::SpinTests;
use charged_protocols::ChargedProtocol;
use fragments::Class;
use phase_machine::{Judge, Machine};
use program_form::{Program, SparseProgram};
use program_sources::ProgramSource;
use protocol_programs::{interference, keeps_jobs, limits_with, program_with, sparse_program_with};
use schedule_model::{BlockingProtocol, JobId, Row, Rule};
use shared_choosing::row_choice::choose_row;
use shared_rules::blocked_shared;
use shared_rules::rule_tests::first_failed;
use sporadic_model::{Protocol, TaskId, TaskSet};
use std::alloc::{AllocError, Global};

impl BlockingProtocol for Spin {
    ghost suits = { λ p. EachSetSuits };

    ghost keeps = { λ p. spin_rule };

    ghost chooses = { λ p. IsSpinChoice };

    ghost interferes = { λ p. is_shared_interference };

    ghost one_of_three = { λ p w t j suits. shared_one_of_three w t j };

    ghost sound_row = { λ p w t suits keeps. spin_sound_row w t keeps };

    ghost chosen_keeps = { λ p w t suits chosen. chosen.keeps };
}

impl Judge for Spin {
    fn judge(&self, machine: &Machine, row: &Row) -> Result<(), Rule> {
        match first_failed(&SpinTests, machine, row) {
            Some(rule) => Err(rule),
            None => Ok(()),
        }
    }

    fn choose(&self, machine: &Machine, row: &mut Row) {
        choose_row(&SpinChoice, machine, row);
    }

    fn blocked(&self, machine: &Machine, row: &Row, j: JobId) -> bool {
        blocked_shared(machine, row, j)
    }

    ghost rules_read = { λ p. spin_rules_read };

    ghost choice_reads = { λ p. spin_choice_reads };

    ghost ticks_read = { λ p. shared_interference_agree };

    ghost stays_lawful = { λ p. spin_stays_lawful };
}

impl ProgramSource for Spin {
    ghost serves = { λ p. EachSetSuits };

    ghost source = { λ p. spin_source };

    ghost covers = { λ p set i r c served here within. spin_covered set i r c within };

    ghost rises = { λ p set i r s served here most. spin_rises set i r s here most };

    ghost is_program = { λ p set i r served accepted here within. spin_is_program set i r accepted here within };

    ghost least = { λ p set h served here numbers. cost_least set h numbers };

    ghost most = { λ p set h served here numbers. cost_most set h };

    fn program(
        &self,
        alloc: Global,
        set: &TaskSet,
        i: TaskId,
        bounds: &[u64],
    ) -> Result<Program, AllocError> {
        program_with(alloc, self, set, i, bounds)
    }

    fn sparse_program(
        &self,
        alloc: Global,
        set: &TaskSet,
        i: TaskId,
        bounds: &[u64],
    ) -> Result<SparseProgram, AllocError> {
        sparse_program_with(alloc, self, set, i, bounds)
    }

    fn limits(
        &self,
        alloc: Global,
        set: &TaskSet,
        i: TaskId,
        bounds: &[u64],
    ) -> Result<Vec<u64>, AllocError> {
        limits_with(alloc, self, set, i, bounds)
    }

    fn keeps_limits(&self, set: &TaskSet, i: TaskId, earlier: &[u64], bounds: &[u64]) -> bool {
        keeps_jobs(set, i, earlier, bounds)
    }

    /// As under FMLP+, a job of a higher task interferes for up to its task's cost.
    fn interference(&self, set: &TaskSet, i: TaskId, bounds: &[u64]) -> u64 {
        interference(set, Protocol::FmlpPlus, i, bounds)
    }
}

impl ChargedProtocol for Spin {
    ghost columns_of = { λ p. spin_columns };

    ghost charges = { λ p. spin_charge };

    fn charged(&self, machine: &Machine, row: &Row, j: JobId) -> Option<(JobId, Class)> {
        charged_spin(&Tick { machine, row }, j)
    }

    ghost served = { λ p set suits. suits };

    ghost worth = { λ p set i bounds suits here. refl };

    ghost interferes_within = { λ p w n y suits keeps lawful. spin_interferes_within w n y keeps lawful };

    ghost charges_blocked = { λ p w n t j suits lawful keeps early blocked. spin_charges_blocked w n t j lawful keeps early blocked };

    ghost charges_only = { λ p. spin_charge_blocked };

    ghost stays_charged = { λ p. spin_stays_charged };

    ghost meets_rows = { λ p w bounds n j suits accepted lawful keeps listed ended.
        spin_point w bounds n j (formed_of_accepted w.set accepted) lawful keeps listed ended };
}
