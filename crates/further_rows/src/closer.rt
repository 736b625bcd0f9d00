//! A plain protocol with closer programs, as a protocol: it has the rules, columns and charges of the plain one.

ghost use Rattle.std.specs.Prelude.{◌≤◌, map};
ghost use Rattle.std.proofs.Common.{◌∙◌, ap, sym, subst};
ghost use Rattle.program_form.specs.Program.{IsProgram};
ghost use Rattle.number_laws.specs.Tests.{count_below};
ghost use Rattle.program_sources.specs.Recurrence.{SourceDef};
ghost use Rattle.sporadic_model.specs.SetDef.{task_at};
ghost use Rattle.schedule_model.specs.Activity.{task_of};
ghost use Rattle.charge_laws.specs.Interferers.{interferes_with_some};
ghost use Rattle.sporadic_model.proofs.Laws.{formed_of_accepted};
ghost use Rattle.program_laws.specs.Programs.{cost_of};

use crate::rows::FurtherRows;
use blocking_columns::Class;
use charged_protocols::ChargedProtocol;
use phase_machine::{Judge, Machine};
use program_form::{Program, SparseProgram};
use program_sources::ProgramSource;
use protocol_programs::{limits_with, program_with, sparse_program_with};
use schedule_model::{BlockingProtocol, JobId, Row, Rule};
use sporadic_model::{TaskId, TaskSet};
use std::alloc::{AllocError, Global};

/// A plain protocol, analysed more closely: its rules, columns and charges, and programs with further rows.
#[derive(Clone, Copy, Debug, PartialEq, Eq)]
pub struct Closer<P, R> {
    /// Whose rules, columns and charges it has.
    pub plain: P,
    /// What its programs are made of.
    pub rows: R,
}

impl<P: BlockingProtocol, R> BlockingProtocol for Closer<P, R> {
    ghost suits = { λ c. P.suits c.plain };

    ghost keeps = { λ c. P.keeps c.plain };

    ghost chooses = { λ c. P.chooses c.plain };

    ghost interferes = { λ c. P.interferes c.plain };

    ghost one_of_three = { λ c. P.one_of_three c.plain };

    ghost sound_row = { λ c. P.sound_row c.plain };

    ghost chosen_keeps = { λ c. P.chosen_keeps c.plain };
}

impl<P: Judge, R> Judge for Closer<P, R> {
    fn judge(&self, machine: &Machine, row: &Row) -> Result<(), Rule> {
        self.plain.judge(machine, row)
    }

    fn choose(&self, machine: &Machine, row: &mut Row) {
        self.plain.choose(machine, row);
    }

    fn blocked(&self, machine: &Machine, row: &Row, j: JobId) -> bool {
        self.plain.blocked(machine, row, j)
    }

    ghost rules_read = { λ c. P.rules_read c.plain };

    ghost choice_reads = { λ c. P.choice_reads c.plain };

    ghost ticks_read = { λ c. P.ticks_read c.plain };

    ghost stays_lawful = { λ c. P.stays_lawful c.plain };
}

impl<P: ChargedProtocol, R: FurtherRows<P>> ProgramSource for Closer<P, R> {
    ghost serves = { λ c. P.suits c.plain };

    ghost source = { λ c. R.source c.rows };

    ghost covers = { λ c. R.covers c.rows c.plain };

    ghost rises = { λ c. R.rises c.rows c.plain };

    ghost is_program = { λ c set i bounds suits accepted here within. subst (λ (f : SourceDef). IsProgram (f.program i bounds))
        (R.further c.rows c.plain set) (R.is_program c.rows set i bounds (R.served c.rows c.plain set suits) accepted here within) };

    ghost least = { λ c set h suits here numbers. subst (λ (f : SourceDef). 1 ≤ f.interfering h)
        (R.further c.rows c.plain set) (P.least c.plain set h (P.served c.plain set suits) here numbers) };

    ghost most = { λ c set h suits here numbers. subst (λ (f : SourceDef). f.interfering h ≤ (task_at set h).cost)
        (R.further c.rows c.plain set) (P.most c.plain set h (P.served c.plain set suits) here numbers) };

    fn program(
        &self,
        alloc: Global,
        set: &TaskSet,
        i: TaskId,
        bounds: &[u64],
    ) -> Result<Program, AllocError> {
        program_with(alloc, &self.rows, set, i, bounds)
    }

    fn sparse_program(
        &self,
        alloc: Global,
        set: &TaskSet,
        i: TaskId,
        bounds: &[u64],
    ) -> Result<SparseProgram, AllocError> {
        sparse_program_with(alloc, &self.rows, set, i, bounds)
    }

    fn limits(
        &self,
        alloc: Global,
        set: &TaskSet,
        i: TaskId,
        bounds: &[u64],
    ) -> Result<Vec<u64>, AllocError> {
        limits_with(alloc, &self.rows, set, i, bounds)
    }

    fn keeps_limits(&self, set: &TaskSet, i: TaskId, earlier: &[u64], bounds: &[u64]) -> bool {
        self.rows.keeps_limits(set, i, earlier, bounds)
    }

    fn interference(&self, set: &TaskSet, i: TaskId, bounds: &[u64]) -> u64 {
        self.plain.interference(set, i, bounds)
    }
}

impl<P: ChargedProtocol, R: FurtherRows<P>> ChargedProtocol for Closer<P, R> {
    ghost columns_of = { λ c. P.columns_of c.plain };

    ghost charges = { λ c. P.charges c.plain };

    fn charged(&self, machine: &Machine, row: &Row, j: JobId) -> Option<(JobId, Class)> {
        self.plain.charged(machine, row, j)
    }

    ghost served = { λ c set suits. suits };

    ghost worth = { λ c set i bounds suits here. ap (λ (f : SourceDef). (f.program i bounds).costs) (sym (R.further c.rows c.plain set))
        ∙ ap (map (cost_of set)) (R.plain_columns c.rows c.plain set i) };

    ghost interferes_within = { λ c w n y suits keeps lawful.
        subst (λ (f : SourceDef). count_below n (λ t. interferes_with_some (P.interferes c.plain) w t y) ≤ f.interfering (task_of w y))
        (R.further c.rows c.plain w.set) (P.interferes_within c.plain w n y suits keeps lawful) };

    ghost charges_blocked = { λ c. P.charges_blocked c.plain };

    ghost charges_only = { λ c. P.charges_only c.plain };

    ghost stays_charged = { λ c. P.stays_charged c.plain };

    ghost meets_rows = { λ c w bounds n j suits accepted lawful keeps listed ended. R.meets_rows c.rows c.plain w bounds n j suits
        (record { formed = formed_of_accepted w.set accepted; lawful = lawful; listed = listed; ended = ended }) keeps };
}
