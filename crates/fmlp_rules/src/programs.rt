//! The protocol's programs, those of `protocol_programs`. So its sets can be analysed, and its certificates checked.

ghost use Rattle.sporadic_model.specs.declared.ids.Protocol.TheVariants as protocol;
ghost use Rattle.schedule_model.specs.Protocols.{EachSetSuits};
ghost use Rattle.program_laws.specs.Programs.{source_of};
ghost use Rattle.program_laws.proofs.WrittenPrograms.{written_program, programs_rise, interfering_least, interfering_most};
ghost use Rattle.program_laws.proofs.CoveredColumns.{covered};

use crate::FmlpPlus;
use program_form::{Program, SparseProgram};
use program_sources::ProgramSource;
use protocol_programs::{interference, keeps_jobs, limits, program, sparse_program};
use sporadic_model::{Protocol, TaskId, TaskSet};
use std::alloc::{AllocError, Global};

impl ProgramSource for FmlpPlus {
    ghost serves = { λ p. EachSetSuits };

    ghost source = { λ p. source_of protocol.FmlpPlus };

    ghost covers = { λ p set i r c served here within. covered protocol.FmlpPlus set i r c within };

    ghost rises = { λ p set i r s served here most. programs_rise protocol.FmlpPlus set i r s here most };

    ghost is_program = { λ p set i r served accepted here within. written_program protocol.FmlpPlus set i r accepted here within };

    ghost least = { λ p set h served here numbers. interfering_least protocol.FmlpPlus set h numbers };

    ghost most = { λ p set h served here numbers. interfering_most protocol.FmlpPlus set h numbers };

    fn program(
        &self,
        alloc: Global,
        set: &TaskSet,
        i: TaskId,
        bounds: &[u64],
    ) -> Result<Program, AllocError> {
        program(alloc, set, Protocol::FmlpPlus, i, bounds)
    }

    fn sparse_program(
        &self,
        alloc: Global,
        set: &TaskSet,
        i: TaskId,
        bounds: &[u64],
    ) -> Result<SparseProgram, AllocError> {
        sparse_program(alloc, set, Protocol::FmlpPlus, i, bounds)
    }

    fn limits(
        &self,
        alloc: Global,
        set: &TaskSet,
        i: TaskId,
        bounds: &[u64],
    ) -> Result<Vec<u64>, AllocError> {
        limits(alloc, set, Protocol::FmlpPlus, i, bounds)
    }

    fn keeps_limits(&self, set: &TaskSet, i: TaskId, earlier: &[u64], bounds: &[u64]) -> bool {
        keeps_jobs(set, i, earlier, bounds)
    }

    fn interference(&self, set: &TaskSet, i: TaskId, bounds: &[u64]) -> u64 {
        interference(set, Protocol::FmlpPlus, i, bounds)
    }
}
