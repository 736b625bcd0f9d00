use crate::{
    ProgramParts, add_rows, interference, keeps_jobs, limits_with, program_with,
    sparse_program_with,
};
use fragments::{Fragment, RowTaker, columns_stand_in_order, fragments};
use program_form::{Program, SparseProgram};
use program_sources::ProgramSource;
use sporadic_model::{Protocol, TaskId, TaskSet};
use std::alloc::{AllocError, Global};

/// The programs of MPCP, FMLP+ or DPCP, as a source for the analysis.
#[derive(Clone, Copy, Debug, PartialEq, Eq)]
pub struct Written(pub Protocol);

impl ProgramParts for Written {
    ghost use Rattle.sporadic_model.specs.Homes.{HasHomesFor};
    ghost use Rattle.blocking_columns.specs.Columns.{columns_of};
    ghost use Rattle.program_laws.specs.Programs.{rows_of};
    ghost use Rattle.program_laws.proofs.WrittenPrograms.{written_program};

    ghost serves = { λ p set. HasHomesFor p.0 set };

    ghost columns = { λ p. columns_of p.0 };

    ghost rows = { λ p. rows_of p.0 };

    fn take_rows<T: RowTaker>(
        &self,
        alloc: Global,
        taker: &mut T,
        set: &TaskSet,
        i: TaskId,
        bounds: &[u64],
    ) -> Result<Vec<Fragment>, AllocError> {
        let columns = fragments(alloc, set, self.0, i)?;
        columns_stand_in_order(set, self.0, i, &columns);
        add_rows(alloc, taker, set, self.0, i, bounds, &columns)?;
        Ok(columns)
    }

    ghost is_program = { λ p set i r served accepted here within. written_program p.0 set i r accepted here within };
}

impl ProgramSource for Written {
    ghost use Rattle.sporadic_model.specs.Homes.{HasHomesFor};
    ghost use Rattle.program_laws.specs.Programs.{source_of};
    ghost use Rattle.program_laws.proofs.WrittenPrograms.{written_program, programs_rise, interfering_least, interfering_most};
    ghost use Rattle.program_laws.proofs.CoveredColumns.{covered};

    ghost serves = { λ p set. HasHomesFor p.0 set };

    ghost source = { λ p. source_of p.0 };

    ghost covers = { λ p set i r c served here within. covered p.0 set i r c within };

    ghost rises = { λ p set i r s served here most. programs_rise p.0 set i r s here most };

    ghost is_program = { λ p set i r served accepted here within. written_program p.0 set i r accepted here within };

    ghost least = { λ p set h served here numbers. interfering_least p.0 set h numbers };

    ghost most = { λ p set h served here numbers. interfering_most p.0 set h numbers };

    fn program(
        &self,
        alloc: Global,
        set: &TaskSet,
        i: TaskId,
        bounds: &[u64],
    ) -> Result<Program, AllocError> {
        program_with(alloc, self, set, i, bounds)
    }

    fn sparse_program(
        &self,
        alloc: Global,
        set: &TaskSet,
        i: TaskId,
        bounds: &[u64],
    ) -> Result<SparseProgram, AllocError> {
        sparse_program_with(alloc, self, set, i, bounds)
    }

    fn limits(
        &self,
        alloc: Global,
        set: &TaskSet,
        i: TaskId,
        bounds: &[u64],
    ) -> Result<Vec<u64>, AllocError> {
        limits_with(alloc, self, set, i, bounds)
    }

    fn keeps_limits(&self, set: &TaskSet, i: TaskId, earlier: &[u64], bounds: &[u64]) -> bool {
        keeps_jobs(set, i, earlier, bounds)
    }

    fn interference(&self, set: &TaskSet, i: TaskId, bounds: &[u64]) -> u64 {
        interference(set, self.0, i, bounds)
    }
}
