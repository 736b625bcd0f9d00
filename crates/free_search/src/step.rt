//! A step of the run, and its end.

ghost use Rattle.std.specs.Prelude.{ℕ, suc, OnOk};
ghost use Rattle.free_search.specs.Given.{CanStep, HasEnded};
ghost use Rattle.free_search.specs.Ends.{AnswersAtEnd};
ghost use Rattle.free_search.specs.Tables.{IsAfter};

use crate::choice::leaving;
use crate::end::finish;
use crate::found::{Found, SearchStop};
use crate::tableau::{Tableau, exchange};
use program_form::SparseProgram;
use std::alloc::{AllocError, Global};

/// The exchange of the run where the variable at place k enters. No program is unbounded, so some row leaves.
pub(crate) fn step(
    alloc: Global,
    program: &SparseProgram,
    tableau: &mut Tableau,
    k: usize,
) -> Result<(), AllocError>
    requires { CanStep program.now tableau.old k }
    ensures { OnOk result ((n : ℕ) → IsAfter program.now n tableau.old → IsAfter program.now (suc n) tableau.new) }
{
    // a proof knows that it is a program once it is read
    let _rows = program.rows();
    let r = match leaving(alloc, &tableau.rows, &tableau.basis, k)? {
        Some(r) => r,
        None => unreachable!(),
    };
    exchange(alloc, tableau, k, r)
}

/// The answer of the run at its last table, if it took so many units.
pub(crate) fn answer_at_end(
    alloc: Global,
    program: &SparseProgram,
    tableau: &Tableau,
    used: u64,
) -> Result<Found, SearchStop>
    requires { HasEnded program.now tableau.now used }
    ensures { AnswersAtEnd result program.now used }
{
    finish(alloc, program, tableau, used)
}
