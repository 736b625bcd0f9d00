//! One exchange of a table.

ghost use Rattle.std.specs.Prelude.{IfOk};
ghost use Rattle.whole_runs.specs.States.{HasPlaces};
ghost use Rattle.whole_runs.specs.Given.{CanBeDivided, CanTakeFromRow, CanTakeAll, CanExchange, CanJoinWord, CanJoinMarks};
ghost use Rattle.whole_runs.specs.Takings.{Touches, Divides, TakesFrom, TakesAll, ExchangesOrStops, AreRowBitsJoined, AreMarksJoined};
ghost use Rattle.whole_runs.specs.Stepping.{CanStep, Steps};

use crate::choice::{least_above, leaving, read_column};
use crate::reading::{coefficient_at, objective};
use crate::stands::Stand;
use crate::start::first_row;
use crate::stops::Halt;
use crate::tableau::{Lines, Tableau};
use program_form::SparseProgram;
use std::alloc::{AllocError, Global};
use whole_rows::{Entry, Pivot, RowMarks, WholeRow};

// Makes row i a row of its own, if no exchange has changed it. Mostly one has.
#[inline(always)]
fn touch(
    alloc: Global,
    program: &SparseProgram,
    row: &mut Option<WholeRow>,
    i: usize,
) -> Result<(), AllocError>
    requires { HasPlaces program.now i row.old }
    ensures { IfOk result (λ _. Touches program.now i row.old row.new) }
{
    if row.is_none() {
        *row = Some(first_row(alloc, program, i)?);
    }
    Ok(())
}

// Divides row r by its cell at k, and reads it as the pivot. If no exchange has changed it, it is made a row of its own for that.
fn divide_touched(
    alloc: Global,
    program: &SparseProgram,
    row: &mut Option<WholeRow>,
    r: usize,
    k: usize,
    pivot: &mut Pivot,
) -> Result<(), AllocError>
    requires { CanBeDivided program.now row.old r k }
    ensures { IfOk result (λ _. Divides program.now r row.old k row.new pivot.new) }
{
    touch(alloc, program, row, r)?;
    match row {
        Some(row) => {
            row.enter(alloc, k)?;
            pivot.read(row)?;
        }
        None => unreachable!(),
    }
    Ok(())
}

// The same. A row that no exchange has changed, and whose number at k is 1, isn't made. Divided by 1 its numbers stay, and the variable
// that leaves takes over place k with its own 1.
fn divide(
    alloc: Global,
    program: &SparseProgram,
    row: &mut Option<WholeRow>,
    r: usize,
    k: usize,
    pivot: &mut Pivot,
) -> Result<(), AllocError>
    requires { CanBeDivided program.now row.old r k }
    ensures { IfOk result (λ _. Divides program.now r row.old k row.new pivot.new) }
{
    if row.is_none() {
        let coefficients = program.coefficients(r);
        if coefficient_at(coefficients, k) == 1 {
            return pivot.read_coefficients(coefficients, program.limit(r as u32));
        }
    }
    divide_touched(alloc, program, row, r, k, pivot)
}

// Subtracts the pivot row from row i, times row i's cell at k. `Large` comes if the row is too large for that.
fn take_from(
    alloc: Global,
    program: &SparseProgram,
    row: &mut Option<WholeRow>,
    i: usize,
    k: usize,
    pivot: &Pivot,
) -> Result<(), Halt>
    requires { CanTakeFromRow program.now row.old i k pivot.now }
    ensures { TakesFrom result program.now i row.old k pivot.now row.new }
{
    touch(alloc, program, row, i)?;
    match row {
        Some(row) => row.take(alloc, k, pivot)?,
        None => unreachable!(),
    }
    Ok(())
}

// Subtracts the pivot row from each row but r, times that row's cell at k. Rows that the column doesn't list stay.
fn take_all(
    alloc: Global,
    program: &SparseProgram,
    rows: &mut [Option<WholeRow>],
    lines: &Lines,
    k: usize,
    r: usize,
) -> Result<(), Halt>
    requires { CanTakeAll program.now rows.old lines.now.column.items k lines.now.pivot }
    ensures { TakesAll result program.now rows.old rows.new lines.now.column.items k r lines.now.pivot }
{
    for j in 0..lines.column.len() {
        let cell = lines.column[j];
        if cell.place != r {
            take_from(
                alloc,
                program,
                &mut rows[cell.place],
                cell.place,
                k,
                &lines.pivot,
            )?;
        }
    }
    Ok(())
}

// Divides row r by its cell at k. Then subtracts it from each other row, times that row's cell there.
fn exchange(
    alloc: Global,
    program: &SparseProgram,
    rows: &mut [Option<WholeRow>],
    lines: &mut Lines,
    k: usize,
    r: usize,
) -> Result<(), Halt>
    requires { CanExchange program.now rows.old lines.old.column.items k r }
    ensures { ExchangesOrStops result program.now rows.old rows.new k r lines.new.pivot }
{
    divide(alloc, program, &mut rows[r], r, k, &mut lines.pivot)?;
    take_all(alloc, program, rows, lines, k, r)?;
    Ok(())
}

// For the place of each entry, marks the rows of word w whose bits are set here. The loop isn't inlined, since in one function with the run
// it would lack registers.
#[inline(never)]
fn join_word(marks: &mut RowMarks, entries: &[Entry], w: usize, bits: u64)
    requires { CanJoinWord marks.old entries.now w }
    ensures { AreRowBitsJoined marks.old marks.new entries.now w bits }
{
    for entry in entries {
        marks.join(entry.place, w, bits);
    }
}

// Marks at the place of each entry the rows that are marked at k.
fn join_marks(marks: &mut RowMarks, entries: &[Entry], k: usize)
    requires { CanJoinMarks marks.old entries.now k }
    ensures { AreMarksJoined marks.old marks.new entries.now k }
{
    for w in 0..marks.words() {
        let bits = marks.word(k, w);
        // mostly there are none
        if bits != 0 {
            join_word(marks, entries, w, bits);
        }
    }
}

// The exchange of the run if variable e, which is outside the basis at place k, enters. The answer says from which variable on to look for
// the next one that enters: none below it does. No program is unbounded, so in a run some row leaves.
pub(crate) fn step(
    alloc: Global,
    program: &SparseProgram,
    tableau: &mut Tableau,
    lines: &mut Lines,
    e: usize,
    k: usize,
) -> Result<usize, Halt>
    requires { CanStep program.now tableau.old e k }
    ensures { Steps result program.now e tableau.old tableau.new }
{
    read_column(
        &mut lines.column,
        program,
        &tableau.rows,
        &mut tableau.marks,
        k,
    )?;
    let r = match leaving(program, &tableau.rows, &tableau.basis, &lines.column) {
        Some(r) => r,
        None => unreachable!(),
    };
    exchange(alloc, program, &mut tableau.rows, lines, k, r)?;
    join_marks(&mut tableau.marks, lines.pivot.entries(), k);
    let left = tableau.basis[r];
    tableau.stands[e] = Stand::Basic(r);
    tableau.stands[left] = Stand::Outside(k);
    tableau.basis[r] = e;
    tableau.outside[k] = left;
    Ok(least_above(
        objective(program, &tableau.rows),
        &tableau.outside,
        lines.pivot.entries(),
        e,
    ))
}
