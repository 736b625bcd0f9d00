//! Which variable enters the basis, and which row leaves it?

ghost use Rattle.std.specs.Prelude.{ℕ, ◌≤◌, List, length, Some};
ghost use Rattle.simplex.specs.Tables.{table_of, HasObjective};
ghost use Rattle.simplex.specs.Choice.{Enters, Comes, IsLaterRow, IsLeastThrough, Leaves};

use crate::row::SparseRow;
use fraction128::{Frac, Wide};
use program_form::SparseProgram;
use std::cmp::Ordering;

// The least variable whose objective cell is above 0.
pub(crate) fn entering(program: &SparseProgram, rows: &[SparseRow]) -> Option<usize>
    requires { HasObjective program.now rows.now }
    ensures { (basis : List ℕ) → Enters result program.now (table_of rows.now basis) }
{
    rows[program.rows() as usize].first_above()
}

// Whether the ratio g of a row whose basic variable is j comes before the ratio f of one whose basic variable is i.
fn comes_before(g: Frac, f: Frac, j: usize, i: usize) -> bool
    ensures { Comes result g f j i }
{
    match g.cmp(f) {
        Ordering::Less => true,
        Ordering::Equal => j < i,
        Ordering::Greater => false,
    }
}

// The row of the least ratio so far, or the next row.
fn better(r: usize, least: Frac, i: usize, ratio: Frac, basis: &[usize]) -> (usize, Frac)
    requires { IsLaterRow (Some (r, least)) i basis.now }
    ensures { IsLeastThrough basis.now (Some (r, least)) i ratio result }
{
    if comes_before(ratio, least, basis[i], basis[r]) {
        (i, ratio)
    } else {
        (r, least)
    }
}

// The same, if there may be no row so far.
fn better_or_first(
    best: Option<(usize, Frac)>,
    i: usize,
    ratio: Frac,
    basis: &[usize],
) -> (usize, Frac)
    requires { IsLaterRow best i basis.now }
    ensures { IsLeastThrough basis.now best i ratio result }
{
    match best {
        Some((r, least)) => better(r, least, i, ratio, basis),
        None => (i, ratio),
    }
}

// The row that leaves if the variable e enters, with its ratio. The limits are at `place`.
pub(crate) fn leaving(
    rows: &[SparseRow],
    basis: &[usize],
    e: usize,
    place: usize,
) -> Result<Option<(usize, Frac)>, Wide>
    requires { length basis.now ≤ length rows.now }
    ensures { Leaves result place (table_of rows.now basis.now) e (length basis.now) }
{
    let mut best = None;
    for i in 0..basis.len() {
        let cell = rows[i].cell(e);
        if cell.is_above_zero() {
            let ratio = rows[i].cell(place).div(cell)?;
            best = Some(better_or_first(best, i, ratio, basis));
        }
    }
    Ok(best)
}
