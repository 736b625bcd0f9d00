//! Which variable enters the basis, and which row leaves it? The loops of `first_above`, `least_above` and `read_column` aren't inlined,
//! since in one function with the run they would lack registers.

ghost use Rattle.std.specs.Prelude.{◌≡◌, ℕ, ◌<◌, List, length, Some, ◌*ℤ◌};
ghost use Rattle.whole_runs.specs.States.{stand_at, HasSize, AreStands};
ghost use Rattle.whole_runs.specs.Given.{IsRowOf, HavePlaces, IsNumberAt, CanReadColumn, HaveBasics, IsLaterRatio, HasColumn};
ghost use Rattle.whole_runs.specs.Columns.{AreMarked};
ghost use Rattle.whole_runs.specs.Exchanges.{Enters};
ghost use Rattle.whole_runs.specs.Choice.{AreNoneAbove, IsFrom, IsFirstAbove, IsAtMostAbove, ReadsRatio, Comes};
ghost use Rattle.whole_runs.specs.Leaving.{ReadsColumn, IsLeastThrough, IsLeastRatio, LeavesFor};
ghost use Rattle.whole_runs.specs.declared.stands.Stand.TheVariants.{Outside};

use crate::reading::{limit_of, num_of, objective};
use crate::stands::Stand;
use program_form::SparseProgram;
use std::alloc::AllocError;
use std::cmp::Ordering;
use whole_rows::{Entry, RowMarks, WholeRow, push_num};

// The first variable outside the basis whose number in the row is above zero, with its place. None below `from` has such a number.
#[inline(never)]
fn first_above(row: &WholeRow, stands: &[Stand], from: usize) -> Option<(usize, usize)>
    requires places { (v k : ℕ) → v < length stands.now → stand_at stands.now v ≡ Outside k → k < length row.now.nums }
    requires earlier { AreNoneAbove row.now stands.now from }
    ensures { IsFirstAbove result row.now stands.now }
{
    for v in from..stands.len() {
        if let Stand::Outside(k) = stands[v] {
            if row.num(k) > 0 {
                return Some((v, k));
            }
        }
    }
    None
}

// The same for the objective row: the variable that enters.
pub(crate) fn entering(
    program: &SparseProgram,
    rows: &[Option<WholeRow>],
    stands: &[Stand],
    from: usize,
) -> Option<(usize, usize)>
    requires table { (basis : List ℕ) × HasSize program.now rows.now basis stands.now × AreStands program.now basis stands.now }
    requires earlier { IsFrom program.now rows.now stands.now from }
    ensures { (basis : List ℕ) → Enters result program.now rows.now basis stands.now }
{
    first_above(objective(program, rows), stands, from)
}

// The least of these: a variable, and the variables at the places of the entries whose number in the row is above zero.
#[inline(never)]
pub(crate) fn least_above(
    row: &WholeRow,
    outside: &[usize],
    entries: &[Entry],
    first: usize,
) -> usize
    requires { HavePlaces row.now outside.now entries.now }
    ensures { IsAtMostAbove row.now outside.now entries.now first result }
{
    let mut least = first;
    for entry in entries {
        if row.num(entry.place) > 0 {
            least = least.min(outside[entry.place]);
        }
    }
    least
}

// Removes the mark of row i at place k if the row's number there is zero. So the row isn't looked at again.
fn unmark_zero(
    marks: &mut RowMarks,
    program: &SparseProgram,
    rows: &[Option<WholeRow>],
    k: usize,
    i: usize,
    num: i64,
)
    requires number { IsNumberAt program.now rows.now i k num }
    requires marked { AreMarked program.now rows.now marks.old }
    ensures { AreMarked program.now rows.now marks.new }
{
    if num == 0 {
        marks.unmark(k, i);
    }
}

// Reads the nonzero numbers at place k, in order of their rows.
#[inline(never)]
pub(crate) fn read_column(
    column: &mut Vec<Entry>,
    program: &SparseProgram,
    rows: &[Option<WholeRow>],
    marks: &mut RowMarks,
    k: usize,
) -> Result<(), AllocError>
    requires { CanReadColumn program.now rows.now marks.old k }
    ensures { ReadsColumn result program.now rows.now k column.new.items marks.new }
{
    column.clear();
    let mut i = marks.next(k, 0, rows.len());
    while i < rows.len() {
        let num = num_of(program, rows, i, k);
        unmark_zero(marks, program, rows, k, i, num);
        push_num(column, i, num)?;
        i = marks.next(k, i + 1, rows.len());
    }
    Ok(())
}

// The ratio of a row: its limit over its number in the column, which is above zero. The denominator of both is the row's.
#[derive(Clone, Copy)]
struct Ratio {
    row: usize,
    limit: i64,
    num: i64,
}

// The ratio of the row of a cell; none if the cell's number isn't above zero.
fn ratio_of(program: &SparseProgram, rows: &[Option<WholeRow>], cell: Entry) -> Option<Ratio>
    requires { IsRowOf program.now rows.now cell.place }
    ensures { ReadsRatio result program.now rows.now cell }
{
    if cell.num <= 0 {
        return None;
    }
    Some(Ratio {
        row: cell.place,
        limit: limit_of(program, rows, cell.place),
        num: cell.num,
    })
}

// The limit of a ratio times the number of another, which 128 bits hold.
fn cross(a: Ratio, b: Ratio) -> i128
    ensures { result ≡ a.limit *ℤ b.num }
{
    a.limit as i128 * b.num as i128
}

// Whether a ratio comes before another.
fn comes_before(next: Ratio, best: Ratio, basis: &[usize]) -> bool
    requires { HaveBasics next best basis.now }
    ensures { Comes result next best basis.now }
{
    match cross(next, best).cmp(&cross(best, next)) {
        Ordering::Less => true,
        Ordering::Equal => basis[next.row] < basis[best.row],
        Ordering::Greater => false,
    }
}

// The lesser of the least ratio so far and that of a later row.
fn better(best: Ratio, next: Ratio, basis: &[usize]) -> Ratio
    requires { IsLaterRatio basis.now (Some best) next }
    ensures { IsLeastThrough basis.now (Some best) next result }
{
    if comes_before(next, best, basis) {
        next
    } else {
        best
    }
}

// The same, if there may be no ratio so far.
fn better_or_first(best: Option<Ratio>, next: Ratio, basis: &[usize]) -> Ratio
    requires { IsLaterRatio basis.now best next }
    ensures { IsLeastThrough basis.now best next result }
{
    match best {
        Some(best) => better(best, next, basis),
        None => next,
    }
}

// The least ratio of the column's rows. The objective row, which is the last, has none.
fn least_ratio(
    program: &SparseProgram,
    rows: &[Option<WholeRow>],
    basis: &[usize],
    column: &[Entry],
) -> Option<Ratio>
    requires { HasColumn program.now rows.now basis.now column.now }
    ensures { IsLeastRatio result program.now rows.now basis.now column.now }
{
    let mut best = None;
    for j in 0..column.len() {
        let cell = column[j];
        if cell.place >= basis.len() {
            return best;
        }
        if let Some(ratio) = ratio_of(program, rows, cell) {
            best = Some(better_or_first(best, ratio, basis));
        }
    }
    best
}

// The row that leaves if the variable of the column enters; none if no row has a number above zero.
pub(crate) fn leaving(
    program: &SparseProgram,
    rows: &[Option<WholeRow>],
    basis: &[usize],
    column: &[Entry],
) -> Option<usize>
    requires { HasColumn program.now rows.now basis.now column.now }
    ensures { LeavesFor result program.now rows.now basis.now column.now }
{
    match least_ratio(program, rows, basis, column) {
        Some(best) => Some(best.row),
        None => None,
    }
}
