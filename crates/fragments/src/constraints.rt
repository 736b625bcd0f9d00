ghost use Rattle.std.specs.Prelude.{◌≡◌, ℕ, ◌<◌, ◌≤◌, map, nat_lt, length, OnOk, IfOk, [], ◌∷◌, slice_index};
ghost use Rattle.std.specs.List.{list_any};
ghost use Rattle.program_form.specs.RowBlock.{block_seen};
ghost use Rattle.sporadic_model.specs.SetDef.{SetDef};
ghost use Rattle.sporadic_model.specs.Bounds.{AreWithinDeadlines};
ghost use Rattle.blocking_columns.specs.Given.{AreKnownAt};
ghost use Rattle.blocking_columns.specs.ColumnDef.{ColumnDef, column_seen};
ghost use Rattle.fragments.specs.Constraints.{ConstraintDef, pushed_row};
ghost use Rattle.fragments.specs.RowStretch.{IsRowOver, IsGivenColumn};

use crate::taking::RowTaker;
use blocking_columns::Fragment;
use program_form::RowBlock;
use sporadic_model::{TaskId, TaskSet};
use std::alloc::{AllocError, Global};

/// The coefficients of a row of task `i`'s blocking program, one for each column.
pub trait RowKind {
    /// The row, for a set and the analysed task.
    ghost row_of: { Self → SetDef → ℕ → ConstraintDef };

    /// Does the row name only tasks and resources of the set? A kind whose rows name none leaves this out.
    ghost fits: { Self → SetDef → Type 0 } = { λ k set. Unit {0} };

    /// The columns whose coefficients it can give: all, where a kind leaves this out.
    ghost over: { Self → SetDef → ℕ → ColumnDef → Type 0 } = { λ k set i c. Unit {0} };

    /// The column's coefficient.
    fn coefficient(&self, set: &TaskSet, i: TaskId, column: Fragment) -> u64
        requires fits { fits self.now set.now }
        requires column { IsGivenColumn set.now i.0 (over self.now set.now i.0) column }
        ensures { result ≡ (row_of self.now set.now i.0).coefficient (column_seen column) };
}

/// A row with its limit, which is computed from the bounds.
pub trait Constraint: RowKind {
    /// The limit of the row's sum at these bounds.
    fn limit(&self, set: &TaskSet, i: TaskId, bounds: &[u64]) -> u64
        requires fits { Self.fits self.now set.now }
        requires task { i.0 < length set.now.tasks }
        requires within { AreWithinDeadlines set.now bounds.now }
        ensures { result ≡ (Self.row_of self.now set.now i.0).limit (slice_index bounds.now) };
}

// Whether some column has a coefficient above zero in the row. Outside the stretch none has one.
fn holds<K: RowKind>(
    kind: &K,
    set: &TaskSet,
    i: TaskId,
    columns: &[Fragment],
    stretch: (usize, usize),
) -> bool
    requires fits { K.fits kind.now set.now }
    requires row { IsRowOver set.now i.0 (K.row_of kind.now set.now i.0) (K.over kind.now set.now i.0) columns.now stretch.0 stretch.1 }
    ensures { result ≡ list_any (λ c. nat_lt 0 ((K.row_of kind.now set.now i.0).coefficient (column_seen c))) columns.now }
{
    let (from, to) = stretch;
    for place in from..to {
        if kind.coefficient(set, i, columns[place]) > 0 {
            return true;
        }
    }
    false
}

// The coefficients of the columns. Outside the stretch they are zero.
fn coefficients<K: RowKind>(
    alloc: Global,
    kind: &K,
    set: &TaskSet,
    i: TaskId,
    columns: &[Fragment],
    stretch: (usize, usize),
) -> Result<Vec<u64>, AllocError>
    requires fits { K.fits kind.now set.now }
    requires row { IsRowOver set.now i.0 (K.row_of kind.now set.now i.0) (K.over kind.now set.now i.0) columns.now stretch.0 stretch.1 }
    ensures { IfOk result (λ v. v.items ≡ map (λ c. (K.row_of kind.now set.now i.0).coefficient (column_seen c)) columns.now) }
{
    let (from, to) = stretch;
    let mut list = vec![in alloc; 0u64; columns.len()]?;
    for place in from..to {
        list[place] = kind.coefficient(set, i, columns[place]);
    }
    Ok(list)
}

// Adds the row with these coefficients and this limit.
fn push_row(block: &mut RowBlock, list: Vec<u64>, limit: u64) -> Result<(), AllocError>
    ensures { OnOk result (block_seen block.new ≡ pushed_row (block_seen block.old) list.items limit) }
{
    block.rows.push(list)?;
    block.limits.push(limit)?;
    Ok(())
}

/// Adds the row with this limit. The row can give the coefficients of the stretch, and outside it every column has coefficient zero.
pub(crate) fn push_kind<K: RowKind>(
    alloc: Global,
    block: &mut RowBlock,
    kind: &K,
    set: &TaskSet,
    i: TaskId,
    columns: &[Fragment],
    stretch: (usize, usize),
    limit: u64,
) -> Result<(), AllocError>
    requires fits { K.fits kind.now set.now }
    requires row { IsRowOver set.now i.0 (K.row_of kind.now set.now i.0) (K.over kind.now set.now i.0) columns.now stretch.0 stretch.1 }
    ensures { OnOk result (block_seen block.new ≡ pushed_row (block_seen block.old)
        (map (K.row_of kind.now set.now i.0).coefficient (map column_seen columns.now)) limit) }
{
    let list = coefficients(alloc, kind, set, i, columns, stretch)?;
    push_row(block, list, limit)
}

/// Adds the row to what the taker has, if some column has a coefficient above zero in it. Its limit at the bounds is known. It looks at
/// the columns of the stretch alone, as `add_row_within` does.
pub fn add_row_limited<T: RowTaker, K: RowKind>(
    alloc: Global,
    taker: &mut T,
    kind: &K,
    set: &TaskSet,
    i: TaskId,
    bounds: &[u64],
    columns: &[Fragment],
    stretch: (usize, usize),
    limit: u64,
) -> Result<(), AllocError>
    requires fits { K.fits kind.now set.now }
    requires row { IsRowOver set.now i.0 (K.row_of kind.now set.now i.0) (K.over kind.now set.now i.0) columns.now stretch.0 stretch.1 }
    requires limit { limit ≡ (K.row_of kind.now set.now i.0).limit (slice_index bounds.now) }
    ensures { OnOk result (T.takes taker.old (map column_seen columns.now) (K.row_of kind.now set.now i.0 ∷ []) bounds.now taker.new) }
{
    if holds(kind, set, i, columns, stretch) {
        taker.take(alloc, kind, set, i, bounds, columns, stretch, limit)?;
    }
    Ok(())
}

/// Adds the row to what the taker has, if some column has a coefficient above zero in it. It looks at the columns of the stretch alone,
/// from its first place to below its second. Outside the stretch no column has one.
pub fn add_row_within<T: RowTaker, K: Constraint>(
    alloc: Global,
    taker: &mut T,
    kind: &K,
    set: &TaskSet,
    i: TaskId,
    bounds: &[u64],
    columns: &[Fragment],
    stretch: (usize, usize),
) -> Result<(), AllocError>
    requires fits { K.fits kind.now set.now }
    requires within { AreWithinDeadlines set.now bounds.now }
    requires row { IsRowOver set.now i.0 (K.row_of kind.now set.now i.0) (K.over kind.now set.now i.0) columns.now stretch.0 stretch.1 }
    ensures { OnOk result (T.takes taker.old (map column_seen columns.now) (K.row_of kind.now set.now i.0 ∷ []) bounds.now taker.new) }
{
    if holds(kind, set, i, columns, stretch) {
        let limit = kind.limit(set, i, bounds);
        taker.take(alloc, kind, set, i, bounds, columns, stretch, limit)?;
    }
    Ok(())
}

/// Adds the row to what the taker has, if some column has a coefficient above zero in it. It looks at all columns.
pub fn add_row<T: RowTaker, K: Constraint>(
    alloc: Global,
    taker: &mut T,
    kind: &K,
    set: &TaskSet,
    i: TaskId,
    bounds: &[u64],
    columns: &[Fragment],
) -> Result<(), AllocError>
    requires fits { K.fits kind.now set.now }
    requires at { AreKnownAt set.now bounds.now i.0 columns.now }
    requires over { (c : ColumnDef) → K.over kind.now set.now i.0 c }
    ensures { OnOk result (T.takes taker.old (map column_seen columns.now) (K.row_of kind.now set.now i.0 ∷ []) bounds.now taker.new) }
{
    let all = (0, columns.len());
    add_row_within(alloc, taker, kind, set, i, bounds, columns, all)
}
