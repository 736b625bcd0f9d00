//! What takes the rows of a program during a walk over them.

ghost use Rattle.std.specs.Prelude.{◌≡◌, ℕ, List, [], ◌∷◌, ◌++◌, true, false, map, OnOk, slice_index};
ghost use Rattle.sporadic_model.specs.SetDef.{SetDef};
ghost use Rattle.blocking_columns.specs.ColumnDef.{ColumnDef, column_seen};
ghost use Rattle.fragments.specs.Constraints.{ConstraintDef, holds_some};
ghost use Rattle.fragments.specs.RowStretch.{IsRowOver};

use crate::constraints::{RowKind, push_kind};
use blocking_columns::Fragment;
use program_form::RowBlock;
use sporadic_model::{TaskId, TaskSet};
use std::alloc::{AllocError, Global};

/// What takes the rows of a program during a walk over them: a block of rows with their limits, or the limits alone.
pub trait RowTaker {
    /// Does the second hold what the first does, followed by what it takes of these rows over these columns and at these bounds?
    ghost takes: { Self → List ColumnDef → List ConstraintDef → List ℕ → Self → Type 0 };

    /// Takes the row with its limit at the bounds. Some column has a coefficient above zero in it, and outside the stretch none has
    /// one. It looks at the stretch's columns alone.
    fn take<K: RowKind>(
        &mut self,
        alloc: Global,
        kind: &K,
        set: &TaskSet,
        i: TaskId,
        bounds: &[u64],
        columns: &[Fragment],
        stretch: (usize, usize),
        limit: u64,
    ) -> Result<(), AllocError>
        requires fits { K.fits kind.now set.now }
        requires row { IsRowOver set.now i.0 (K.row_of kind.now set.now i.0) (K.over kind.now set.now i.0) columns.now stretch.0 stretch.1 }
        requires there { holds_some (map column_seen columns.now) (K.row_of kind.now set.now i.0) ≡ true }
        requires limit { limit ≡ (K.row_of kind.now set.now i.0).limit (slice_index bounds.now) }
        ensures { OnOk result (takes self.old (map column_seen columns.now) (K.row_of kind.now set.now i.0 ∷ []) bounds.now self.new) };

    /// Taking no rows changes nothing.
    ghost none: { (t : Self) (cs : List ColumnDef) (bounds : List ℕ) → takes t cs [] bounds t };

    /// A row in which no coefficient is above zero changes nothing.
    ghost missing: { (t : Self) (cs : List ColumnDef) (row : ConstraintDef) (bounds : List ℕ) → holds_some cs row ≡ false
        → takes t cs (row ∷ []) bounds t };

    /// Taking some rows, then others, is taking both in that order.
    ghost behind: { (a b c : Self) (cs : List ColumnDef) (xs ys : List ConstraintDef) (bounds : List ℕ)
        → takes a cs xs bounds b → takes b cs ys bounds c → takes a cs (xs ++ ys) bounds c };
}

impl RowTaker for RowBlock {
    ghost use Rattle.std.specs.Prelude.{◌≡◌};
    ghost use Rattle.program_form.specs.RowBlock.{block_seen};
    ghost use Rattle.fragments.specs.Constraints.{with_rows};
    ghost use Rattle.fragments.specs.Taking.{no_rows_more, row_not_there, rows_behind};

    ghost takes = { λ a cs rows bounds b. block_seen b ≡ with_rows (block_seen a) cs rows bounds };

    ghost none = { λ t cs bounds. no_rows_more (block_seen t) cs bounds };

    ghost missing = { λ t cs row bounds fails. row_not_there (block_seen t) cs row bounds fails };

    ghost behind = { λ a b c. rows_behind (block_seen a) (block_seen b) (block_seen c) };

    fn take<K: RowKind>(
        &mut self,
        alloc: Global,
        kind: &K,
        set: &TaskSet,
        i: TaskId,
        _bounds: &[u64],
        columns: &[Fragment],
        stretch: (usize, usize),
        limit: u64,
    ) -> Result<(), AllocError> {
        push_kind(alloc, self, kind, set, i, columns, stretch, limit)
    }
}

/// The limits of a program's rows, without their coefficients.
#[derive(Debug, Drop)]
pub struct RowLimits {
    /// The limits of the nonzero rows.
    pub limits: Vec<u64>,
}

impl RowTaker for RowLimits {
    ghost use Rattle.std.specs.Prelude.{◌≡◌, ◌++◌};
    ghost use Rattle.fragments.specs.Constraints.{limits_of};
    ghost use Rattle.fragments.specs.Taking.{no_limits_more, limit_not_there, limits_behind};

    ghost takes = { λ a cs rows bounds b. b.limits.items ≡ a.limits.items ++ limits_of cs rows bounds };

    ghost none = { λ t cs bounds. no_limits_more t.limits.items cs bounds };

    ghost missing = { λ t cs row bounds fails. limit_not_there t.limits.items cs row bounds fails };

    ghost behind = { λ a b c. limits_behind a.limits.items b.limits.items c.limits.items };

    fn take<K: RowKind>(
        &mut self,
        _alloc: Global,
        _kind: &K,
        _set: &TaskSet,
        _i: TaskId,
        _bounds: &[u64],
        _columns: &[Fragment],
        _stretch: (usize, usize),
        limit: u64,
    ) -> Result<(), AllocError> {
        self.limits.push(limit)?;
        Ok(())
    }
}
