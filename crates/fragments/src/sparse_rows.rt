//! Takes rows by their nonzero coefficients.

ghost use Rattle.std.specs.Prelude.{◌≡◌, ◌<◌, ◌^◌, List, [], ◌∷◌, ◌++◌, OnOk};
ghost use Rattle.fragments.specs.NonzeroCoefficients.{with_nonzero};

use crate::constraints::RowKind;
use crate::taking::RowTaker;
use blocking_columns::Fragment;
use program_form::{Coefficient, SparseRows};
use sporadic_model::{TaskId, TaskSet};
use std::alloc::{AllocError, Global};

// The number of the column at the place. A program has fewer than 2 ^ 32 columns.
fn column_number(place: usize) -> u32
    ensures { place < 2 ^ 32 → result ≡ place }
{
    (place % 4_294_967_296) as u32
}

// Adds the coefficient of the column at the place to the last row, if it isn't zero.
fn add_nonzero(rows: &mut SparseRows, place: usize, number: u64) -> Result<(), AllocError>
    ensures row { place < 2 ^ 32 → OnOk result ((before : List (List Coefficient)) (last : List Coefficient)
        → rows.old.rows ≡ before ++ last ∷ [] → rows.new.rows ≡ before ++ with_nonzero last place number ∷ []) }
    ensures limits { OnOk result (rows.new.limits ≡ rows.old.limits) }
{
    if number != 0 {
        let column = column_number(place);
        rows.add(Coefficient { column, number })?;
    }
    Ok(())
}

impl RowTaker for SparseRows {
    ghost use Rattle.fragments.specs.SparseTaking.{takes_sparse, no_sparse_more, sparse_not_there, sparse_behind};

    ghost takes = { λ a cs rows bounds b. takes_sparse a cs rows bounds b };

    ghost none = { λ t cs bounds. no_sparse_more t cs bounds };

    ghost missing = { λ t cs row bounds fails. sparse_not_there t cs row bounds fails };

    ghost behind = { λ a b c cs xs ys bounds first second. sparse_behind a b c cs xs ys bounds first second };

    fn take<K: RowKind>(
        &mut self,
        _alloc: Global,
        kind: &K,
        set: &TaskSet,
        i: TaskId,
        _bounds: &[u64],
        columns: &[Fragment],
        stretch: (usize, usize),
        limit: u64,
    ) -> Result<(), AllocError> {
        let (from, to) = stretch;
        self.begin(limit)?;
        for place in from..to {
            let number = kind.coefficient(set, i, columns[place]);
            add_nonzero(self, place, number)?;
        }
        Ok(())
    }
}
