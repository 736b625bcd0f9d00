//! Lists of nonzero numbers, in order of their places.

ghost use Rattle.std.specs.Prelude.{IfOk};
ghost use Rattle.whole_rows.specs.EntrySteps.{IsPushed};

use std::alloc::AllocError;

/// A nonzero number, at its place.
#[derive(Clone, Copy, Debug, PartialEq, Eq)]
pub struct Entry {
    /// Its place in the row, or its row in a column.
    pub place: usize,
    /// The number.
    pub num: i64,
}

/// Adds a number at the end of a list. Zero gets no entry. It fails only for want of memory.
pub fn push_num(list: &mut Vec<Entry>, place: usize, num: i64) -> Result<(), AllocError>
    ensures { IfOk result (λ _. IsPushed list.old.items place num list.new.items) }
{
    if num != 0 {
        list.push(Entry { place, num })?;
    }
    Ok(())
}
