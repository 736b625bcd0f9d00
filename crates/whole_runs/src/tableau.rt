//! What a run keeps from one exchange to the next.

use crate::stands::Stand;
use whole_rows::{Entry, Pivot, RowMarks, WholeRow};

/// The tableau of a run. `table_seen` gives the table of its rows, basis and stands.
#[derive(Drop)]
pub(crate) struct Tableau {
    /// The rows. None means that no exchange has changed the program's own row. The last is the objective row.
    pub(crate) rows: Vec<Option<WholeRow>>,
    /// Which rows may have a number at a place.
    pub(crate) marks: RowMarks,
    /// The basic variable of each row.
    pub(crate) basis: Vec<usize>,
    /// Where each variable is.
    pub(crate) stands: Vec<Stand>,
    /// Which variable is at each place.
    pub(crate) outside: Vec<usize>,
}

/// The two lines of the tableau that cross in an exchange. Both are kept over the run for their memory.
#[derive(Drop)]
pub(crate) struct Lines {
    /// The column of the variable that enters.
    pub(crate) column: Vec<Entry>,
    /// The row that leaves, divided, in the form in which it is subtracted from the others.
    pub(crate) pivot: Pivot,
}
