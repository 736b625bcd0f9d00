//! Where the variables are: in the basis, or outside it at a place of the rows.

/// Where a variable is.
#[derive(Clone, Copy, Debug, PartialEq, Eq)]
pub enum Stand {
    /// Outside the basis, at this place of the rows.
    Outside(usize),
    /// In the basis, as this row's basic variable.
    Basic(usize),
}
