/// Rows of a program, each with a coefficient for each column, and the limit of each row.
#[derive(Debug, Drop)]
pub struct RowBlock {
    /// The coefficients of each row, one for each column.
    pub rows: Vec<Vec<u64>>,
    /// The limit of each row.
    pub limits: Vec<u64>,
}
