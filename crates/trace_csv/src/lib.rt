//! Jobs and rows in CSV: reads them, or names the first line that is refused, and writes rows.
#![tactic(auto)]

mod bytes;
mod header;
mod jobs;
mod lines;
mod records;
mod refusal;
mod row_text;
mod rows;
mod script;
mod segments;
mod slices;
mod text_rows;
mod writing;

pub use jobs::read_jobs;
pub use refusal::{JobsRefusal, RowsRefusal};
pub use row_text::RowText;
pub use rows::read_rows;
pub use text_rows::TextRows;
pub use writing::write_rows;
