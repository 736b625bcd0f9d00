//! Rows of blocking programs as data, the walks over them, and what takes rows. Their columns and windows come from `blocking_columns`.
#![tactic(auto)]

mod constraints;
mod single_rows;
mod sparse_rows;
mod taking;
mod walks;

pub use blocking_columns::{
    Class, ColumnTest, Fragment, TaskPlace, asked_beside, blocks_at_home, ceiling_place,
    classes_stand_in_order, cnt, columns_stand_in_order, fragments, fragments_where, home, jobs,
    lower_local, most_columns, passing_stand_in_order, requests_at, requests_end, requests_of,
    share_processor, task_places, uses,
};
pub use constraints::{Constraint, RowKind, add_row, add_row_limited, add_row_within};
pub use single_rows::{EachRequest, EachTask, RequestRow, TaskRow, add_row_of_task};
pub use taking::{RowLimits, RowTaker};
pub use walks::{
    PerNumber, PerRequest, PerTask, add_per_lower_task, add_per_number, add_per_request,
    add_per_request_at, add_per_task,
};
