//! DPCP with windows of requests: how long a request can be open, and the rows that this gives.
#![tactic(auto)]

mod kept;
mod laws;
mod limits;
mod programs;
mod protocol;
mod rows;
mod searching;
mod ticks;

pub use laws::programs_are_small;
pub use programs::{DpcpWindowRows, program};
pub use protocol::{DPCP_WINDOWS, DpcpWindows};
pub use searching::window;
