//! Non-preemptive FIFO spin locks. Requests are granted in the order of issue, a job that waits spins, and a job in a request isn't
//! preempted.
//!
//! [`Spin`] judges and chooses rows, gives programs and charges ticks. So the calls over a protocol's type take it.
#![tactic(auto)]

mod charging;
mod choosing;
mod instances;
mod judging;
mod laws;
mod origins;
mod programs;
mod rows;
mod tables;

pub use laws::{each_lawful_schedule_has_a_next_row, programs_are_small};
pub use origins::{is_origin, origins_of};
pub use programs::{add_lower_requests, add_own_spinning, spin_fragments};
pub use rows::{higher_requests, is_from, is_used_below, one_if, spinning_requests};
pub use tables::{ResourceTest, table_of};

/// Non-preemptive FIFO spin locks under partitioned fixed-priority scheduling. A job that waits for a resource spins: its processor runs
/// nothing. Homes don't matter.
#[derive(Clone, Copy, Debug, PartialEq, Eq)]
pub struct Spin;
