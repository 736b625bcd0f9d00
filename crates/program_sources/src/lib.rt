//! Sources of blocking programs: what an analysis needs of a locking protocol. And the recurrence, fitting bounds and valid certificates
//! over any source.
//!
//! A source gives each task of a set a program at a vector of bounds. It says how many ticks of a higher job count as interference. The
//! definitions in `specs/` are about all points and all vectors, and know no protocol, no table and no rounds. The functions of `laws`
//! state what follows from the laws of [`ProgramSource`] alone.
#![tactic(auto)]

mod laws;
mod source;
mod times;

pub use laws::{
    fitting_bounds_are_from_the_costs, recurrence_is_monotone, the_recurrence_has_one_value,
    valid_certificates_fit,
};
pub use source::ProgramSource;
pub use times::response;
