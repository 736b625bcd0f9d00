//! The outside of the program as two traits: a shelf, from which named inputs are read, and a sink, to which text is written. Each has an
//! implementation over the system, and one in memory whose faults you choose.
#![tactic(auto)]

mod file_shelf;
mod history;
mod memory_shelf;
mod memory_sink;
mod opener;
mod out_sink;
mod shelf;
mod sink;
mod whole;

pub use file_shelf::FileShelf;
pub use memory_shelf::MemShelf;
pub use memory_sink::MemSink;
pub use opener::{Opener, SystemFiles};
pub use out_sink::OutSink;
pub use shelf::{Shelf, ShelfFault};
pub use sink::{Sink, SinkFault};
pub use whole::{GREATEST_INPUT_BYTES, LoadFault, load, put_all};
