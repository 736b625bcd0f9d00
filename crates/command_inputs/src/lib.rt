//! The inputs of commands: what each is, how it is loaded and read, and what is replied if one gives no value.
#![tactic(auto)]

mod halt;
mod input;
mod status;

pub use halt::{Halt, Reply, fault, refusal, reply_of};
pub use input::{
    CertFor, JobsOf, OldCertFor, Reader, RefusalFor, SetFor, get, get_rows, get_tied_set,
};
pub use status::Status;
