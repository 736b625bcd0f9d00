//! The text of certificates of refusal: one compact JSON object, which `write_refusal` gives. `read_refusal` reads it, with any white space
//! and any order of members. It has the digest of its set's bytes, as a certificate has.
#![tactic(auto)]

mod fault;
mod form;
mod laws;
mod reading;
mod value;
mod writing;
mod written;

pub use fault::ReadFault;
pub use laws::what_is_written_is_read;
pub use reading::read_refusal;
pub use writing::write_refusal;
