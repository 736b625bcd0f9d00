//! The text of certificates: one compact JSON object, which `write` gives. `read` reads it, with any white space and any order of members.
//! A certificate has the digest of its set's bytes. `read_old` reads the version before, which has none.
#![tactic(auto)]

mod digests;
mod file;
mod form;
mod laws;
mod reading;
mod refusal;
mod refusing;
mod value;
mod version;
mod words;
mod writing;
mod written;

pub use digests::{digest_of, digest_text, digests_have_texts, is_digest_text, set_digest};
pub use file::CertFile;
pub use form::{is_dual, is_for};
pub use laws::{form_is_exact, what_is_written_is_read};
pub use reading::{read, read_old};
pub use refusal::{CertPlace, CertRefusal};
pub use value::value_of_dual;
pub use version::Version;
pub use writing::write;
pub use written::{digest_at, dual_of};
