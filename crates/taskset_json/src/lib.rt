//! Task sets in JSON: reads one, and says where something is wrong in it. And the homes that a protocol asks for. Readers of other texts
//! use the tests of members too.
#![tactic(auto)]

mod form;
mod form_laws;
mod homes;
mod members;
mod reading;
mod refusal;
mod shape;
mod written;

pub use form::{Kind, Member, is_object_of, must};
pub use form_laws::form_faults_are_exact;
pub use homes::home_check;
pub use members::{list_at, text_at, whole_at};
pub use reading::read;
pub use refusal::SetRefusal;
