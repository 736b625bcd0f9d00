//! Walks a schedule once, a steady stretch at a time. It judges the rows by the rules of a locking protocol, and a [`Keeper`] keeps notes
//! of them.
#![tactic(auto)]

mod both;
mod keeper;
mod walking;

pub use both::Both;
pub use keeper::Keeper;
pub use walking::walk;
