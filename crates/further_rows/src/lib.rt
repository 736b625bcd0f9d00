//! Protocols whose programs have further rows: the rules, columns and charges of a plain protocol, with programs that say more.
#![tactic(auto)]

mod closer;
mod rows;

pub use closer::Closer;
pub use rows::FurtherRows;
