//! Charges each blocked tick of a schedule to the request that executes at it, under every charged protocol (`charged_protocols`), and
//! says what is true of the table of these charges.
#![tactic(auto)]

mod charger;
mod charging;
mod counting;
mod due;
mod item;
mod laws;
mod table;
mod tally;

pub use charged_protocols::{
    ChargedProtocol, are_bounds, charged_protocols_are_analysed, distributed, shared,
    valid_certificates_bound_each_task,
};
pub use charger::Charger;
pub use charging::{charge, charge_rows_with, charge_with};
pub use item::{ChargeItem, ChargeStop, ChargeTable};
pub use laws::{charges_add_up, sound_bounds_are_never_passed, steady_ticks_are_charged_alike};
pub use table::table_of;
pub use tally::{ChargePlace, Ledger};
