//! Worked runs of the program's one call, over files in memory, some of which fail. And tests of what its commands use: ports, certificates
//! as they are checked, tables, studies, charges and audits.
#![tactic(auto)]

#[cfg(test)]
mod audit_tests;
#[cfg(test)]
mod charge_tests;
#[cfg(test)]
mod check_tests;
#[cfg(test)]
mod hostile_tests;
#[cfg(test)]
mod port_tests;
#[cfg(test)]
mod protocol_tests;
#[cfg(test)]
mod study_tests;
#[cfg(test)]
mod table_tests;

// The crate has only tests. It is a program, since a kit that keeps no sums forms those of all crates below a library anew, path by path.
fn main() {}
