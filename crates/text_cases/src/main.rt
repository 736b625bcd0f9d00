//! Worked texts of sets, certificates and schedules, as they are read and written.
#![tactic(auto)]

#[cfg(test)]
mod arrival_tests;
#[cfg(test)]
mod certificate_tests;
#[cfg(test)]
mod refusal_tests;
#[cfg(test)]
mod row_text_tests;
#[cfg(test)]
mod schedule_tests;
#[cfg(test)]
mod set_tests;
#[cfg(test)]
mod texts;

// The crate has only tests. It is a program, since a kit that keeps no sums forms those of all crates below a library anew, path by path.
fn main() {}
