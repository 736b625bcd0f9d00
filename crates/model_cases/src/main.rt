//! Worked fractions and programs, and worked sets of tasks with the programs that the protocols give them and their refusals.
#![tactic(auto)]

#[cfg(test)]
mod any_size_tests;
#[cfg(test)]
mod building_tests;
#[cfg(test)]
mod closer_tests;
#[cfg(test)]
mod confirm_tests;
#[cfg(test)]
mod form_tests;
#[cfg(test)]
mod fraction_tests;
#[cfg(test)]
mod protocol_rows;
#[cfg(test)]
mod protocol_tests;
#[cfg(test)]
mod refusal_tests;
#[cfg(test)]
mod rounds_tests;
#[cfg(test)]
mod set_tests;
#[cfg(test)]
mod settling_tests;
#[cfg(test)]
mod simplex_tests;
#[cfg(test)]
mod sums_tests;
#[cfg(test)]
mod texts_tests;
#[cfg(test)]
mod threads;
#[cfg(test)]
mod watched;
#[cfg(test)]
mod whole_tests;
#[cfg(test)]
mod window_tests;

// The crate has only tests. It is a program, since a kit that keeps no sums forms those of all crates below a library anew, path by path.
fn main() {}
