//! Worked lists of jobs and rows, the machine and the judges tick by tick, and schedules as they are judged, measured and simulated.
#![tactic(auto)]

#[cfg(test)]
mod judge_tests;
#[cfg(test)]
mod judged;
#[cfg(test)]
mod list_tests;
#[cfg(test)]
mod lists;
#[cfg(test)]
mod machine_tests;
#[cfg(test)]
mod scripts;
#[cfg(test)]
mod simulate_tests;
#[cfg(test)]
mod texts;
#[cfg(test)]
mod told;

// The crate has only tests. It is a program, since a kit that keeps no sums forms those of all crates below a library anew, path by path.
fn main() {}
