//! The exchange run of a blocking program: tables of exact fractions, each made from the one before by an exchange. It goes from the slack
//! table to one that no exchange improves.
//!
//! The definitions are in `specs/`. They say what a table is, which variable enters and which row leaves, and what the table after an
//! exchange is. They also say when an exchange or the end is wide, what is read from the last table, and how many units a run takes.
//!
//! There is no code here, and each function is a law. Those of `laws` are about every run: a program has one, its end gives the optimum,
//! and it is never unbounded. Those of `end_laws` say that every run ends: over unbounded fractions it comes to a table that no exchange
//! improves, and with enough units a run ends or is wide. The law of `small_laws` is about runs over fractions that needn't be in lowest
//! terms, whose parts are below 2^63 in size. Such a run is the exchange run.
#![tactic(auto)]

mod end_laws;
mod laws;
mod small_laws;

pub use end_laws::{
    an_optimum_exists, enough_units_give_an_end, every_run_is_free, free_runs_end,
    seven_rows_end_in_time,
};
pub use laws::{
    a_run_gives_one_answer, a_run_has_one_course, no_program_is_unbounded,
    seven_rows_take_four_exchanges, the_end_is_the_optimum,
};
pub use small_laws::small_runs_are_runs;
