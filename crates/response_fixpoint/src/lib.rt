//! The least fitting bounds of a task set by rounds of the response-time recurrence, over any source of blocking programs.
//!
//! Each task's program is formed once. A round solves it at the bounds of the round before, and computes only its limits anew. The
//! rounds end with one that changes nothing. `specs/` defines the rounds. `program_sources` says what fits, and which bounds are the
//! least, without any round.
#![tactic(auto)]

mod ahead;
mod analysis;
mod beginning;
mod laws;
mod places;
mod plan;
mod rounds;
mod sharing;
mod taking;
mod task_run;
mod verdict;

pub use analysis::{analyse, analyse_with, costs};
pub use beginning::planned_program;
pub use laws::{
    a_least_fitting_vector_exists, fitting_is_by_the_values_of_the_recurrence,
    no_requests_no_columns, the_rounds_have_one_ending, three_tasks_take_four_rounds,
};
pub use places::{Placed, in_places};
pub use plan::{Kept, Planned, next_plan};
pub use rounds::{Round, RoundStop, round_stop, take_run};
pub use sharing::{Share, first_threads, is_in};
pub use taking::{RoundRecord, take_rounds};
pub use task_run::{Solution, TaskRun, run_task};
pub use verdict::{Stop, Verdict};
