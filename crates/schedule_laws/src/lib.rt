//! Laws of jobs, of schedules and of the rules of MPCP, FMLP+ and DPCP, for the crates that run, judge, charge and bound them.
//!
//! Each function here does nothing: its contract is a law. The lemmas that prove it are in `proofs/`, one file for each subject. Proofs of
//! crates above use them too.
#![tactic(auto)]

mod agreement_laws;
mod count_laws;
mod measure_laws;
mod protocol_laws;
mod request_laws;
mod stretch_laws;
mod tick_laws;

pub use agreement_laws::{
    added_rows_change_no_earlier_tick, rules_depend_on_earlier_rows, ticks_depend_on_earlier_rows,
};
pub use count_laws::{
    executed_ticks_are_counted_along_the_script, requests_are_within_the_budget,
    requests_begun_are_counted,
};
pub use measure_laws::{arrivals_are_spaced, measures_are_kept, releases_rise};
pub use protocol_laws::{
    chosen_rows_are_unique, dpcp_keeps_its_laws, interference_comes_from_higher_tasks,
    interference_has_one_cause, jobs_end_in_time, lawful_rows_can_be_taken,
    running_jobs_are_active, shared_memory_keeps_its_laws, taken_rows_run_active_jobs,
};
pub use request_laws::{holders_stay, issue_ticks_are_first, requests_follow_local_ticks};
pub use stretch_laws::lawful_rows_stay_lawful;
pub use tick_laws::{
    executed_ticks_rise_by_one, jobs_finish_in_order, phases_move_forward,
    tasks_have_one_active_job,
};
