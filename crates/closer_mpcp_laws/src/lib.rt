//! Rows of the closer analysis of MPCP that hold in every lawful schedule, and what is true of them. In two kinds of them the limit depends
//! on how many requests higher tasks can hold. That may be counted in more than one way, so `held` is any way to count it.
//!
//! The rows rest on three facts. A job never waits for a lower task of its processor. Between two grants of requests that are shared out,
//! what a lower task preempts with was open all the while. And between two requests of one task that are charged in one wait, what is waited
//! for is held on another processor.
//!
//! Each function here does nothing: its contract is a law, and the lemmas that prove it stand in `proofs/`.
#![tactic(auto)]

ghost use Rattle.std.specs.Prelude.{ℕ, ◌<◌, ◌≤◌, List, length, slice_index};
ghost use Rattle.std.specs.List.{All};
ghost use Rattle.sporadic_model.specs.SetDef.{SetDef};
ghost use Rattle.sporadic_model.specs.Accepted.{IsAccepted};
ghost use Rattle.sporadic_model.specs.declared.ids.Protocol.TheVariants as protocol;
ghost use Rattle.sporadic_model.specs.Bounds.{AtMost, AreWithinDeadlines};
ghost use Rattle.schedule_model.specs.LawfulJobs.{AreLawfulJobs};
ghost use Rattle.schedule_model.specs.RowDef.{Trace, jobs_of};
ghost use Rattle.schedule_model.specs.Activity.{task_of};
ghost use Rattle.schedule_model.specs.Ranks.{mpcp};
ghost use Rattle.schedule_model.specs.Protocols.{shared_rule};
ghost use Rattle.schedule_model.specs.Keeping.{KeepsBefore};
ghost use Rattle.blocking_columns.specs.Columns.{columns_of};
ghost use Rattle.fragments.specs.Constraints.{rows_there};
ghost use Rattle.indirect_constraints.specs.Rows.{higher_holdings};
ghost use Rattle.program_laws.specs.Written.{IsSmallRow, Rises};
ghost use Rattle.charge_laws.specs.Charges.{shared_charge};
ghost use Rattle.charge_laws.specs.Windows.{bound_end, EndedWithin};
ghost use Rattle.row_laws.specs.Meeting.{TicksMeet};
ghost use Rattle.closer_mpcp_laws.specs.CloserMpcpRows.{further_rows};

/// Take a job in a lawful schedule of an accepted set, under MPCP. Let each job whose release plus bound is less than this job's, and lies
/// within the rows, be finished by its own release plus its bound. Let `held` count at least the requests that higher tasks beside each task
/// can make while the job runs. Then the ticks of the job's window meet each of these rows.
pub fn blocking_meets_further_rows()
    ensures { (w : Trace) (bounds : List ℕ) (n j : ℕ) (held : (ℕ → ℕ) → ℕ → ℕ → ℕ) → IsAccepted w.set → AreLawfulJobs (jobs_of w)
        → KeepsBefore (shared_rule mpcp) w n → j < length w.jobs
        → EndedWithin w (slice_index bounds) (bound_end w (slice_index bounds) j) n
        → ((x q : ℕ) → higher_holdings w.set (slice_index bounds) (task_of w j) x q ≤ held (slice_index bounds) x q)
        → All (TicksMeet shared_charge w (slice_index bounds) n j) (further_rows w.set held (task_of w j)) }
{}

/// No limit of these rows falls when bounds rise, if `held` doesn't. Here `r` is at most `s`.
pub fn limits_of_further_rows_rise()
    ensures { (set : SetDef) (held : (ℕ → ℕ) → ℕ → ℕ → ℕ) (i : ℕ) (r s : List ℕ) → i < length set.tasks → AtMost (length set.tasks) r s
        → ((x q : ℕ) → x < length set.tasks → q < length set.resources → held (slice_index r) x q ≤ held (slice_index s) x q)
        → All (Rises r s) (further_rows set held i) }
{}

/// No number of these rows is too great for a program of an accepted set, at bounds within the deadlines, if `held` is at most
/// 128000000000000: of each of 64 tasks 1000 requests by each of 2000000000 jobs. A program has at most 447 of these rows: of holdings by
/// resource one for each of 256 request entries, of shared holdings, away holdings and shared intervals one for each of 63 other tasks, and
/// two more.
pub fn further_rows_are_small()
    ensures numbers { (set : SetDef) (held : (ℕ → ℕ) → ℕ → ℕ → ℕ) (i : ℕ) (r : List ℕ) → IsAccepted set → AreWithinDeadlines set r
        → i < length set.tasks
        → ((x q : ℕ) → x < length set.tasks → q < length set.resources → held (slice_index r) x q ≤ 128000000000000)
        → All (IsSmallRow r) (further_rows set held i) }
    ensures rows { (set : SetDef) (held : (ℕ → ℕ) → ℕ → ℕ → ℕ) (i : ℕ) → IsAccepted set → i < length set.tasks
        → length (rows_there (columns_of protocol.Mpcp set i) (further_rows set held i)) ≤ 447 }
{}
