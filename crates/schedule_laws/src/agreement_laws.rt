ghost use Rattle.std.specs.Prelude.{◌≡◌, ℕ, ◌+◌, ◌<◌, ◌≤◌, Bool, List, ◌∷◌, ◌++◌, length};
ghost use Rattle.schedule_model.specs.JobDef.{JobsDef};
ghost use Rattle.schedule_model.specs.RowDef.{RowDef, RunDef, Trace, ticks_of, trace_of, trace_in};
ghost use Rattle.schedule_model.specs.Activity.{is_ready};
ghost use Rattle.schedule_model.specs.BlockedTicks.{is_executing, is_shared_interference, is_dpcp_interference, is_blocked};
ghost use Rattle.schedule_model.specs.TakenRows.{CanBeTaken};
ghost use Rattle.schedule_model.specs.Ranks.{mpcp, fmlp_plus};
ghost use Rattle.schedule_model.specs.Protocols.{shared_rule, dpcp_rule};
ghost use Rattle.schedule_model.specs.Chosen.{IsSharedChoice, IsDpcpChoice};
ghost use Rattle.schedule_laws.specs.Agreement.{AgreeBefore, AgreeOnTick, ReadsUpTo, TicksReadUpTo, interfering};

/// What is said of a tick is the same in each schedule that has the same rows before it. Which jobs are ready depends on the tick's own row
/// too.
pub fn ticks_depend_on_earlier_rows()
    ensures tick { (v w : Trace) (n t : ℕ) → AgreeBefore v w n → t ≤ n → AgreeOnTick v w t }
    ensures ready { (v w : Trace) (n t j : ℕ) → AgreeBefore v w n → t < n → is_ready v t j ≡ is_ready w t j }
{}

/// These depend only on the rows up to a row: whether it keeps each of a protocol's rules, whether it is the chosen one, what its tick is
/// for a job, which job makes it interference, and whether the row can be taken.
pub fn rules_depend_on_earlier_rows()
    ensures mpcp { ReadsUpTo (shared_rule mpcp) (IsSharedChoice mpcp) is_shared_interference }
    ensures fmlp_plus { ReadsUpTo (shared_rule fmlp_plus) (IsSharedChoice fmlp_plus) is_shared_interference }
    ensures dpcp { ReadsUpTo dpcp_rule IsDpcpChoice is_dpcp_interference }
    ensures executing { TicksReadUpTo is_executing }
    ensures blocked { (interferes : Trace → ℕ → ℕ → Bool) → TicksReadUpTo interferes → TicksReadUpTo (is_blocked interferes) }
    ensures interferer { (interferes : Trace → ℕ → ℕ → Bool) (y : ℕ) → TicksReadUpTo interferes → TicksReadUpTo (interfering interferes y) }
    ensures taken { (v w : Trace) (n t : ℕ) → AgreeBefore v w n → t < n → CanBeTaken v t → CanBeTaken w t }
{}

/// If rows are added to a list, nothing changes before its old end, and the first new row is there. It is the same for runs of rows.
pub fn added_rows_change_no_earlier_tick()
    ensures rows { (jobs : JobsDef) (rows more : List RowDef)
        → AgreeBefore (trace_of jobs (rows ++ more)) (trace_of jobs rows) (length rows) }
    ensures row { (jobs : JobsDef) (rows more : List RowDef) (row : RowDef)
        → (trace_of jobs (rows ++ row ∷ more)).row (length rows) ≡ row }
    ensures runs { (jobs : JobsDef) (runs more : List RunDef)
        → AgreeBefore (trace_in jobs (runs ++ more)) (trace_in jobs runs) (ticks_of runs) }
    ensures run { (jobs : JobsDef) (runs : List RunDef) (run : RunDef) (more : List RunDef) (t : ℕ) → ticks_of runs ≤ t
        → t < ticks_of runs + run.ticks → (trace_in jobs (runs ++ run ∷ more)).row t ≡ run.row }
{}
