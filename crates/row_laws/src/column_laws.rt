ghost use Rattle.std.specs.Prelude.{◌≡◌, ℕ, ◌<◌, true, Some};
ghost use Rattle.std.specs.List.{Contains};
ghost use Rattle.sporadic_model.specs.declared.ids.Protocol.{Protocol};
ghost use Rattle.schedule_model.specs.LawfulJobs.{AreLawfulJobs};
ghost use Rattle.schedule_model.specs.RowDef.{Trace, jobs_of};
ghost use Rattle.schedule_model.specs.Activity.{task_of};
ghost use Rattle.schedule_model.specs.ByProtocol.{rules_of, interference_of};
ghost use Rattle.schedule_model.specs.Keeping.{KeepsBefore};
ghost use Rattle.schedule_model.specs.BlockedTicks.{is_blocked};
ghost use Rattle.blocking_columns.specs.ColumnDef.{ColumnDef};
ghost use Rattle.blocking_columns.specs.Columns.{columns_of};
ghost use Rattle.charge_laws.specs.ByProtocol.{charges_of};
ghost use Rattle.charge_laws.specs.Fractions.{charged_column};

/// In rows that keep a protocol's rules each blocked tick of a lawful job is charged in a column of its task's program.
pub fn blocked_ticks_lie_in_columns()
    ensures { (p : Protocol) (w : Trace) (n t j : ℕ) → AreLawfulJobs (jobs_of w) → KeepsBefore (rules_of p) w n → t < n
        → is_blocked (interference_of p) w t j ≡ true
        → (c : ColumnDef) × (charged_column (charges_of p) w t j ≡ Some c) × Contains (columns_of p w.set (task_of w j)) c }
{}
