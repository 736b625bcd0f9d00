ghost use Rattle.std.specs.Prelude.{◌≡◌, ℕ, ◌*◌, ◌<◌, ◌≤◌, ◌↔◌, true, false, List, length, map, slice_index};
ghost use Rattle.std.specs.Prelude.{Option, Some, None, IfOk, IfSome};
ghost use Rattle.number_laws.specs.Tests.{count_below};
ghost use Rattle.program_form.specs.Points.{IsScaledPoint};
ghost use Rattle.sporadic_model.specs.SetDef.{SetDef};
ghost use Rattle.sporadic_model.specs.Accepted.{IsAccepted};
ghost use Rattle.schedule_model.specs.JobDef.{job_of};
ghost use Rattle.schedule_model.specs.LawfulJobs.{AreLawfulJobs, IsLawfulJob};
ghost use Rattle.schedule_model.specs.RowDef.{RowDef, Trace, jobs_of};
ghost use Rattle.schedule_model.specs.Activity.{task_of};
ghost use Rattle.schedule_model.specs.Keeping.{KeepsRow, KeepsBefore};
ghost use Rattle.schedule_model.specs.BlockedTicks.{is_blocked};
ghost use Rattle.schedule_model.specs.Seen.{row_seen};
ghost use Rattle.phase_machine.specs.MachineDef.{under};
ghost use Rattle.phase_machine.specs.Shows.{Shows};
ghost use Rattle.phase_machine.specs.Taking.{IsRowFor};
ghost use Rattle.blocking_columns.specs.ColumnDef.{ColumnDef};
ghost use Rattle.program_laws.specs.Programs.{cost_of};
ghost use Rattle.charge_laws.specs.Charges.{Charge};
ghost use Rattle.charge_laws.specs.ChargedTicks.{IsCharged};
ghost use Rattle.charge_laws.specs.Interferers.{interferes_with_some};
ghost use Rattle.charge_laws.specs.Windows.{bound_end, EndedWithin};
ghost use Rattle.charge_laws.specs.Fractions.{product_of_lengths, fractions_of};
ghost use Rattle.charge_laws.specs.Stretches.{StaysCharged};
ghost use Rattle.charged_protocols.specs.Seen.{charge_seen};

use blocking_columns::Class;
use phase_machine::{Judge, Machine};
use program_sources::ProgramSource;
use schedule_model::{JobId, Row};

/// A locking protocol that charges its blocked ticks to requests, and whose programs bound what can be charged. The programs are those of
/// its [`ProgramSource`]. Bounds are in ticks, one for each task.
pub trait ChargedProtocol: Judge + ProgramSource {
    /// The columns of a task's program: the requests of other tasks that may block it, and how.
    ghost columns_of: { Self → SetDef → ℕ → List ColumnDef };

    /// To what is a tick charged for a job? To nothing if it isn't blocked.
    ghost charges: { Self → Trace → ℕ → ℕ → Option Charge };

    /// In a row that keeps the rules: the job to whose request the tick is charged, and the way in which the request blocks job `j`. The
    /// machine's phase of that job tells the request. None exactly if the tick isn't blocked for `j`. It takes no memory.
    fn charged(&self, machine: &Machine, row: &Row, j: JobId) -> Option<(JobId, Class)>
        requires suits { Self.suits self.now machine.now.list.set }
        requires fits { IsRowFor machine.now.list (row_seen row.now) }
        requires listed { j.0 < length machine.now.list.jobs }
        ensures value { (rows : ℕ → RowDef) → Shows machine.now rows → rows machine.now.tick ≡ row_seen row.now
            → KeepsRow (Self.keeps self.now) (under machine.now rows) machine.now.tick
            → charge_seen result ≡ charges self.now (under machine.now rows) machine.now.tick j.0 }
        ensures none { (rows : ℕ → RowDef) → Shows machine.now rows → rows machine.now.tick ≡ row_seen row.now
            → KeepsRow (Self.keeps self.now) (under machine.now rows) machine.now.tick
            → (result ≡ None) ↔ (is_blocked (Self.interferes self.now) (under machine.now rows) machine.now.tick j.0 ≡ false) }
        ensures listed { IfSome result (λ c. c.0.0 < length machine.now.list.jobs) };

    /// It is a source of programs for each set that suits it.
    ghost served: { (p : Self) (set : SetDef) → Self.suits p set → Self.serves p set };

    /// The program has one column for each of these. It is worth the length of the column's requests.
    ghost worth: { (p : Self) (set : SetDef) (i : ℕ) (bounds : List ℕ) → Self.suits p set → i < length set.tasks
        → ((Self.source p set).program i bounds).costs ≡ map (cost_of set) (columns_of p set i) };

    /// In a lawful schedule a lawful job interferes with others at no more ticks than its task's interfering cost.
    ghost interferes_within: { (p : Self) (w : Trace) (n y : ℕ) → Self.suits p w.set → KeepsBefore (Self.keeps p) w n
        → IsLawfulJob w.set (job_of w.jobs y)
        → count_below n (λ t. interferes_with_some (Self.interferes p) w t y) ≤ (Self.source p w.set).interfering (task_of w y) };

    /// In a lawful schedule each blocked tick is charged to one request, which executes at that tick, in a column of the job's program.
    ghost charges_blocked: { (p : Self) (w : Trace) (n t j : ℕ) → Self.suits p w.set → AreLawfulJobs (jobs_of w)
        → KeepsBefore (Self.keeps p) w n → t < n → is_blocked (Self.interferes p) w t j ≡ true
        → IsCharged (charges p) (columns_of p w.set (task_of w j)) w t j };

    /// No other tick is charged.
    ghost charges_only: { (p : Self) (w : Trace) (t j : ℕ) (charge : Charge) → charges p w t j ≡ Some charge
        → is_blocked (Self.interferes p) w t j ≡ true };

    /// Each tick of a steady stretch that begins with a lawful row is charged as its first tick is: for each job to the same job in the
    /// same way, or to nothing. No phase ends within the stretch, so it is the same request.
    ghost stays_charged: { (p : Self) → StaysCharged (Self.suits p) (Self.keeps p) (charges p) };

    /// Charges meet the rows. Take a job in a lawful schedule of an accepted set. Let each job whose release plus bound is less than this
    /// job's, and at most the number of rows, be finished by its own release plus its bound. Then the fractions of this job's window meet
    /// every row of its program.
    ghost meets_rows: { (p : Self) (w : Trace) (bounds : List ℕ) (n j : ℕ) → Self.suits p w.set → IsAccepted w.set
        → AreLawfulJobs (jobs_of w) → KeepsBefore (Self.keeps p) w n → j < length w.jobs
        → EndedWithin w (slice_index bounds) (bound_end w (slice_index bounds) j) n
        → IsScaledPoint ((Self.source p w.set).program (task_of w j) bounds) (product_of_lengths w.set (columns_of p w.set (task_of w j)))
        (fractions_of (charges p) w (slice_index bounds) n j (columns_of p w.set (task_of w j))) };
}
