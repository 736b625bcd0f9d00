ghost use Rattle.std.specs.Prelude.{◌≡◌, ℕ, ◌+◌, ◌<◌, nat_lt, length, OnOk};
ghost use Rattle.schedule_model.specs.Fitting.{RowsDef, IsRowList};
ghost use Rattle.schedule_model.specs.Seen.{run_seen};
ghost use Rattle.schedule_model.specs.ReadRuns.{run_of};

use crate::RowRun;
use std::alloc::AllocError;

/// A reader of the rows of a schedule, one run after another.
pub trait RowReader {
    /// All runs, and what the list of them was made for.
    ghost rows: { Self → RowsDef };

    /// The number of the run at which the reader is. Behind the last run it is the number of runs.
    ghost at: { Self → ℕ };

    /// Is the reader at a run?
    fn is_at_run(&self) -> bool
        ensures { result ≡ nat_lt (at self.now) (length (rows self.now).runs) };

    /// The run at which the reader is.
    fn run(&self) -> &RowRun
        requires { at self.now < length (rows self.now).runs }
        ensures { run_seen result.now ≡ run_of (rows self.now).runs (at self.now) };

    /// Goes to the next run. It fails only for want of memory.
    fn step(&mut self) -> Result<(), AllocError>
        requires { at self.old < length (rows self.old).runs }
        ensures rows { rows self.new ≡ rows self.old }
        ensures at { OnOk result (at self.new ≡ at self.old + 1) };

    /// The rows fit their sizes, and are within the limits of lists. This call says so in a proof, and does nothing.
    fn keeps_its_rules(&self)
        ensures { IsRowList (rows self.now) };
}
