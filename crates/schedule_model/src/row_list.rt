ghost use Rattle.std.specs.Prelude.{◌≡◌, ℕ, ◌<◌, ◌≤◌, IsTrue, true, false, length, map, slice_index_or};
ghost use Rattle.std.specs.List.{list_all};
ghost use Rattle.schedule_model.specs.JobDef.{JobsDef};
ghost use Rattle.schedule_model.specs.RowDef.{ticks_of};
ghost use Rattle.schedule_model.specs.Fitting.{RunJudged, IsRowList, IsMadeFor, rows_for, is_sized, names_below};
ghost use Rattle.schedule_model.specs.Fitting.{names_jobs, is_below, is_fitting, first_refusal, fits_row};
ghost use Rattle.schedule_model.specs.Seen.{row_seen, run_seen, place_seen};

use crate::job::JobId;
use crate::job_list::JobList;
use crate::refusal::RowRefusal;
use crate::row::{Row, RowRun};
use sporadic_model::MOST_TICKS;
use std::alloc::Global;
use std::marker::Model;

/// Rows for a list of jobs, as runs of equal rows.
#[derive(Drop)]
pub struct RowList {
    processors: u32,
    resources: u32,
    jobs: u32,
    runs: Vec<RowRun>,
    ticks: u64,
}

impl Model for RowList {
    ghost use Rattle.schedule_model.specs.Fitting.{RowsDef};

    ghost Value = { RowsDef };

    ghost use Rattle.schedule_model.specs.ListViews.{rows_view, IsRowsKept};

    ghost view = { rows_view };

    ghost invariant = { IsRowsKept };
}

impl RowList {
    /// A list without rows. It is made for the processors and resources of the jobs' set, and for the jobs that are listed now.
    pub fn new(alloc: Global, jobs: &JobList) -> RowList
        ensures value { result ≡ rows_for jobs.now }
        ensures made { IsMadeFor result jobs.now }
    {
        RowList {
            processors: jobs.set().processors(),
            resources: jobs.set().resources(),
            jobs: jobs.len(),
            runs: Vec::new(alloc),
            ticks: 0,
        }
    }

    /// Takes the run into the list, at its end, or names the first refusal that is due. The refusals are tried in the order of
    /// [`RowRefusal`]. After a refusal the list is as it was.
    pub fn push(&mut self, run: RowRun) -> Result<(), RowRefusal>
        requires { IsTrue (is_sized self.old.processors self.old.resources (run_seen run).row) }
        ensures value { RunJudged result self.old self.new (run_seen run) }
        ensures made { (list : JobsDef) → IsMadeFor self.old list → IsMadeFor self.new list }
    {
        if run.ticks < 1 || run.ticks > MOST_TICKS {
            return Err(RowRefusal::Number);
        }
        if !names_only(&run.row, self.jobs) {
            return Err(RowRefusal::UnknownJob);
        }
        if run.ticks > MOST_TICKS - self.ticks {
            return Err(RowRefusal::TooLong);
        }
        let ticks = self.ticks + run.ticks;
        self.runs.push(run)?;
        self.ticks = ticks;
        Ok(())
    }

    /// Has each row one place for each processor and each resource of the jobs' set, and does it name only jobs of the list? A row list
    /// that was made for a job list fits it, and still fits it with more jobs.
    pub fn fits(&self, jobs: &JobList) -> bool
        ensures value { result ≡ is_fitting self.now jobs.now }
        ensures made { IsMadeFor self.now jobs.now → result ≡ true }
    {
        let set = jobs.set();
        all_fit(&self.runs, set.processors(), set.resources(), jobs.len())
    }

    /// How many ticks the rows last, at most 10^9.
    pub fn ticks(&self) -> u64
        ensures value { result ≡ ticks_of self.now.runs }
        ensures listed { IsRowList self.now }
        ensures most { result ≤ MOST_TICKS }
    {
        self.ticks
    }

    /// The rows of every list fit its sizes, and are within the limits of lists. This call says so in a proof, and does nothing.
    pub fn keeps_its_rules(&self)
        ensures { IsRowList self.now }
    {
        // a proof knows what every list keeps once a field is read
        let _runs = &self.runs;
    }

    /// The runs, in order.
    pub fn runs(&self) -> &[RowRun]
        ensures value { map run_seen result.now ≡ self.now.runs }
        ensures listed { IsRowList self.now }
    {
        &self.runs
    }
}

/// Do these places name only jobs whose number is below this?
fn name_below(places: &[Option<JobId>], jobs: u32) -> bool
    ensures { result ≡ names_below jobs (map place_seen places.now) }
{
    places.iter().all(|place| match place {
        Some(job) => job.0 < jobs,
        None => true,
    })
}

/// Does the row name only jobs whose number is below this?
fn names_only(row: &Row, jobs: u32) -> bool
    ensures { result ≡ names_jobs jobs (row_seen row.now) }
{
    name_below(&row.running, jobs) && name_below(&row.holders, jobs)
}

/// Has the row a place for each of this many processors and resources, and does it name only jobs whose number is below this?
fn fits_sizes(row: &Row, processors: u32, resources: u32, jobs: u32) -> bool
    ensures { result ≡ fits_row processors resources jobs (row_seen row.now) }
{
    row.running.len() == processors as usize
        && row.holders.len() == resources as usize
        && names_only(row, jobs)
}

fn all_fit(runs: &[RowRun], processors: u32, resources: u32, jobs: u32) -> bool
    ensures { result ≡ list_all (λ run. fits_row processors resources jobs run.row) (map run_seen runs.now) }
{
    runs.iter()
        .all(|run| fits_sizes(&run.row, processors, resources, jobs))
}
