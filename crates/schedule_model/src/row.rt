use crate::job::JobId;

/// One tick of a schedule.
#[derive(Debug, Drop, PartialEq, Eq)]
pub struct Row {
    /// The job that runs on each processor, in the order of the processors, or none.
    pub running: Vec<Option<JobId>>,
    /// The job that holds each resource, in the order of the resources, or none.
    pub holders: Vec<Option<JobId>>,
}

/// A row and how many ticks on end it lasts.
#[derive(Debug, Drop)]
pub struct RowRun {
    /// How many ticks the row lasts, from 1 to 10^9.
    pub ticks: u64,
    /// What happens at each of these ticks.
    pub row: Row,
}
