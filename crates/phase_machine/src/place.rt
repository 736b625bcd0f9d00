/// How far a task is: where the first of its jobs that isn't finished is in its script.
#[derive(Clone, Copy, Debug, PartialEq, Eq)]
pub struct ScriptPlace {
    /// The number of that job in the list. If all jobs of the task are finished, it is the number of jobs.
    pub job: u32,
    /// The segment of its script that the job is in, counted from 0.
    pub segment: u32,
    /// The ticks of that segment that the job has executed.
    pub ticks: u64,
    /// The tick at which the job's request was issued, if it is in one.
    pub issued: u64,
}
