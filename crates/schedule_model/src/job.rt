use sporadic_model::{ResourceId, TaskId};

/// A job, by its position in the list of jobs, counted from 0.
#[derive(Clone, Copy, Debug, PartialEq, Eq, PartialOrd, Ord)]
pub struct JobId(pub u32);

/// A segment of a job's script: ticks outside requests, and then a request or none.
#[derive(Clone, Copy, Debug, PartialEq, Eq)]
pub struct Segment {
    /// The local ticks, which are outside requests: from 1 to 10^9.
    pub local: u64,
    /// The resource that is then requested, and the ticks of the request, from 1 to 10^9. Only a script's last segment may have no request.
    pub request: Option<(ResourceId, u64)>,
}

/// A job of a task. It is released no earlier than it arrives, and by at most its task's jitter later.
#[derive(Debug, Drop)]
pub struct Job {
    /// The job's task.
    pub task: TaskId,
    /// The tick at which the job arrives. Its deadline counts from here.
    pub arrival: u64,
    /// The tick at which the job is released, at most 10^9. From here it may run, and its response counts from here.
    pub release: u64,
    /// What the job does, segment after segment.
    pub script: Vec<Segment>,
}
