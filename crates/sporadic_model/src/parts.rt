/// The parts of a task set, not yet checked.
#[derive(Debug, Drop)]
pub struct Parts {
    /// How many processors there are. They are numbered from 1.
    pub processors: u64,
    /// The resources that its tasks share.
    pub resources: Vec<ResourcePart>,
    /// The tasks from the highest base priority to the lowest.
    pub tasks: Vec<TaskPart>,
}

/// A resource that tasks share.
#[derive(Debug, Drop)]
pub struct ResourcePart {
    /// The resource's name, which no other resource of the set has.
    pub name: String,
    /// The processor that runs its requests, under a protocol that needs one. Processors are numbered from 1.
    pub home: Option<u64>,
}

/// A sporadic task. Its times are in ticks.
#[derive(Debug, Drop)]
pub struct TaskPart {
    /// The task's name, which no other task of the set has.
    pub name: String,
    /// The processor that its jobs run on, counted from 1.
    pub processor: u64,
    /// The least time between the arrivals of two jobs.
    pub period: u64,
    /// The greatest time from the arrival of a job to its end, at most the period.
    pub deadline: u64,
    /// The greatest number of ticks that one job executes, at most the deadline.
    pub cost: u64,
    /// The greatest number of ticks that one job executes outside its requests, at most the cost.
    pub local: u64,
    /// The greatest time from the arrival of a job to its release, at most the deadline less the cost.
    /// 0 where each job is released as it arrives.
    pub jitter: u64,
    /// The request entries, one for each resource that its jobs request.
    pub requests: Vec<RequestPart>,
}

/// A task's request entry for one resource.
#[derive(Debug, Drop)]
pub struct RequestPart {
    /// The resource's name.
    pub resource: String,
    /// The greatest number of requests of one job.
    pub count: u64,
    /// The greatest number of ticks of one request, below the task's cost.
    pub length: u64,
}
