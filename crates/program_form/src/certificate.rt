/// A solution of the dual of a task's program. The multiplier of row `r` is `num[r]` over `den`.
#[derive(Debug, Drop)]
pub struct Dual {
    /// The denominator, at least 1.
    pub den: u64,
    /// The numerators, one for each row of the program.
    pub num: Vec<u64>,
}

/// A claim that every deadline is met. It has a bound on the response time of each task, and a dual of the task's program at these bounds.
#[derive(Debug, Drop)]
pub struct Certificate {
    /// The bounds, one for each task, in ticks.
    pub bounds: Vec<u64>,
    /// The duals, one for each task.
    pub duals: Vec<Dual>,
}
