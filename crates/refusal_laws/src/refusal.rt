use program_form::Dual;

/// One step of a refusal. The point shows that at the bounds so far the task's response time is at least the value.
#[derive(Drop)]
pub struct RefusalStep {
    /// The task, counted from 1.
    pub task: u64,
    /// The task's next bound, in ticks.
    pub value: u64,
    /// A point of the task's program at the bounds so far: column `c` is `num[c]` over `den`.
    pub point: Dual,
}

/// A claim that no bounds within the deadlines satisfy the recurrence. Its steps raise the costs until a bound is above the latest one.
#[derive(Drop)]
pub struct Refusal {
    /// The steps, in their order.
    pub steps: Vec<RefusalStep>,
}
