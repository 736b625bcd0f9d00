/// An entry of a task for a resource.
#[derive(Clone, Copy, Debug)]
pub struct EntryRow {
    /// The number of the resource among those of the set, from 0.
    pub resource: u64,
    /// The greatest number of requests of one job.
    pub count: u64,
    /// The greatest number of ticks of one request.
    pub length: u64,
}

/// A task, whose deadline is its period.
#[derive(Clone, Copy, Debug)]
pub struct TaskRow<'a> {
    /// The processor that its jobs run on, from 1.
    pub processor: u64,
    /// The least number of ticks between two arrivals.
    pub period: u64,
    /// The greatest number of ticks that a job executes.
    pub cost: u64,
    /// The greatest number of ticks that a job executes outside its requests.
    pub local: u64,
    /// The greatest number of ticks from a job's arrival to its release.
    pub jitter: u64,
    /// Its entries for resources.
    pub entries: &'a [EntryRow],
}

/// A set: how many processors it has, the home of each of its resources, and its tasks.
#[derive(Clone, Copy, Debug)]
pub struct SetRow<'a> {
    /// How many processors it has.
    pub processors: u64,
    /// The home of each resource, if it has one: a processor, from 1.
    pub homes: &'a [Option<u64>],
    /// Its tasks, from the highest base priority to the lowest.
    pub tasks: &'a [TaskRow<'a>],
}

/// Entries, each by the number of its resource and the length of a job's one request.
#[macro_export]
macro_rules! entry_rows {
    ($(($resource:expr, $length:expr)),* $(,)?) => {
        &[$($crate::EntryRow { resource: $resource, count: 1, length: $length }),*]
    };
}

/// The row of a task without jitter, from its processor, its period, its cost, which is its local limit too, and its entries. Or, in
/// brackets, the number of each entry's resource and the length of a job's one request.
#[macro_export]
macro_rules! task_row {
    ($processor:expr, $period:expr, $cost:expr, [$(($resource:expr, $length:expr)),* $(,)?] $(,)?) => {
        $crate::task_row!($processor, $period, $cost, $crate::entry_rows!($(($resource, $length)),*))
    };
    ($processor:expr, $period:expr, $cost:expr, $entries:expr $(,)?) => {
        $crate::TaskRow {
            processor: $processor,
            period: $period,
            cost: $cost,
            local: $cost,
            jitter: 0,
            entries: $entries,
        }
    };
}
