/// The greatest number of processors.
pub const MOST_PROCESSORS: u64 = 64;

/// The greatest number of tasks.
pub const MOST_TASKS: u64 = 64;

/// The greatest number of resources.
pub const MOST_RESOURCES: u64 = 32;

/// The greatest number of request entries over all tasks.
pub const MOST_REQUESTS: u64 = 256;

/// The greatest period, deadline, cost, local limit or request length, in ticks.
pub const MOST_TICKS: u64 = 1_000_000_000;

/// The greatest number of requests of one entry.
pub const MOST_COUNT: u64 = 1000;

/// The greatest length of a name, in bytes.
pub const MOST_NAME: u64 = 32;
