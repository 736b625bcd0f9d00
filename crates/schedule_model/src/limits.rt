/// The greatest number of jobs in a list.
pub const MOST_JOBS: u64 = 100_000;

/// The greatest number of script segments over all jobs of a list.
pub const MOST_SEGMENTS: u64 = 1_000_000;
