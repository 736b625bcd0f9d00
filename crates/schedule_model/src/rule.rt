/// A rule that each row of a schedule keeps. The rules are tried in the order in which they are listed here.
#[derive(Clone, Copy, Debug, PartialEq, Eq)]
pub enum Rule {
    /// Which jobs may run, and in which column.
    Run,
    /// A holder stays the holder until its request ends.
    Keep,
    /// Which jobs may become holders, and which resources may have none.
    Grant,
    /// A processor that runs nothing has no job that could run there.
    Idle,
    /// Which one of the jobs that may run on a processor does run.
    Priority,
}
