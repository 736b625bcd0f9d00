/// A task, by its position in the set, counted from 0. A lower position is a higher base priority.
#[derive(Clone, Copy, Debug, PartialEq, Eq, PartialOrd, Ord)]
pub struct TaskId(pub u32);

/// A resource, by its position in the set, counted from 0.
#[derive(Clone, Copy, Debug, PartialEq, Eq)]
pub struct ResourceId(pub u32);

/// A suspension-based locking protocol under partitioned fixed priorities.
#[derive(Clone, Copy, Debug, PartialEq, Eq)]
pub enum Protocol {
    /// The multiprocessor priority ceiling protocol.
    Mpcp,
    /// The FIFO multiprocessor locking protocol in its partitioned form.
    FmlpPlus,
    /// The distributed priority ceiling protocol.
    Dpcp,
}
