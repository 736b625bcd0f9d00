use crate::{EntryRow, SetRow, entry_rows, task_row};

/// Two tasks that share a resource, each on a processor of its own.
pub const PAIR: SetRow = SetRow {
    processors: 2,
    homes: &[Some(2)],
    tasks: &[task_row!(1, 10, 3, [(0, 1)]), task_row!(2, 10, 4, [(0, 2)])],
};

/// A task without requests, above another one of its processor. The other one requests a resource that a third task requests elsewhere.
pub const BESIDE: SetRow = SetRow {
    processors: 2,
    homes: &[None],
    tasks: &[
        task_row!(1, 10, 2, []),
        task_row!(1, 20, 4, [(0, 2)]),
        task_row!(2, 20, 5, [(0, 3)]),
    ],
};

/// Three tasks, each on a processor of its own. The first two request both resources, the third the first one. Under MPCP the
/// optimum of the first task's program is 14/3.
pub const THREE: SetRow = SetRow {
    processors: 3,
    homes: &[None, None],
    tasks: &[
        task_row!(1, 100, 4, [(0, 1), (1, 1)]),
        task_row!(2, 100, 4, [(0, 3), (1, 2)]),
        task_row!(3, 100, 3, [(0, 2)]),
    ],
};

/// One request of each of four resources.
pub const FOUR: &[EntryRow] = entry_rows![(0, 1), (1, 1), (2, 1), (3, 1)];
