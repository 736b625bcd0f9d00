use blocking_columns::Class;
use sporadic_model::Protocol;
use worked_sets::{BESIDE, EntryRow, SetRow, THREE, TaskRow, task_row};

/// A task's program: the set, the protocol, the task and the bounds. And what is expected: the columns with their costs, and the rows with
/// their limits.
pub(crate) struct Case {
    pub set: SetRow<'static>,
    pub protocol: Protocol,
    pub task: u32,
    pub bounds: &'static [u64],
    pub columns: &'static [(u32, u32, Class, u64)],
    pub rows: &'static [&'static [u64]],
    pub limits: &'static [u64],
}

/// Two tasks with their requests on the third processor.
pub(crate) const HOMES: SetRow = SetRow {
    processors: 3,
    homes: &[Some(3), Some(3)],
    tasks: &[
        task_row!(1, 20, 4, [(0, 1), (1, 1)]),
        task_row!(2, 20, 4, [(0, 2)]),
    ],
};

/// The same home, but no task requests what the other does.
pub(crate) const APART: SetRow = SetRow {
    processors: 3,
    homes: &[Some(3), Some(3)],
    tasks: &[task_row!(1, 20, 4, [(0, 1)]), task_row!(2, 20, 4, [(1, 2)])],
};

/// Paths. The fourth task requests the first resource, as two higher tasks and a lower one of the second processor do. The fifth task,
/// which runs there too, requests the second resource, as the third task does, on the first processor. The second processor sees the third
/// task as the ceiling of the second resource, and the fourth as that of the first. (The plain ceilings are the third task and the first.
/// By them there would be no path.)
pub(crate) const PATHS: SetRow = SetRow {
    processors: 2,
    homes: &[None, None],
    tasks: &[
        task_row!(2, 100, 10, [(0, 2)]),
        task_row!(2, 100, 10, [(0, 3)]),
        task_row!(1, 100, 10, [(1, 1)]),
        task_row!(1, 100, 10, [(0, 1)]),
        task_row!(2, 100, 10, [(1, 4)]),
        task_row!(2, 100, 10, [(0, 5)]),
    ],
};

/// The same, but the third task requests both resources. So the second processor sees it as the ceiling of both.
pub(crate) const LEVEL: SetRow = SetRow {
    processors: 2,
    homes: &[None, None],
    tasks: &[
        task_row!(2, 100, 10, [(0, 2)]),
        task_row!(2, 100, 10, [(0, 3)]),
        task_row!(1, 100, 10, [(0, 1), (1, 1)]),
        task_row!(1, 100, 10, [(0, 1)]),
        task_row!(2, 100, 10, [(1, 4)]),
        task_row!(2, 100, 10, [(0, 5)]),
    ],
};

/// The same, but the third task requests only the first resource: the ceiling of the second is the fifth task.
pub(crate) const BELOW: SetRow = SetRow {
    processors: 2,
    homes: &[None, None],
    tasks: &[
        task_row!(2, 100, 10, [(0, 2)]),
        task_row!(2, 100, 10, [(0, 3)]),
        task_row!(1, 100, 10, [(0, 1)]),
        task_row!(1, 100, 10, [(0, 1)]),
        task_row!(2, 100, 10, [(1, 4)]),
        task_row!(2, 100, 10, [(0, 5)]),
    ],
};

/// Two tasks of one processor. The higher executes at most 2 of its 4 ticks outside of requests.
pub(crate) const LOCAL: SetRow = SetRow {
    processors: 2,
    homes: &[Some(2)],
    tasks: &[
        TaskRow {
            processor: 1,
            period: 10,
            cost: 4,
            local: 2,
            jitter: 0,
            entries: &[EntryRow {
                resource: 0,
                count: 1,
                length: 2,
            }],
        },
        task_row!(1, 20, 5, []),
    ],
};

const PATH_COLUMNS: &[(u32, u32, Class, u64)] = &[
    (0, 0, Class::Direct, 2),
    (1, 0, Class::Direct, 3),
    (4, 1, Class::Indirect, 4),
    (5, 0, Class::Direct, 5),
];

// Four rows of requests, four of time, lower holders of the first resource, and the holdings of others on the fifth task's processor: one
// request of each of the two higher tasks, and one that the sixth task holds when the fourth task's is issued.
const PATH_ROWS: &[&[u64]] = &[
    &[1, 0, 0, 0],
    &[0, 1, 0, 0],
    &[0, 0, 1, 0],
    &[0, 0, 0, 1],
    &[2, 0, 0, 0],
    &[0, 3, 0, 0],
    &[0, 0, 4, 0],
    &[0, 0, 0, 5],
    &[0, 0, 0, 1],
    &[0, 0, 1, 0],
];

const PATH_LIMITS: &[u64] = &[1, 1, 1, 1, 10, 10, 10, 10, 1, 3];

pub(crate) const CASES: &[Case] = &[
    Case {
        set: THREE,
        protocol: Protocol::Mpcp,
        task: 0,
        bounds: &[4, 4, 3],
        columns: &[
            (1, 0, Class::Direct, 3),
            (1, 1, Class::Direct, 2),
            (2, 0, Class::Direct, 2),
        ],
        rows: &[
            &[1, 0, 0],
            &[0, 1, 0],
            &[0, 0, 1],
            &[3, 2, 0],
            &[0, 0, 2],
            &[1, 0, 1],
            &[0, 1, 0],
        ],
        limits: &[1, 1, 1, 4, 3, 1, 1],
    },
    Case {
        set: HOMES,
        protocol: Protocol::Dpcp,
        task: 0,
        bounds: &[4, 4],
        columns: &[(1, 0, Class::Direct, 2), (1, 0, Class::Indirect, 2)],
        rows: &[&[1, 1], &[2, 2], &[1, 1]],
        limits: &[1, 4, 2],
    },
    Case {
        set: HOMES,
        protocol: Protocol::Dpcp,
        task: 1,
        bounds: &[4, 4],
        columns: &[(0, 0, Class::Direct, 1), (0, 1, Class::Indirect, 1)],
        rows: &[&[1, 0], &[0, 1], &[1, 1]],
        limits: &[1, 1, 4],
    },
    Case {
        set: BESIDE,
        protocol: Protocol::FmlpPlus,
        task: 0,
        bounds: &[2, 4, 5],
        columns: &[(1, 0, Class::Preemption, 2)],
        rows: &[&[1], &[2], &[1]],
        limits: &[1, 4, 1],
    },
    // the second resource's ceiling is lower than the first task
    Case {
        set: APART,
        protocol: Protocol::Dpcp,
        task: 0,
        bounds: &[4, 4],
        columns: &[],
        rows: &[],
        limits: &[],
    },
    // a higher task's requests block whatever the ceiling is; there is no row of lower tasks
    Case {
        set: APART,
        protocol: Protocol::Dpcp,
        task: 1,
        bounds: &[4, 4],
        columns: &[(0, 0, Class::Indirect, 1)],
        rows: &[&[1], &[1]],
        limits: &[1, 4],
    },
    Case {
        set: PATHS,
        protocol: Protocol::Mpcp,
        task: 3,
        bounds: &[10, 10, 10, 10, 10, 10],
        columns: PATH_COLUMNS,
        rows: PATH_ROWS,
        limits: PATH_LIMITS,
    },
    Case {
        set: LEVEL,
        protocol: Protocol::Mpcp,
        task: 3,
        bounds: &[10, 10, 10, 10, 10, 10],
        columns: PATH_COLUMNS,
        rows: PATH_ROWS,
        limits: PATH_LIMITS,
    },
    Case {
        set: BELOW,
        protocol: Protocol::Mpcp,
        task: 3,
        bounds: &[10, 10, 10, 10, 10, 10],
        columns: &[
            (0, 0, Class::Direct, 2),
            (1, 0, Class::Direct, 3),
            (5, 0, Class::Direct, 5),
        ],
        rows: &[
            &[1, 0, 0],
            &[0, 1, 0],
            &[0, 0, 1],
            &[2, 0, 0],
            &[0, 3, 0],
            &[0, 0, 5],
            &[0, 0, 1],
        ],
        limits: &[1, 1, 1, 10, 10, 10, 1],
    },
    // under FMLP+ for the second task of the processor: turns, and a queue of one request; two jobs of the third task, whose bounds sum to
    // 24, run in the window
    Case {
        set: BESIDE,
        protocol: Protocol::FmlpPlus,
        task: 1,
        bounds: &[2, 11, 13],
        columns: &[(2, 0, Class::Direct, 3)],
        rows: &[&[1], &[3], &[1], &[1]],
        limits: &[2, 10, 1, 1],
    },
];
