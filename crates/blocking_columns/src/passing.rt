ghost use Rattle.std.specs.Prelude.{◌≡◌, ℕ, ◌<◌, map, length, OnOk, IfOk, Bool, [], ◌∷◌};
ghost use Rattle.std.specs.List.{filter};
ghost use Rattle.sporadic_model.specs.SetDef.{SetDef};
ghost use Rattle.blocking_columns.specs.ColumnDef.{ColumnDef, column_seen, classes_of, Gains};
ghost use Rattle.blocking_columns.specs.Columns.{columns_where, requests_where, AreRequests};
ghost use Rattle.blocking_columns.specs.Given.{AreTwoTasks, AreTaskAndUser};

use crate::columns::{Class, Fragment, column, most_columns};
use sporadic_model::{ResourceId, TaskId, TaskSet};
use std::alloc::{AllocError, Global};

/// A test of the columns of the blocking program of a task `i`.
pub trait ColumnTest {
    /// Which columns pass, for a set and the analysed task?
    ghost passes: { Self → SetDef → ℕ → ColumnDef → Bool };

    /// Can it judge the columns that are requests of the task with the last number, for a set and the analysed task?
    ghost fits: { Self → SetDef → ℕ → ℕ → Type 0 };

    /// Only requests of a resource that their task uses pass.
    ghost requests: { (t : Self) (set : SetDef) (i : ℕ) → AreRequests (passes t set i) set };

    /// Does the column pass?
    fn test(&self, set: &TaskSet, i: TaskId, column: Fragment) -> bool
        requires fits { fits self.now set.now i.0 column.task.0 }
        requires user { AreTaskAndUser set.now i.0 column.task.0 column.resource.0 }
        ensures { result ≡ passes self.now set.now i.0 (column_seen column) };
}

// Adds the column, if it passes.
fn add_column<T: ColumnTest>(
    columns: &mut Vec<Fragment>,
    test: &T,
    set: &TaskSet,
    i: TaskId,
    c: Fragment,
) -> Result<(), AllocError>
    requires fits { T.fits test.now set.now i.0 c.task.0 }
    requires user { AreTaskAndUser set.now i.0 c.task.0 c.resource.0 }
    ensures { OnOk result (Gains columns.old.items columns.new.items (filter (T.passes test.now set.now i.0) (column_seen c ∷ []))) }
{
    if test.test(set, i, c) {
        columns.push(c)?;
    }
    Ok(())
}

// Adds the columns of the requests of `q` by `x`, which uses it, that pass.
fn add_classes<T: ColumnTest>(
    columns: &mut Vec<Fragment>,
    test: &T,
    set: &TaskSet,
    i: TaskId,
    x: TaskId,
    q: ResourceId,
) -> Result<(), AllocError>
    requires fits { T.fits test.now set.now i.0 x.0 }
    requires user { AreTaskAndUser set.now i.0 x.0 q.0 }
    ensures { OnOk result (Gains columns.old.items columns.new.items (filter (T.passes test.now set.now i.0) (classes_of x.0 q.0))) }
{
    add_column(columns, test, set, i, column(x, q, Class::Direct))?;
    add_column(columns, test, set, i, column(x, q, Class::Indirect))?;
    add_column(columns, test, set, i, column(x, q, Class::Preemption))
}

// Adds the columns of the requests by task `x` that pass.
fn add_task<T: ColumnTest>(
    columns: &mut Vec<Fragment>,
    test: &T,
    set: &TaskSet,
    i: TaskId,
    x: TaskId,
) -> Result<(), AllocError>
    requires fits { T.fits test.now set.now i.0 x.0 }
    requires tasks { AreTwoTasks set.now i.0 x.0 }
    ensures { OnOk result (Gains columns.old.items columns.new.items (requests_where (T.passes test.now set.now i.0) set.now x.0)) }
{
    let used = set.used_by(x);
    for q in used {
        add_classes(columns, test, set, i, x, *q)?;
    }
    Ok(())
}

/// The columns of the set that pass the test, in order of the task, then the resource, then the class.
pub fn fragments_where<T: ColumnTest>(
    alloc: Global,
    test: &T,
    set: &TaskSet,
    i: TaskId,
) -> Result<Vec<Fragment>, AllocError>
    requires fits { (x : ℕ) → x < length set.now.tasks → T.fits test.now set.now i.0 x }
    requires task { i.0 < length set.now.tasks }
    ensures { IfOk result (λ v. map column_seen v.items ≡ columns_where (T.passes test.now set.now i.0) set.now) }
{
    let mut columns = Vec::with_capacity(alloc, most_columns(set))?;
    for x in 0..set.tasks() {
        add_task(&mut columns, test, set, i, TaskId(x))?;
    }
    Ok(columns)
}
