//! Resources that pass a test, as tables.

ghost use Rattle.std.specs.Prelude.{◌≡◌, ℕ, ◌<◌, Bool, length, IfOk};
ghost use Rattle.sporadic_model.specs.SetDef.{SetDef};
ghost use Rattle.spin_protocol.specs.Tables.{Tells};

use sporadic_model::{ResourceId, TaskId, TaskSet};
use std::alloc::{AllocError, Global};

/// A test of resources, for a set and an analysed task.
pub trait ResourceTest {
    /// What it needs of the set and the task.
    ghost fits: { Self → SetDef → ℕ → Type 0 };

    /// Which resources pass?
    ghost passes: { Self → SetDef → ℕ → ℕ → Bool };

    /// Does the resource pass?
    fn test(&self, set: &TaskSet, i: TaskId, q: ResourceId) -> bool
        requires fits { fits self.now set.now i.0 }
        requires resource { q.0 < length set.now.resources }
        ensures { result ≡ passes self.now set.now i.0 q.0 };
}

/// By resource, whether it passes the test.
pub fn table_of<R: ResourceTest>(
    alloc: Global,
    set: &TaskSet,
    i: TaskId,
    test: &R,
) -> Result<Vec<bool>, AllocError>
    requires { R.fits test.now set.now i.0 }
    ensures { IfOk result (λ v. Tells (length set.now.resources) (R.passes test.now set.now i.0) v.items) }
{
    let mut table = Vec::with_capacity(alloc, set.resources() as usize)?;
    for q in 0..set.resources() {
        table.push(test.test(set, i, ResourceId(q)))?;
    }
    Ok(table)
}
