ghost use Rattle.std.specs.Prelude.{◌≡◌, length, slice_index, ◌↔◌, IsTrue};
ghost use Rattle.charge_laws.specs.Windows.{AreBounds};

use sporadic_model::{TaskId, TaskSet};

/// Has each task a bound, from 1 to its latest bound?
pub fn are_bounds(set: &TaskSet, bounds: &[u64]) -> bool
    ensures { IsTrue result ↔ ((length bounds.now ≡ length set.now.tasks) × AreBounds set.now (slice_index bounds.now)) }
{
    if bounds.len() != set.tasks() as usize {
        return false;
    }
    for i in 0..set.tasks() {
        let bound = bounds[i as usize];
        if bound == 0 || bound > set.latest_bound(TaskId(i)) {
            return false;
        }
    }
    true
}
