//! Leaves out steps of a refusal that its last one doesn't need. What is left is confirmed before it is answered, so nothing rests on this.
//!
//! A step that holds at some bounds holds at greater ones. The walk goes back from the last step. A kept step needs some tasks' bounds, each
//! from some value on, and so the steps that raised them that far. The others may stay at their costs. Then each step that is left is tried
//! once more: if all that follow hold without it, it is left out.

ghost use Rattle.std.specs.Prelude.{IsTrue};
ghost use Rattle.sporadic_model.specs.Bounds.{IsInRange};

use crate::reached::copy_of;
use program_sources::ProgramSource;
use refusal_confirm::fault_of_point;
use refusal_laws::{Refusal, RefusalStep};
use response_fixpoint::costs;
use sporadic_model::{TaskId, TaskSet};
use std::alloc::{AllocError, Global};

/// How many tests the steps of a refusal get together. Each forms a program, and a long refusal of many tasks would want millions.
const MOST_TESTS: u32 = 5000;

/// A task, as the walk back finds it. All are bounds in ticks.
#[derive(Drop)]
struct Place {
    cost: u64,
    /// Its bound before the step at which the walk is.
    bound: u64,
    /// The least one with which the later steps do.
    needed: u64,
}

/// The bound of a task after these steps. The task is counted from 1.
fn bound_after(steps: &[RefusalStep], task: u64, cost: u64) -> u64 {
    match steps.iter().rev().find(|step| step.task == task) {
        Some(step) => step.value,
        None => cost,
    }
}

/// The bounds above `needed` that these steps give a task, behind `needed` itself. They rise. The task is counted from 1.
fn bounds_above(
    alloc: Global,
    steps: &[RefusalStep],
    task: u64,
    needed: u64,
) -> Result<Vec<u64>, AllocError> {
    let mut bounds = Vec::new(alloc);
    bounds.push(needed)?;
    for step in steps {
        if step.task == task && step.value > needed {
            bounds.push(step.value)?;
        }
    }
    Ok(bounds)
}

/// Has each task a bound from its cost to its latest one?
fn is_in_range(set: &TaskSet, bounds: &[u64]) -> bool
    ensures { IsTrue result → IsInRange set.now bounds.now }
{
    if bounds.len() != set.tasks() as usize {
        return false;
    }
    for i in 0..set.tasks() {
        let bound = bounds[i as usize];
        if bound < set.cost(TaskId(i)) || bound > set.latest_bound(TaskId(i)) {
            return false;
        }
    }
    true
}

fn put(bounds: &mut [u64], i: usize, value: u64) {
    if let Some(bound) = bounds.get_mut(i) {
        *bound = value;
    }
}

/// The value at this place, which is one of the list's.
fn value_at(values: &[u64], k: usize) -> u64 {
    match values.get(k) {
        Some(value) => *value,
        None => 0,
    }
}

/// The tests of steps.
#[derive(Drop)]
struct Tests {
    /// How many are left.
    left: u32,
}

impl Tests {
    /// Does the point of the step show its value at these bounds? Without a test that is left the answer is no, so that nothing more is
    /// left out.
    fn holds_at<P: ProgramSource>(
        &mut self,
        alloc: Global,
        set: &TaskSet,
        protocol: &P,
        step: &RefusalStep,
        bounds: &[u64],
    ) -> Result<bool, AllocError>
        requires serves { P.serves protocol.now set.now }
    {
        let is_named = step.task >= 1 && step.task <= u64::from(set.tasks());
        if self.left == 0 || !is_named || step.point.den == 0 || !is_in_range(set, bounds) {
            return Ok(false);
        }
        self.left -= 1;
        let task = TaskId((step.task - 1) as u32);
        let fault = fault_of_point(alloc, set, protocol, task, bounds, step)?;
        Ok(fault.is_none())
    }

    /// The first of these values that serves as the bound of task `i`, or the last one. Values that are greater serve too. `bounds` has the
    /// bounds of the other tasks.
    fn least_that_holds<P: ProgramSource>(
        &mut self,
        alloc: Global,
        set: &TaskSet,
        protocol: &P,
        step: &RefusalStep,
        values: &[u64],
        i: usize,
        bounds: &mut [u64],
    ) -> Result<u64, AllocError>
        requires serves { P.serves protocol.now set.now }
    {
        let mut low = 0;
        let mut high = values.len().saturating_sub(1);
        // mostly the first value serves
        let mut middle = 0;
        for _ in 0..usize::BITS + 1 {
            if low >= high {
                break;
            }
            put(bounds, i, value_at(values, middle));
            if self.holds_at(alloc, set, protocol, step, bounds)? {
                high = middle;
            } else {
                low = middle.saturating_add(1);
            }
            middle = low.saturating_add(high.saturating_sub(low) / 2);
        }
        Ok(value_at(values, high))
    }

    /// Do the steps behind step `k` hold without it?
    fn hold_without<P: ProgramSource>(
        &mut self,
        alloc: Global,
        set: &TaskSet,
        protocol: &P,
        steps: &[&RefusalStep],
        k: usize,
    ) -> Result<bool, AllocError>
        requires serves { P.serves protocol.now set.now }
    {
        let mut bounds = costs(alloc, set)?;
        for (j, step) in steps.iter().enumerate() {
            if j > k && !self.holds_at(alloc, set, protocol, step, &bounds)? {
                return Ok(false);
            }
            if j != k {
                put(
                    &mut bounds,
                    step.task.saturating_sub(1) as usize,
                    step.value,
                );
            }
        }
        Ok(true)
    }
}

/// The walk back over the steps: one place for each task.
#[derive(Drop)]
struct WalkBack {
    places: Vec<Place>,
}

impl WalkBack {
    /// The walk after the last step.
    fn new(alloc: Global, set: &TaskSet, steps: &[RefusalStep]) -> Result<WalkBack, AllocError> {
        let mut places = Vec::new(alloc);
        for i in 0..set.tasks() {
            let cost = set.cost(TaskId(i));
            let bound = bound_after(steps, u64::from(i) + 1, cost);
            places.push(Place {
                cost,
                bound,
                needed: cost,
            })?;
        }
        Ok(WalkBack { places })
    }

    /// Goes back over a step, which has these before it. Do later steps need more than they give its task?
    fn go_back(&mut self, step: &RefusalStep, earlier: &[RefusalStep]) -> bool {
        let i = step.task.saturating_sub(1) as usize;
        let Some(place) = self.places.get_mut(i) else {
            return false;
        };
        place.bound = bound_after(earlier, step.task, place.cost);
        if place.needed <= place.bound {
            return false;
        }
        place.needed = place.cost;
        true
    }

    /// Raises what is needed of the tasks' bounds to what the step needs too. It has these before it.
    fn find_needs<P: ProgramSource>(
        &mut self,
        alloc: Global,
        set: &TaskSet,
        protocol: &P,
        step: &RefusalStep,
        earlier: &[RefusalStep],
        tests: &mut Tests,
    ) -> Result<(), AllocError>
        requires serves { P.serves protocol.now set.now }
    {
        let least: Vec<u64> = self.places.iter().map(|p| p.needed).collect(alloc)?;
        if tests.holds_at(alloc, set, protocol, step, &least)? {
            return Ok(());
        }
        let mut bounds: Vec<u64> = self.places.iter().map(|p| p.bound).collect(alloc)?;
        for (i, place) in self.places.iter_mut().enumerate() {
            if place.needed >= place.bound {
                continue;
            }
            let values = bounds_above(alloc, earlier, i as u64 + 1, place.needed)?;
            place.needed = tests.least_that_holds(
                alloc,
                set,
                protocol,
                step,
                &values,
                i,
                &mut bounds,
            )?;
            put(&mut bounds, i, place.needed);
        }
        Ok(())
    }
}

/// The steps that the walk back keeps, the last one first.
fn needed_steps<'a, P: ProgramSource>(
    alloc: Global,
    set: &TaskSet,
    protocol: &P,
    steps: &'a [RefusalStep],
    tests: &mut Tests,
) -> Result<Vec<&'a RefusalStep>, AllocError>
    requires serves { P.serves protocol.now set.now }
{
    let mut walk = WalkBack::new(alloc, set, steps)?;
    let mut kept = Vec::new(alloc);
    for k in (0..steps.len()).rev() {
        let step = &steps[k];
        let is_needed = walk.go_back(step, &steps[..k]);
        // the first one here is the last step
        if is_needed || kept.is_empty() {
            walk.find_needs(alloc, set, protocol, step, &steps[..k], tests)?;
            kept.push(step)?;
        }
    }
    Ok(kept)
}

fn copies_of(alloc: Global, steps: &[&RefusalStep]) -> Result<Refusal, AllocError> {
    let mut copies = Vec::with_capacity(alloc, steps.len())?;
    for step in steps {
        copies.push(RefusalStep {
            task: step.task,
            value: step.value,
            point: copy_of(alloc, &step.point)?,
        })?;
    }
    Ok(Refusal { steps: copies })
}

/// The refusal without steps that its last one doesn't need, as far as they are found.
pub(crate) fn shorten<P: ProgramSource>(
    alloc: Global,
    set: &TaskSet,
    protocol: &P,
    refusal: &Refusal,
) -> Result<Refusal, AllocError>
    requires serves { P.serves protocol.now set.now }
{
    let mut tests = Tests { left: MOST_TESTS };
    let mut kept = needed_steps(alloc, set, protocol, &refusal.steps, &mut tests)?;
    kept.reverse();
    for k in (0..kept.len()).rev() {
        // the last step stays
        if k + 1 < kept.len() && tests.hold_without(alloc, set, protocol, &kept, k)? {
            kept.remove(k);
        }
    }
    copies_of(alloc, &kept)
}
