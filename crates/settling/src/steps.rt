//! The steps of a walk, as a refusal has them.

ghost use Rattle.std.specs.Prelude.{OnOk};
ghost use Rattle.settling.specs.Trails.{IsEmpty, AddsRise, Refuses};

use crate::reached::copy_of;
use program_form::Dual;
use refusal_laws::{Refusal, RefusalStep};
use sporadic_model::TaskId;
use std::alloc::{AllocError, Global};

/// The steps so far.
#[derive(Drop)]
pub(crate) struct Steps {
    list: Vec<RefusalStep>,
    /// Was the point of each step written in 63 bits?
    are_written: bool,
}

impl Steps {
    pub(crate) fn new(alloc: Global) -> Steps
        ensures { IsEmpty result }
    {
        Steps {
            list: Vec::new(alloc),
            are_written: true,
        }
    }

    /// Adds the step of a task from its bound to this value, if the value is greater.
    pub(crate) fn add(
        &mut self,
        alloc: Global,
        task: TaskId,
        bound: u64,
        value: u64,
        point: &Option<Dual>,
    ) -> Result<(), AllocError>
        ensures { OnOk result (AddsRise self.old self.new task.0 bound value point.now) }
    {
        if value <= bound {
            return Ok(());
        }
        match point {
            Some(point) if self.are_written => {
                let point = copy_of(alloc, point)?;
                self.list.push(RefusalStep {
                    task: u64::from(task.0) + 1,
                    value,
                    point,
                })?;
            }
            // behind a step that isn't written none is of use
            Some(_) => {}
            None => self.are_written = false,
        }
        Ok(())
    }

    /// The refusal of these steps, if all are written.
    pub(crate) fn refusal(self) -> Option<Refusal>
        ensures { Refuses self result }
    {
        if !self.are_written {
            return None;
        }
        let Steps { list, .. } = self;
        Some(Refusal { steps: list })
    }
}
