ghost use Rattle.std.specs.Prelude.{◌≡◌, map, IfOk};
ghost use Rattle.serde_json.specs.View.{view};
ghost use Rattle.program_form.specs.Certificate.{dual_seen};
ghost use Rattle.refusal_laws.specs.Seen.{step_seen, steps_seen};
ghost use Rattle.refusal_json.specs.Written.{point_written, step_written, steps_written};

use cert_json::dual_of;
use program_form::Dual;
use refusal_laws::{Refusal, RefusalStep};
use serde_json::Value;
use std::alloc::{AllocError, Global};
use taskset_json::{list_at, whole_at};

/// The point of a step's value. The form requires one, so the empty point for a missing one is never used.
fn point_of(alloc: Global, value: &Value) -> Result<Dual, AllocError>
    ensures { IfOk result (λ point. dual_seen point ≡ point_written (view value.now)) }
{
    match value.get("point") {
        Some(point) => dual_of(alloc, point),
        None => Ok(Dual {
            den: 0,
            num: Vec::new(alloc),
        }),
    }
}

fn step_of(alloc: Global, value: &Value) -> Result<RefusalStep, AllocError>
    ensures { IfOk result (λ step. step_seen step ≡ step_written (view value.now)) }
{
    Ok(RefusalStep {
        task: whole_at(value, "task").unwrap_or(0),
        value: whole_at(value, "value").unwrap_or(0),
        point: point_of(alloc, value)?,
    })
}

fn steps_of(alloc: Global, values: &[Value]) -> Result<Vec<RefusalStep>, AllocError>
    ensures { IfOk result (λ v. map step_seen v.items ≡ map step_written (map view values.now)) }
{
    let mut steps = Vec::new(alloc);
    for value in values {
        steps.push(step_of(alloc, value)?)?;
    }
    Ok(steps)
}

/// The refusal of a value of the form.
pub(crate) fn refusal_of(alloc: Global, value: &Value) -> Result<Refusal, AllocError>
    ensures { IfOk result (λ refusal. steps_seen refusal ≡ steps_written (view value.now)) }
{
    Ok(Refusal {
        steps: steps_of(alloc, list_at(value, "steps"))?,
    })
}
