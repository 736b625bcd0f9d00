ghost use Rattle.std.specs.Prelude.{◌≡◌, ◌<◌, ◌^◌, length, true, IfNone};
ghost use Rattle.serde_json.specs.View.{view};
ghost use Rattle.taskset_json.specs.Size.{size};
ghost use Rattle.taskset_json.specs.Form.{has_set_form};
ghost use Rattle.taskset_json.specs.FormFaults.{first_misshapen as first_fault};
ghost use Rattle.taskset_json.specs.Answers.{Reads, JudgesValue};

use crate::refusal::SetRefusal;
use crate::shape::first_misshapen;
use crate::written::parts_of;
use serde_json::Value;
use sporadic_model::{ModelRefusal, Place, TaskSet};
use std::alloc::Global;

/// The first place at which the value breaks the form of a task set; none if it has the form.
fn fault_of(value: &Value) -> Option<Place>
    requires { size (view value.now) < 2 ^ 32 }
    ensures place { result ≡ first_fault (view value.now) }
    ensures form { IfNone result (has_set_form (view value.now) ≡ true) }
{
    first_misshapen(value)
}

fn set_of(alloc: Global, value: &Value) -> Result<TaskSet, SetRefusal>
    requires { size (view value.now) < 2 ^ 32 }
    ensures { JudgesValue result (view value.now) }
{
    if let Some(place) = fault_of(value) {
        return Err(SetRefusal::Shape(place));
    }
    let parts = parts_of(alloc, value)?;
    match TaskSet::new(alloc, parts) {
        Ok(set) => Ok(set),
        Err(ModelRefusal::Memory) => Err(SetRefusal::Memory),
        Err(refusal) => Err(SetRefusal::Model(refusal)),
    }
}

/// Reads a task set from fewer than 2^31 bytes of JSON, or says what is wrong first.
///
/// - [`SetRefusal::NotJson`]: the bytes are no JSON text.
/// - [`SetRefusal::Shape`]: an object hasn't the members that it must have. It names the first such place over the whole value.
/// - [`SetRefusal::Model`]: the set of the value is not accepted. It has the answer of `TaskSet::new`.
/// - [`SetRefusal::NoHome`] never comes.
pub fn read(alloc: Global, bytes: &[u8]) -> Result<TaskSet, SetRefusal>
    requires { length bytes.now < 2 ^ 31 }
    ensures { Reads result bytes.now }
{
    match Value::from_slice(alloc, bytes) {
        Ok(value) => set_of(alloc, &value),
        Err(error) if error.is_memory() => Err(SetRefusal::Memory),
        Err(_) => Err(SetRefusal::NotJson),
    }
}
