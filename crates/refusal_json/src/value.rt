ghost use Rattle.std.specs.Prelude.{◌≡◌, map, IfOk};
ghost use Rattle.serde_json.specs.View.{view};
ghost use Rattle.refusal_laws.specs.Seen.{step_seen, steps_seen};
ghost use Rattle.refusal_json.specs.Value.{step_data, refusal_data};

use cert_json::{digest_text, value_of_dual};
use refusal_laws::{Refusal, RefusalStep};
use serde_json::{Value, json};
use std::alloc::{AllocError, Global};

fn value_of_step(alloc: Global, step: &RefusalStep) -> Result<Value, AllocError>
    ensures { IfOk result (λ v. view v ≡ step_data (step_seen step.now)) }
{
    json!(in alloc; {
        "point": value_of_dual(alloc, &step.point)?,
        "task": step.task,
        "value": step.value,
    })
}

fn values_of_steps(alloc: Global, steps: &[RefusalStep]) -> Result<Vec<Value>, AllocError>
    ensures { IfOk result (λ v. map view v.items ≡ map step_data (map step_seen steps.now)) }
{
    let mut values = Vec::new(alloc);
    for step in steps {
        values.push(value_of_step(alloc, step)?)?;
    }
    Ok(values)
}

/// The JSON value of a refusal for the protocol of the word, and the set of the digest.
pub(crate) fn value_of(
    alloc: Global,
    word: &str,
    digest: &[u8; 32],
    refusal: &Refusal,
) -> Result<Value, AllocError>
    ensures { IfOk result (λ v. view v ≡ refusal_data word.now digest.now (steps_seen refusal.now)) }
{
    json!(in alloc; {
        "protocol": word,
        "set": digest_text(alloc, digest)?,
        "steps": values_of_steps(alloc, &refusal.steps)?,
        "verdict": "notshown",
        "version": 1u64,
    })
}
