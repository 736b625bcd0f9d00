ghost use Rattle.std.specs.Prelude.{◌≡◌, map, IfOk};
ghost use Rattle.serde_json.specs.View.{view};
ghost use Rattle.program_form.specs.Certificate.{dual_seen, certificate_seen};
ghost use Rattle.cert_json.specs.Value.{number_data, dual_data, certificate_data};

use crate::digest_text;
use program_form::{Certificate, Dual};
use serde_json::{Value, json};
use std::alloc::{AllocError, Global};

fn values_of(alloc: Global, numbers: &[u64]) -> Result<Vec<Value>, AllocError>
    ensures { IfOk result (λ v. map view v.items ≡ map number_data numbers.now) }
{
    let mut values = Vec::new(alloc);
    for n in numbers {
        values.push(Value::from(*n))?;
    }
    Ok(values)
}

/// The JSON value of a dual.
pub fn value_of_dual(alloc: Global, dual: &Dual) -> Result<Value, AllocError>
    ensures { IfOk result (λ v. view v ≡ dual_data (dual_seen dual.now)) }
{
    json!(in alloc; {"den": dual.den, "num": values_of(alloc, &dual.num)?})
}

fn values_of_duals(alloc: Global, duals: &[Dual]) -> Result<Vec<Value>, AllocError>
    ensures { IfOk result (λ v. map view v.items ≡ map dual_data (map dual_seen duals.now)) }
{
    let mut values = Vec::new(alloc);
    for dual in duals {
        values.push(value_of_dual(alloc, dual)?)?;
    }
    Ok(values)
}

/// The JSON value of a certificate for the protocol of the word, and the set of the digest.
pub(crate) fn value_of(
    alloc: Global,
    word: &str,
    digest: &[u8; 32],
    certificate: &Certificate,
) -> Result<Value, AllocError>
    ensures { IfOk result (λ v. view v ≡ certificate_data word.now digest.now (certificate_seen certificate.now)) }
{
    json!(in alloc; {
        "bounds": values_of(alloc, &certificate.bounds)?,
        "duals": values_of_duals(alloc, &certificate.duals)?,
        "protocol": word,
        "set": digest_text(alloc, digest)?,
        "verdict": "schedulable",
        "version": 2u64,
    })
}
