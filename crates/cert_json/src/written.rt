ghost use Rattle.std.specs.Prelude.{◌≡◌, map, IfOk};
ghost use Rattle.serde_json.specs.View.{view};
ghost use Rattle.program_form.specs.Certificate.{dual_seen, certificate_seen};
ghost use Rattle.cert_json.specs.File.{file_seen};
ghost use Rattle.cert_json.specs.Written.{number_written, numbers_written, dual_written, certificate_written, digest_written, file_written};

use crate::digest_of;
use crate::file::CertFile;
use program_form::{Certificate, Dual};
use serde_json::Value;
use std::alloc::{AllocError, Global};
use taskset_json::{list_at, text_at, whole_at};

fn number_of(value: &Value) -> u64
    ensures { result ≡ number_written (view value.now) }
{
    value.as_u64().unwrap_or(0)
}

fn numbers_of(alloc: Global, values: &[Value]) -> Result<Vec<u64>, AllocError>
    ensures { IfOk result (λ v. v.items ≡ numbers_written (map view values.now)) }
{
    let mut numbers = Vec::new(alloc);
    for value in values {
        numbers.push(number_of(value))?;
    }
    Ok(numbers)
}

/// The dual of a value of the form.
pub fn dual_of(alloc: Global, value: &Value) -> Result<Dual, AllocError>
    ensures { IfOk result (λ d. dual_seen d ≡ dual_written (view value.now)) }
{
    Ok(Dual {
        den: whole_at(value, "den").unwrap_or(0),
        num: numbers_of(alloc, list_at(value, "num"))?,
    })
}

fn duals_of(alloc: Global, values: &[Value]) -> Result<Vec<Dual>, AllocError>
    ensures { IfOk result (λ v. map dual_seen v.items ≡ map dual_written (map view values.now)) }
{
    let mut duals = Vec::new(alloc);
    for value in values {
        duals.push(dual_of(alloc, value)?)?;
    }
    Ok(duals)
}

/// The certificate of a value of the form. All numbers that the form requires are there, so the 0 for a missing number is never used.
pub(crate) fn certificate_of(alloc: Global, value: &Value) -> Result<Certificate, AllocError>
    ensures { IfOk result (λ c. certificate_seen c ≡ certificate_written (view value.now)) }
{
    Ok(Certificate {
        bounds: numbers_of(alloc, list_at(value, "bounds"))?,
        duals: duals_of(alloc, list_at(value, "duals"))?,
    })
}

/// The digest of a value of the form.
pub fn digest_at(value: &Value) -> [u8; 32]
    ensures { result ≡ digest_written (view value.now) }
{
    digest_of(text_at(value, "set")).unwrap_or([0; 32])
}

/// The file of a value of the form.
pub(crate) fn file_of(alloc: Global, value: &Value) -> Result<CertFile, AllocError>
    ensures { IfOk result (λ f. file_seen f ≡ file_written (view value.now)) }
{
    Ok(CertFile {
        certificate: certificate_of(alloc, value)?,
        digest: digest_at(value),
    })
}
