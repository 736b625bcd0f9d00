ghost use Rattle.std.specs.Prelude.{◌≡◌, ◌<◌, ◌^◌, length, true, IfOk, IfNone};
ghost use Rattle.serde_json.specs.View.{view};
ghost use Rattle.program_form.specs.Certificate.{certificate_seen};
ghost use Rattle.taskset_json.specs.Size.{size};
ghost use Rattle.cert_json.specs.declared.version.Version.TheVariants as version;
ghost use Rattle.cert_json.specs.Versions.{has_form_of};
ghost use Rattle.cert_json.specs.Refusals.{first_refusal as cause_of};
ghost use Rattle.cert_json.specs.Ranges.{HasSmallDuals};
ghost use Rattle.cert_json.specs.Answers.{Reads, ReadsOld, JudgesValue, IsFileOf, IsCertificateOf};

use crate::file::CertFile;
use crate::refusal::CertRefusal;
use crate::refusing::first_refusal;
use crate::version::Version;
use crate::written::{certificate_of, file_of};
use program_form::Certificate;
use serde_json::Value;
use std::alloc::Global;

/// Why the value is refused as a certificate of the version, for the protocol of the word; none if it has the form.
fn refusal_of(value: &Value, version: Version, word: &str) -> Option<CertRefusal>
    requires { size (view value.now) < 2 ^ 32 }
    ensures cause { result ≡ cause_of version word.now (view value.now) }
    ensures form { IfNone result (has_form_of version word.now (view value.now) ≡ true) }
{
    first_refusal(value, version, word)
}

fn judge_value(alloc: Global, value: &Value, word: &str) -> Result<CertFile, CertRefusal>
    requires { size (view value.now) < 2 ^ 32 }
    ensures { JudgesValue version.Second IsFileOf result word.now (view value.now) }
{
    if let Some(refusal) = refusal_of(value, Version::Second, word) {
        return Err(refusal);
    }
    Ok(file_of(alloc, value)?)
}

fn judged_old(alloc: Global, value: &Value, word: &str) -> Result<Certificate, CertRefusal>
    requires { size (view value.now) < 2 ^ 32 }
    ensures { JudgesValue version.First IsCertificateOf result word.now (view value.now) }
{
    if let Some(refusal) = refusal_of(value, Version::First, word) {
        return Err(refusal);
    }
    Ok(certificate_of(alloc, value)?)
}

/// Reads a certificate for the protocol of the word from fewer than 2^31 bytes of JSON, or says why it is refused. The first of these is
/// named:
///
/// - [`CertRefusal::NotJson`]: the bytes are no JSON text.
/// - [`CertRefusal::Shape`] at the root: the value is no object with a whole number as version.
/// - [`CertRefusal::Version`]: the version is not 2.
/// - [`CertRefusal::Shape`] with the place: a member, the digest or the verdict is not of the form, then a bound, then a dual.
/// - [`CertRefusal::OtherProtocol`]: the certificate is for another protocol.
pub fn read(alloc: Global, bytes: &[u8], word: &str) -> Result<CertFile, CertRefusal>
    requires { length bytes.now < 2 ^ 31 }
    ensures reads { Reads result word.now bytes.now }
    ensures small { IfOk result (λ f. HasSmallDuals (certificate_seen f.certificate)) }
{
    match Value::from_slice(alloc, bytes) {
        Ok(value) => judge_value(alloc, &value, word),
        Err(error) if error.is_memory() => Err(CertRefusal::Memory),
        Err(_) => Err(CertRefusal::NotJson),
    }
}

/// Reads a certificate of version 1, which has no digest, as [`read`] reads one of version 2.
pub fn read_old(alloc: Global, bytes: &[u8], word: &str) -> Result<Certificate, CertRefusal>
    requires { length bytes.now < 2 ^ 31 }
    ensures reads { ReadsOld result word.now bytes.now }
    ensures small { IfOk result (λ c. HasSmallDuals (certificate_seen c)) }
{
    match Value::from_slice(alloc, bytes) {
        Ok(value) => judged_old(alloc, &value, word),
        Err(error) if error.is_memory() => Err(CertRefusal::Memory),
        Err(_) => Err(CertRefusal::NotJson),
    }
}
