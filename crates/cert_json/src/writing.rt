ghost use Rattle.std.specs.Prelude.{◌≡◌, IfOk, string_bytes};
ghost use Rattle.serde_json.specs.Written.{compact_text};
ghost use Rattle.program_form.specs.Certificate.{certificate_seen};
ghost use Rattle.cert_json.specs.Value.{certificate_data};
ghost use Rattle.cert_json.specs.Text.{certificate_text};

use crate::value::value_of;
use program_form::Certificate;
use std::alloc::{AllocError, Global};

/// The text without its line end.
fn compact(
    alloc: Global,
    word: &str,
    digest: &[u8; 32],
    certificate: &Certificate,
) -> Result<String, AllocError>
    ensures { IfOk result (λ text. string_bytes text ≡ compact_text (certificate_data word.now digest.now (certificate_seen certificate.now))) }
{
    value_of(alloc, word, digest, certificate)?.to_string(alloc)
}

/// The text of a certificate for the protocol of the word, and the set of the digest: one compact JSON object with the
/// members `bounds`, `duals`, `protocol`, `set`, `verdict` and `version` in this order, and a line end.
pub fn write(
    alloc: Global,
    word: &str,
    digest: &[u8; 32],
    certificate: &Certificate,
) -> Result<Vec<u8>, AllocError>
    ensures { IfOk result (λ text. text.items ≡ certificate_text word.now digest.now (certificate_seen certificate.now)) }
{
    let mut text = compact(alloc, word, digest, certificate)?;
    text.push_str("\n")?;
    Ok(text.into_bytes())
}
