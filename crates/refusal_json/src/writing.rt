ghost use Rattle.std.specs.Prelude.{◌≡◌, IfOk, string_bytes};
ghost use Rattle.serde_json.specs.Written.{compact_text};
ghost use Rattle.refusal_laws.specs.Seen.{steps_seen};
ghost use Rattle.refusal_json.specs.Value.{refusal_data};
ghost use Rattle.refusal_json.specs.Text.{refusal_text};

use crate::value::value_of;
use refusal_laws::Refusal;
use std::alloc::{AllocError, Global};

/// The text without its line end.
fn compact(
    alloc: Global,
    word: &str,
    digest: &[u8; 32],
    refusal: &Refusal,
) -> Result<String, AllocError>
    ensures { IfOk result (λ text. string_bytes text ≡ compact_text (refusal_data word.now digest.now (steps_seen refusal.now))) }
{
    value_of(alloc, word, digest, refusal)?.to_string(alloc)
}

/// The text of a refusal for the protocol of the word, and the set of the digest: one compact JSON object with the
/// members `protocol`, `set`, `steps`, `verdict` and `version` in this order, and a line end.
pub fn write_refusal(
    alloc: Global,
    word: &str,
    digest: &[u8; 32],
    refusal: &Refusal,
) -> Result<Vec<u8>, AllocError>
    ensures { IfOk result (λ text. text.items ≡ refusal_text word.now digest.now (steps_seen refusal.now)) }
{
    let mut text = compact(alloc, word, digest, refusal)?;
    text.push_str("\n")?;
    Ok(text.into_bytes())
}
