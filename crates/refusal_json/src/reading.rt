ghost use Rattle.std.specs.Prelude.{◌≡◌, IfOk};
ghost use Rattle.serde_json.specs.View.{view};
ghost use Rattle.refusal_laws.specs.Seen.{steps_seen};
ghost use Rattle.refusal_json.specs.Ranges.{HasSmallPoints};
ghost use Rattle.refusal_json.specs.Answers.{Reads, JudgesValue};

use crate::fault::ReadFault;
use crate::form::is_refusal;
use crate::written::refusal_of;
use cert_json::{digest_at, is_for};
use refusal_laws::Refusal;
use serde_json::Value;
use std::alloc::Global;

fn judge_value(alloc: Global, value: &Value, word: &str) -> Result<(Refusal, [u8; 32]), ReadFault>
    ensures { JudgesValue result word.now (view value.now) }
{
    if !is_refusal(value) {
        return Err(ReadFault::Shape);
    }
    if !is_for(value, word) {
        return Err(ReadFault::OtherProtocol);
    }
    Ok((refusal_of(alloc, value)?, digest_at(value)))
}

/// Reads from JSON a refusal for the protocol of the word, and the digest of its set's bytes, or says why it is refused. The first of these
/// is named:
///
/// - [`ReadFault::NotJson`]: the bytes are no JSON text.
/// - [`ReadFault::Shape`]: the value doesn't have the form of a refusal.
/// - [`ReadFault::OtherProtocol`]: the refusal is for another protocol.
pub fn read_refusal(
    alloc: Global,
    bytes: &[u8],
    word: &str,
) -> Result<(Refusal, [u8; 32]), ReadFault>
    ensures reads { Reads result word.now bytes.now }
    ensures small { IfOk result (λ given. HasSmallPoints (steps_seen given.0)) }
{
    match Value::from_slice(alloc, bytes) {
        Ok(value) => judge_value(alloc, &value, word),
        Err(error) if error.is_memory() => Err(ReadFault::Memory),
        Err(_) => Err(ReadFault::NotJson),
    }
}
