//! Laws of refusals and their text. The functions do nothing: what they ensure holds for all values.

ghost use Rattle.std.specs.Prelude.{ℕ, List, Result, IsUtf8};
ghost use Rattle.taskset_json.specs.Answers.{IsValue};
ghost use Rattle.cert_json.specs.Digests.{IsDigest};
ghost use Rattle.refusal_laws.specs.Steps.{StepDef};
ghost use Rattle.refusal_json.specs.Ranges.{IsWritable};
ghost use Rattle.refusal_json.specs.Text.{refusal_text};
ghost use Rattle.refusal_json.specs.Value.{refusal_data};
ghost use Rattle.refusal_json.specs.Answers.{Reads, Gives};

use crate::fault::ReadFault;
use refusal_laws::Refusal;

/// The text of a refusal is the JSON text of its value. If you read it for the same word, you get the same refusal with the same digest,
/// except for want of memory.
pub fn what_is_written_is_read()
    ensures value { (word digest : List ℕ) (steps : List StepDef) → IsUtf8 word → IsWritable steps
        → IsValue (refusal_text word digest steps) (refusal_data word digest steps) }
    ensures same { (word digest : List ℕ) (steps : List StepDef) (answer : Result (Refusal × List ℕ) ReadFault)
        → IsUtf8 word → IsDigest digest → IsWritable steps
        → Reads answer word (refusal_text word digest steps) → Gives answer steps digest }
{}
