//! Laws of certificates and their text. The functions do nothing: what they ensure holds for all values.

ghost use Rattle.std.specs.Prelude.{◌≡◌, ◌↔◌, ℕ, true, List, None, Result, IsUtf8};
ghost use Rattle.serde_json.specs.Data.{Data};
ghost use Rattle.taskset_json.specs.Answers.{IsValue};
ghost use Rattle.cert_json.specs.Digests.{IsDigest};
ghost use Rattle.cert_json.specs.FileDef.{FileDef};
ghost use Rattle.cert_json.specs.Versions.{has_form_of};
ghost use Rattle.cert_json.specs.Refusals.{first_refusal};
ghost use Rattle.cert_json.specs.Ranges.{IsWritable};
ghost use Rattle.cert_json.specs.Text.{certificate_text};
ghost use Rattle.cert_json.specs.Value.{certificate_data};
ghost use Rattle.cert_json.specs.Answers.{Reads, Gives};

use crate::file::CertFile;
use crate::refusal::CertRefusal;
use crate::version::Version;

/// A value has the form of a certificate of a version, for the protocol of a word, exactly if there is no cause to refuse it.
pub fn form_is_exact()
    ensures { (v : Version) (word : List ℕ) (d : Data) → (first_refusal v word d ≡ None) ↔ (has_form_of v word d ≡ true) }
{}

/// The text of a certificate is the JSON text of its value. If you read it for the same word, you get the same certificate with the same
/// digest, except for want of memory.
pub fn what_is_written_is_read()
    ensures value { (word : List ℕ) (f : FileDef) → IsUtf8 word → IsWritable f.certificate
        → IsValue (certificate_text word f.digest f.certificate) (certificate_data word f.digest f.certificate) }
    ensures same { (word : List ℕ) (f : FileDef) (answer : Result CertFile CertRefusal)
        → IsUtf8 word → IsDigest f.digest → IsWritable f.certificate
        → Reads answer word (certificate_text word f.digest f.certificate) → Gives answer f }
{}
