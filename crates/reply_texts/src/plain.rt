ghost use Rattle.std.specs.Prelude.{◌≡◌, IfOk};
ghost use Rattle.reply_texts.specs.Texts.{refused_text, fault_text, no_form_text, allowance_text, valid_text, other_set_text};

use std::alloc::{AllocError, Global};

/// The text for the input of this word, which is refused for this reason.
pub fn refused_line(alloc: Global, word: &str, reason: &str) -> Result<Vec<u8>, AllocError>
    ensures { IfOk result (λ text. text.items ≡ refused_text word.now reason.now) }
{
    let text = format!(in alloc; "refused {word} {reason}\n")?;
    Ok(text.into_bytes())
}

/// The text for the input of this word, which could not be read.
pub fn fault_line(alloc: Global, word: &str) -> Result<Vec<u8>, AllocError>
    ensures { IfOk result (λ text. text.items ≡ fault_text word.now) }
{
    let text = format!(in alloc; "fault read {word}\n")?;
    Ok(text.into_bytes())
}

/// The text for words that have none of the forms.
pub fn no_form_line(alloc: Global) -> Result<Vec<u8>, AllocError>
    ensures { IfOk result (λ text. text.items ≡ no_form_text) }
{
    Vec::from_slice(alloc, b"refused words\n")
}

/// The text for programs that want more units than the allowance.
pub fn allowance_line(alloc: Global) -> Result<Vec<u8>, AllocError>
    ensures { IfOk result (λ text. text.items ≡ allowance_text) }
{
    Vec::from_slice(alloc, b"allowance\n")
}

/// The text for a certificate that is valid.
pub fn valid_line(alloc: Global) -> Result<Vec<u8>, AllocError>
    ensures { IfOk result (λ text. text.items ≡ valid_text) }
{
    Vec::from_slice(alloc, b"valid\n")
}

/// The text for a certificate that is of a set of other bytes.
pub fn other_set_line(alloc: Global) -> Result<Vec<u8>, AllocError>
    ensures { IfOk result (λ text. text.items ≡ other_set_text) }
{
    Vec::from_slice(alloc, b"invalid otherset\n")
}
