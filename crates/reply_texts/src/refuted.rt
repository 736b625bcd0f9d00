//! The texts of refusals, and of answers in place of one.

ghost use Rattle.std.specs.Prelude.{◌≡◌, IfOk};
ghost use Rattle.reply_texts.specs.Refuted.{schedulable_text, confirmed_text, step_text, row_text, unconfirmed_text};

use refusal_confirm::Fault;
use std::alloc::{AllocError, Global};

/// The text for a schedulable set, if you asked for a refusal of it.
pub fn schedulable_line(alloc: Global) -> Result<Vec<u8>, AllocError>
    ensures { IfOk result (λ text. text.items ≡ schedulable_text) }
{
    Vec::from_slice(alloc, b"schedulable\n")
}

/// The text for a refusal that holds.
pub fn confirmed_line(alloc: Global) -> Result<Vec<u8>, AllocError>
    ensures { IfOk result (λ text. text.items ≡ confirmed_text) }
{
    Vec::from_slice(alloc, b"confirmed\n")
}

/// The text for a refusal with this step, which fails the test of this word.
fn step_line(alloc: Global, step: u64, word: &str) -> Result<Vec<u8>, AllocError>
    ensures { IfOk result (λ text. text.items ≡ step_text step word.now) }
{
    let text = format!(in alloc; "invalid step {step} {word}\n")?;
    Ok(text.into_bytes())
}

/// The text for a refusal with this step, whose point breaks this row.
fn row_line(alloc: Global, step: u64, row: u64) -> Result<Vec<u8>, AllocError>
    ensures { IfOk result (λ text. text.items ≡ row_text step row) }
{
    let text = format!(in alloc; "invalid step {step} row {row}\n")?;
    Ok(text.into_bytes())
}

/// The text for a refusal that doesn't hold.
pub fn unconfirmed_line(alloc: Global, fault: Fault) -> Result<Vec<u8>, AllocError>
    ensures { IfOk result (λ text. text.items ≡ unconfirmed_text fault) }
{
    match fault {
        Fault::After(step) => step_line(alloc, step, "after"),
        Fault::Task(step) => step_line(alloc, step, "task"),
        Fault::Rising(step) => step_line(alloc, step, "rising"),
        Fault::Size(step) => step_line(alloc, step, "size"),
        Fault::Row { step, row } => row_line(alloc, step, row),
        Fault::Low(step) => step_line(alloc, step, "low"),
        Fault::Open => Vec::from_slice(alloc, b"invalid open\n"),
        Fault::Memory => Ok(Vec::new(alloc)),
    }
}
