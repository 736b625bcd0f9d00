//! Pieces of texts: numbers in decimal digits, written and read, and columns of a fixed width. Each call that writes adds its piece at the
//! end of a text. It fails only for want of memory, and then leaves the text as it was.
#![tactic(auto)]

ghost use Rattle.std.specs.Prelude.{◌≡◌, ◌++◌, decimal, replicate, OnOk, OnErr};
ghost use Rattle.text_pieces.specs.Columns.{space, left, right};

mod number;

use itoa::Buffer;
pub use number::{is_number, number_between};
use std::alloc::AllocError;

/// Adds a number in decimal digits.
pub fn push_number(text: &mut Vec<u8>, n: u64) -> Result<(), AllocError>
    ensures adds { OnOk result (text.new.items ≡ text.old.items ++ decimal n) }
    ensures kept { OnErr result (text.new.items ≡ text.old.items) }
{
    let mut buffer = Buffer::new();
    text.extend_from_slice(buffer.format(n).as_bytes())
}

/// Adds this many spaces.
fn push_spaces(text: &mut Vec<u8>, count: usize) -> Result<(), AllocError>
    ensures adds { OnOk result (text.new.items ≡ text.old.items ++ replicate count space) }
    ensures kept { OnErr result (text.new.items ≡ text.old.items) }
{
    let before = text.len();
    for _ in 0..count {
        match text.push(b' ') {
            Ok(()) => {}
            Err(_) => {
                text.truncate(before);
                return Err(AllocError);
            }
        }
    }
    Ok(())
}

/// Adds a piece on the left of this many places.
pub fn push_left(text: &mut Vec<u8>, width: usize, piece: &[u8]) -> Result<(), AllocError>
    ensures adds { OnOk result (text.new.items ≡ text.old.items ++ left width piece.now) }
    ensures kept { OnErr result (text.new.items ≡ text.old.items) }
{
    let before = text.len();
    text.extend_from_slice(piece)?;
    match push_spaces(text, width.saturating_sub(piece.len())) {
        Ok(()) => Ok(()),
        Err(AllocError) => {
            text.truncate(before);
            Err(AllocError)
        }
    }
}

/// Adds a piece on the right of this many places.
pub fn push_right(text: &mut Vec<u8>, width: usize, piece: &[u8]) -> Result<(), AllocError>
    ensures adds { OnOk result (text.new.items ≡ text.old.items ++ right width piece.now) }
    ensures kept { OnErr result (text.new.items ≡ text.old.items) }
{
    let before = text.len();
    push_spaces(text, width.saturating_sub(piece.len()))?;
    match text.extend_from_slice(piece) {
        Ok(()) => Ok(()),
        Err(AllocError) => {
            text.truncate(before);
            Err(AllocError)
        }
    }
}

/// Adds a number in decimal digits on the right of this many places.
pub fn push_right_number(text: &mut Vec<u8>, width: usize, n: u64) -> Result<(), AllocError>
    ensures adds { OnOk result (text.new.items ≡ text.old.items ++ right width (decimal n)) }
    ensures kept { OnErr result (text.new.items ≡ text.old.items) }
{
    let mut buffer = Buffer::new();
    push_right(text, width, buffer.format(n).as_bytes())
}
