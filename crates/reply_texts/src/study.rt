ghost use Rattle.std.specs.Prelude.{◌≡◌, ◌<◌, ◌++◌, [], length, slice_index_or, IfOk, OnOk};
ghost use Rattle.number_laws.specs.Sums.{collect_below};
ghost use Rattle.reply_texts.specs.Texts.{counts_text, step_line, study_text};

use std::alloc::{AllocError, Global};
use text_pieces::push_number;

/// Adds the counts of a step, one for each protocol.
fn push_counts(text: &mut Vec<u8>, row: &[u64; 3]) -> Result<(), AllocError>
    ensures { OnOk result (text.new.items ≡ text.old.items ++ counts_text row.now) }
{
    push_number(text, row[0])?;
    text.extend_from_slice(b" ")?;
    push_number(text, row[1])?;
    text.extend_from_slice(b" ")?;
    push_number(text, row[2])
}

/// Adds the line of step number `i`, counted from 0.
fn push_step(text: &mut Vec<u8>, i: u64, row: &[u64; 3]) -> Result<(), AllocError>
    requires { i < 8 }
    ensures { OnOk result (text.new.items ≡ text.old.items ++ step_line i row.now) }
{
    push_number(text, i + 1)?;
    text.extend_from_slice(b" ")?;
    push_counts(text, row)?;
    text.extend_from_slice(b"\n")
}

/// Adds the lines of the eight steps.
fn push_steps(text: &mut Vec<u8>, rows: &[[u64; 3]]) -> Result<(), AllocError>
    requires { length rows.now ≡ 8 }
    ensures { OnOk result (text.new.items ≡ text.old.items ++ collect_below 8 (λ i. step_line i (slice_index_or rows.now i []))) }
{
    for i in 0..8u64 {
        push_step(text, i, &rows[i as usize])?;
    }
    Ok(())
}

/// The text of a study with these counts of its eight steps, and this many analyses that stopped.
pub fn study_lines(alloc: Global, rows: &[[u64; 3]], stopped: u64) -> Result<Vec<u8>, AllocError>
    requires { length rows.now ≡ 8 }
    ensures { IfOk result (λ text. text.items ≡ study_text rows.now stopped) }
{
    let mut text = Vec::new(alloc);
    text.extend_from_slice(b"step mpcp fmlp+ dpcp\n")?;
    push_steps(&mut text, rows)?;
    text.extend_from_slice(b"stopped ")?;
    push_number(&mut text, stopped)?;
    text.extend_from_slice(b"\n")?;
    Ok(text)
}
