ghost use Rattle.std.specs.Prelude.{◌≡◌, ℕ, ◌<◌, ◌≤◌, ◌++◌, length, vec_len, slice_index, IfOk, OnOk};
ghost use Rattle.sporadic_model.specs.SetDef.{task_at, latest_bound};
ghost use Rattle.report.specs.FullTable.{full_header, proved_columns, full_line, full_lines, full_text};

use crate::table::{TICKS_WIDTH, push_loads, push_task_columns, push_task_words};
use program_form::Certificate;
use sporadic_model::{TaskId, TaskSet};
use std::alloc::{AllocError, Global};
use text_pieces::{push_right, push_right_number};

fn push_full_header(text: &mut Vec<u8>) -> Result<(), AllocError>
    ensures { OnOk result (text.new.items ≡ text.old.items ++ full_header) }
{
    push_task_words(text)?;
    push_right(text, TICKS_WIDTH, b"bound")?;
    push_right(text, TICKS_WIDTH, b"blocking")?;
    push_right(text, TICKS_WIDTH, b"slack")?;
    text.extend_from_slice(b"\n")
}

/// Adds a task's bound, its dual's value, and how far the bound is below the latest one.
fn push_proved(
    text: &mut Vec<u8>,
    set: &TaskSet,
    x: TaskId,
    bound: u64,
    value: u64,
) -> Result<(), AllocError>
    requires task { x.0 < length set.now.tasks }
    requires within { bound ≤ latest_bound (task_at set.now x.0) }
    ensures { OnOk result (text.new.items ≡ text.old.items ++ proved_columns (task_at set.now x.0) bound value) }
{
    push_right_number(text, TICKS_WIDTH, bound)?;
    push_right_number(text, TICKS_WIDTH, value)?;
    push_right_number(text, TICKS_WIDTH, set.latest_bound(x) - bound)
}

/// Adds the line of a task.
fn push_full_task(
    text: &mut Vec<u8>,
    set: &TaskSet,
    x: TaskId,
    bound: u64,
    value: u64,
) -> Result<(), AllocError>
    requires task { x.0 < length set.now.tasks }
    requires within { bound ≤ latest_bound (task_at set.now x.0) }
    ensures { OnOk result (text.new.items ≡ text.old.items ++ full_line (task_at set.now x.0) bound value) }
{
    push_task_columns(text, set, x)?;
    push_proved(text, set, x, bound, value)?;
    text.extend_from_slice(b"\n")
}

/// Adds the lines of all tasks.
fn push_full_tasks(
    text: &mut Vec<u8>,
    set: &TaskSet,
    bounds: &[u64],
    values: &[u64],
) -> Result<(), AllocError>
    requires bound_each { length bounds.now ≡ length set.now.tasks }
    requires value_each { length values.now ≡ length set.now.tasks }
    requires within { (x : ℕ) → x < length set.now.tasks → slice_index bounds.now x ≤ latest_bound (task_at set.now x) }
    ensures { OnOk result (text.new.items ≡ text.old.items ++ full_lines set.now bounds.now (slice_index values.now)) }
{
    for x in 0..set.tasks() {
        let place = x as usize;
        push_full_task(text, set, TaskId(x), bounds[place], values[place])?;
    }
    Ok(())
}

/// The table of a set with what a certificate proves of each task: its bound, the value of its dual, and how far the bound is below the
/// latest one. The latest bound is the deadline less the jitter. All are in ticks. Header and loads are those of [`crate::set_table`].
///
/// You give a bound and a value for each task. No bound and its task's jitter together may be above the deadline. It fails only for want of
/// memory.
pub fn full_table(
    alloc: Global,
    set: &TaskSet,
    certificate: &Certificate,
    values: &[u64],
) -> Result<Vec<u8>, AllocError>
    requires bound_each { vec_len certificate.now.bounds ≡ length set.now.tasks }
    requires value_each { length values.now ≡ length set.now.tasks }
    requires within { (x : ℕ) → x < length set.now.tasks → slice_index certificate.now.bounds.items x ≤ latest_bound (task_at set.now x) }
    ensures { IfOk result (λ text. text.items ≡ full_text set.now certificate.now.bounds.items (slice_index values.now)) }
{
    let mut text = Vec::new(alloc);
    push_full_header(&mut text)?;
    push_full_tasks(&mut text, set, &certificate.bounds, values)?;
    push_loads(&mut text, set)?;
    Ok(text)
}
