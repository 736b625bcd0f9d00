ghost use Rattle.std.specs.Prelude.{◌≡◌, ◌+◌, ◌*◌, ◌/◌, ◌<◌, ◌≤◌, ◌++◌, length, IfOk, OnOk};
ghost use Rattle.number_laws.specs.Sums.{collect_below};
ghost use Rattle.sporadic_model.specs.SetDef.{task_at};
ghost use Rattle.report.specs.Table.{task_words, header, ticks_columns, task_columns, task_line, load_of, load_line};
ghost use Rattle.report.specs.Table.{load_lines, table_text};

use sporadic_model::{TaskId, TaskSet};
use std::alloc::{AllocError, Global};
use text_pieces::{push_left, push_number, push_right, push_right_number};

/// The widths of a name, of a processor's number, and of a number of ticks.
const NAME_WIDTH: usize = 32;

const PROCESSOR_WIDTH: usize = 3;

pub(crate) const TICKS_WIDTH: usize = 11;

/// Adds the words above a task's columns.
pub(crate) fn push_task_words(text: &mut Vec<u8>) -> Result<(), AllocError>
    ensures { OnOk result (text.new.items ≡ text.old.items ++ task_words) }
{
    push_left(text, NAME_WIDTH, b"task")?;
    push_right(text, PROCESSOR_WIDTH, b"cpu")?;
    push_right(text, TICKS_WIDTH, b"period")?;
    push_right(text, TICKS_WIDTH, b"deadline")?;
    push_right(text, TICKS_WIDTH, b"cost")?;
    push_right(text, TICKS_WIDTH, b"local")
}

fn push_header(text: &mut Vec<u8>) -> Result<(), AllocError>
    ensures { OnOk result (text.new.items ≡ text.old.items ++ header) }
{
    push_task_words(text)?;
    text.extend_from_slice(b"\n")
}

/// Adds a task's period, deadline, cost and local limit.
fn push_ticks(text: &mut Vec<u8>, set: &TaskSet, x: TaskId) -> Result<(), AllocError>
    requires { x.0 < length set.now.tasks }
    ensures { OnOk result (text.new.items ≡ text.old.items ++ ticks_columns (task_at set.now x.0)) }
{
    push_right_number(text, TICKS_WIDTH, set.period(x))?;
    push_right_number(text, TICKS_WIDTH, set.deadline(x))?;
    push_right_number(text, TICKS_WIDTH, set.cost(x))?;
    push_right_number(text, TICKS_WIDTH, set.local(x))
}

/// Adds the columns of a task.
pub(crate) fn push_task_columns(
    text: &mut Vec<u8>,
    set: &TaskSet,
    x: TaskId,
) -> Result<(), AllocError>
    requires { x.0 < length set.now.tasks }
    ensures { OnOk result (text.new.items ≡ text.old.items ++ task_columns (task_at set.now x.0)) }
{
    push_left(text, NAME_WIDTH, set.task_name(x).as_bytes())?;
    push_right_number(text, PROCESSOR_WIDTH, u64::from(set.processor(x)))?;
    push_ticks(text, set, x)
}

/// Adds the line of a task.
fn push_task(text: &mut Vec<u8>, set: &TaskSet, x: TaskId) -> Result<(), AllocError>
    requires { x.0 < length set.now.tasks }
    ensures { OnOk result (text.new.items ≡ text.old.items ++ task_line (task_at set.now x.0)) }
{
    push_task_columns(text, set, x)?;
    text.extend_from_slice(b"\n")
}

/// The greatest part of its processor's time that a task takes, in millionths, rounded down.
fn part_of_time(set: &TaskSet, x: TaskId) -> u64
    requires { x.0 < length set.now.tasks }
    ensures value { result ≡ (task_at set.now x.0).cost * 1000000 / (task_at set.now x.0).period }
    ensures most { result ≤ 1000000 }
{
    set.keeps_the_model();
    set.cost(x) * 1_000_000 / set.period(x)
}

/// The load of processor `k` in millionths.
fn load(set: &TaskSet, k: u32) -> u64
    ensures { result ≡ load_of set.now k }
{
    let mut total = 0;
    for x in 0..set.tasks() {
        if set.processor(TaskId(x)) == k {
            total += part_of_time(set, TaskId(x));
        }
    }
    total
}

/// Adds the line of a processor's load.
fn push_load(text: &mut Vec<u8>, set: &TaskSet, k: u32) -> Result<(), AllocError>
    ensures { OnOk result (text.new.items ≡ text.old.items ++ load_line set.now k) }
{
    text.extend_from_slice(b"load ")?;
    push_number(text, u64::from(k))?;
    text.extend_from_slice(b" ")?;
    push_number(text, load(set, k))?;
    text.extend_from_slice(b"\n")
}

/// Adds the lines of all tasks.
fn push_tasks(text: &mut Vec<u8>, set: &TaskSet) -> Result<(), AllocError>
    ensures { OnOk result (text.new.items ≡ text.old.items ++ collect_below (length set.now.tasks) (λ x. task_line (task_at set.now x))) }
{
    for x in 0..set.tasks() {
        push_task(text, set, TaskId(x))?;
    }
    Ok(())
}

/// Adds the lines of all processors.
pub(crate) fn push_loads(text: &mut Vec<u8>, set: &TaskSet) -> Result<(), AllocError>
    ensures { OnOk result (text.new.items ≡ text.old.items ++ load_lines set.now) }
{
    for k in 0..set.processors() {
        push_load(text, set, k + 1)?;
    }
    Ok(())
}

/// The table of a set: a header, a line for each task in order, and a line for each processor with its load in millionths. Times are in
/// ticks. It fails only for want of memory.
pub fn set_table(alloc: Global, set: &TaskSet) -> Result<Vec<u8>, AllocError>
    ensures { IfOk result (λ text. text.items ≡ table_text set.now) }
{
    let mut text = Vec::new(alloc);
    push_header(&mut text)?;
    push_tasks(&mut text, set)?;
    push_loads(&mut text, set)?;
    Ok(text)
}
