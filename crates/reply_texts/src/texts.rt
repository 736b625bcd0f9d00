ghost use Rattle.std.specs.Prelude.{◌≡◌, ◌<◌, ◌++◌, IfOk, OnOk, map, length, slice_index_or};
ghost use Rattle.sporadic_model.specs.SetDef.{task_at};
ghost use Rattle.schedule_answers.specs.TaskAnswers.{measure_seen, no_measure};
ghost use Rattle.schedule_answers.specs.TaskAnswers.{no_figures};
ghost use Rattle.reply_texts.specs.Failing.{FailsTask};
ghost use Rattle.reply_texts.specs.Texts.{not_shown_text, wide_text, response_text, measures_text, measures_line};
ghost use Rattle.reply_texts.specs.Texts.{measures_lines, lawful_text, rule_text, broken_text, failing_task};
ghost use Rattle.reply_texts.specs.Texts.{invalid_text, behind_space, bounded_text, classes_text, figures_text};
ghost use Rattle.reply_texts.specs.Texts.{figures_line, figures_lines, kept_text};

use schedule_answers::{Breach, Invalid, TaskFigures, TaskMeasure};
use schedule_model::Rule;
use sporadic_model::{TaskId, TaskSet};
use std::alloc::{AllocError, Global};
use text_pieces::push_number;

/// The text for a task whose value is above its latest bound, which is its deadline less its jitter.
pub fn not_shown_line(
    alloc: Global,
    name: &str,
    value: u64,
    latest: u64,
) -> Result<Vec<u8>, AllocError>
    ensures { IfOk result (λ text. text.items ≡ not_shown_text name.now value latest) }
{
    let text = format!(in alloc; "not shown {name} {value} {latest}\n")?;
    Ok(text.into_bytes())
}

/// The text for a task whose program forms a fraction that is too wide.
pub fn wide_line(alloc: Global, name: &str) -> Result<Vec<u8>, AllocError>
    ensures { IfOk result (λ text. text.items ≡ wide_text name.now) }
{
    let text = format!(in alloc; "wide {name}\n")?;
    Ok(text.into_bytes())
}

/// Adds the greatest response of a task's finished jobs, or a dash if none finished.
fn push_response(text: &mut Vec<u8>, response: Option<u64>) -> Result<(), AllocError>
    ensures { OnOk result (text.new.items ≡ text.old.items ++ response_text response) }
{
    match response {
        Some(ticks) => push_number(text, ticks),
        None => text.extend_from_slice(b"-"),
    }
}

/// Adds what is measured of a task.
fn push_measure(text: &mut Vec<u8>, measure: TaskMeasure) -> Result<(), AllocError>
    ensures { OnOk result (text.new.items ≡ text.old.items ++ measures_text (measure_seen measure)) }
{
    push_number(text, measure.finished)?;
    text.extend_from_slice(b" ")?;
    push_response(text, measure.response)?;
    text.extend_from_slice(b" ")?;
    push_number(text, measure.blocking)
}

/// Adds the line of a task.
fn push_task(
    text: &mut Vec<u8>,
    set: &TaskSet,
    x: TaskId,
    measure: TaskMeasure,
) -> Result<(), AllocError>
    requires { x.0 < length set.now.tasks }
    ensures { OnOk result (text.new.items
        ≡ text.old.items ++ measures_line (task_at set.now x.0).name (measure_seen measure)) }
{
    text.extend_from_slice(set.task_name(x).as_bytes())?;
    text.extend_from_slice(b" ")?;
    push_measure(text, measure)?;
    text.extend_from_slice(b"\n")
}

/// Adds the lines of all tasks.
fn push_measures(
    text: &mut Vec<u8>,
    set: &TaskSet,
    measures: &[TaskMeasure],
) -> Result<(), AllocError>
    requires { length measures.now ≡ length set.now.tasks }
    ensures { OnOk result (text.new.items ≡ text.old.items
        ++ measures_lines set.now (λ x. measure_seen (slice_index_or measures.now x no_measure))) }
{
    for x in 0..set.tasks() {
        push_task(text, set, TaskId(x), measures[x as usize])?;
    }
    Ok(())
}

/// The text for a schedule of this many ticks that keeps the rules.
pub fn lawful_lines(
    alloc: Global,
    set: &TaskSet,
    ticks: u64,
    measures: &[TaskMeasure],
) -> Result<Vec<u8>, AllocError>
    requires { length measures.now ≡ length set.now.tasks }
    ensures { IfOk result (λ text. text.items
        ≡ lawful_text set.now ticks (λ x. measure_seen (slice_index_or measures.now x no_measure))) }
{
    let mut text = Vec::new(alloc);
    text.extend_from_slice(b"lawful ")?;
    push_number(&mut text, ticks)?;
    text.extend_from_slice(b"\n")?;
    push_measures(&mut text, set, measures)?;
    Ok(text)
}

/// The word of a rule.
fn rule_word(rule: Rule) -> &'static str
    ensures { result.now ≡ rule_text rule }
{
    match rule {
        Rule::Run => "run",
        Rule::Keep => "keep",
        Rule::Grant => "grant",
        Rule::Idle => "idle",
        Rule::Priority => "priority",
    }
}

/// The text for a schedule whose row at this tick breaks this rule.
pub fn broken_line(alloc: Global, breach: Breach) -> Result<Vec<u8>, AllocError>
    ensures { IfOk result (λ text. text.items ≡ broken_text breach.tick breach.rule) }
{
    let tick = breach.tick;
    let word = rule_word(breach.rule);
    let text = format!(in alloc; "broken {tick} {word}\n")?;
    Ok(text.into_bytes())
}

/// The text for a certificate with this task, which fails the test of this word.
fn failing_line(
    alloc: Global,
    word: &str,
    set: &TaskSet,
    task: TaskId,
) -> Result<Vec<u8>, AllocError>
    requires { task.0 < length set.now.tasks }
    ensures { IfOk result (λ text. text.items ≡ word.now ++ failing_task set.now task.0) }
{
    let name = set.task_name(task);
    let text = format!(in alloc; "{word} {name}\n")?;
    Ok(text.into_bytes())
}

/// The text for a certificate in which this task's dual doesn't cover this column. Columns are counted from 1 in the text.
fn uncovered_line(
    alloc: Global,
    set: &TaskSet,
    task: TaskId,
    column: u32,
) -> Result<Vec<u8>, AllocError>
    requires { task.0 < length set.now.tasks }
    ensures { IfOk result (λ text. text.items ≡ invalid_text set.now (Invalid.Cover task column)) }
{
    let name = set.task_name(task);
    let number = u64::from(column) + 1;
    let text = format!(in alloc; "invalid cover {name} {number}\n")?;
    Ok(text.into_bytes())
}

/// The text for a certificate that isn't valid.
pub fn invalid_line(alloc: Global, set: &TaskSet, failure: Invalid) -> Result<Vec<u8>, AllocError>
    requires { FailsTask set.now failure }
    ensures { IfOk result (λ text. text.items ≡ invalid_text set.now failure) }
{
    match failure {
        Invalid::Size => Vec::from_slice(alloc, b"invalid size\n"),
        Invalid::Bound(task) => failing_line(alloc, "invalid bound", set, task),
        Invalid::DualSize(task) => failing_line(alloc, "invalid dualsize", set, task),
        Invalid::Cover(task, column) => uncovered_line(alloc, set, task, column),
        Invalid::Small(task) => failing_line(alloc, "invalid small", set, task),
        Invalid::Memory => Ok(Vec::new(alloc)),
    }
}

/// Adds a space and a number.
fn push_behind_space(text: &mut Vec<u8>, n: u64) -> Result<(), AllocError>
    ensures { OnOk result (text.new.items ≡ text.old.items ++ behind_space n) }
{
    text.extend_from_slice(b" ")?;
    push_number(text, n)
}

/// Adds the response and the blocking of a task, each with its bound.
fn push_bounded(text: &mut Vec<u8>, figures: TaskFigures) -> Result<(), AllocError>
    ensures { OnOk result (text.new.items ≡ text.old.items ++ bounded_text figures) }
{
    push_response(text, figures.response)?;
    push_behind_space(text, figures.bound)?;
    push_behind_space(text, figures.blocking)?;
    push_behind_space(text, figures.value)
}

/// Adds the ticks of each class.
fn push_classes(text: &mut Vec<u8>, figures: TaskFigures) -> Result<(), AllocError>
    ensures { OnOk result (text.new.items ≡ text.old.items ++ classes_text figures) }
{
    push_behind_space(text, figures.direct)?;
    push_behind_space(text, figures.indirect)?;
    push_behind_space(text, figures.preemption)
}

/// Adds the figures of a task.
fn push_figures(text: &mut Vec<u8>, figures: TaskFigures) -> Result<(), AllocError>
    ensures { OnOk result (text.new.items ≡ text.old.items ++ figures_text figures) }
{
    push_bounded(text, figures)?;
    push_classes(text, figures)
}

/// Adds the line of a task with its figures.
fn push_figures_line(
    text: &mut Vec<u8>,
    set: &TaskSet,
    x: TaskId,
    figures: TaskFigures,
) -> Result<(), AllocError>
    requires { x.0 < length set.now.tasks }
    ensures { OnOk result (text.new.items ≡ text.old.items ++ figures_line (task_at set.now x.0).name figures) }
{
    text.extend_from_slice(set.task_name(x).as_bytes())?;
    text.extend_from_slice(b" ")?;
    push_figures(text, figures)?;
    text.extend_from_slice(b"\n")
}

/// Adds the lines of all tasks with their figures.
fn push_all_figures(
    text: &mut Vec<u8>,
    set: &TaskSet,
    figures: &[TaskFigures],
) -> Result<(), AllocError>
    requires { length figures.now ≡ length set.now.tasks }
    ensures { OnOk result (text.new.items ≡ text.old.items ++ figures_lines set.now (λ x. slice_index_or figures.now x no_figures)) }
{
    for x in 0..set.tasks() {
        push_figures_line(text, set, TaskId(x), figures[x as usize])?;
    }
    Ok(())
}

/// The text for a schedule of this many ticks that keeps the rules and the bounds.
pub fn kept_lines(
    alloc: Global,
    set: &TaskSet,
    ticks: u64,
    figures: &[TaskFigures],
) -> Result<Vec<u8>, AllocError>
    requires { length figures.now ≡ length set.now.tasks }
    ensures { IfOk result (λ text. text.items ≡ kept_text set.now ticks (λ x. slice_index_or figures.now x no_figures)) }
{
    let mut text = Vec::new(alloc);
    text.extend_from_slice(b"kept ")?;
    push_number(&mut text, ticks)?;
    text.extend_from_slice(b"\n")?;
    push_all_figures(&mut text, set, figures)?;
    Ok(text)
}
