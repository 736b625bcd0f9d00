use schedule_model::{JobList, RowList, Rule};
use sporadic_model::TaskSet;
use std::alloc::Global;
use std::test::Fail;
use trace_csv::{read_jobs, read_rows};
use worked_sets::files::set_from;

/// The set of a text. This function and the next two have no contract, so what a test knows doesn't have the texts.
pub(crate) fn set_in(alloc: Global, text: &str) -> Result<TaskSet, Fail> {
    set_from(alloc, text)
}

/// The jobs of the set from their text.
pub(crate) fn jobs_in<'a>(
    alloc: Global,
    set: &'a TaskSet,
    text: &str,
) -> Result<JobList<'a>, Fail> {
    Ok(read_jobs(alloc, set, text.as_bytes())?)
}

/// The rows for the jobs from their text.
pub(crate) fn rows_in(alloc: Global, jobs: &JobList, text: &str) -> Result<RowList, Fail> {
    Ok(read_rows(alloc, jobs, text.as_bytes())?)
}

/// The word of a rule.
pub(crate) fn rule_word(rule: Rule) -> &'static str {
    match rule {
        Rule::Run => "run",
        Rule::Keep => "keep",
        Rule::Grant => "grant",
        Rule::Idle => "idle",
        Rule::Priority => "priority",
    }
}
