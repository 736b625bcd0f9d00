ghost use Rattle.std.specs.Prelude.{◌≡◌, ◌++◌, string_bytes, IfOk};
ghost use Rattle.reply_texts.specs.Refusals.{place_text, size_text, model_word, model_place, reason_text};
ghost use Rattle.reply_texts.specs.Refusals.{cert_place_text, cert_reason_text, line_text, jobs_reason_text};
ghost use Rattle.reply_texts.specs.Refusals.{rows_reason_text, refusal_reason_text};

use cert_json::{CertPlace, CertRefusal};
use refusal_json::ReadFault;
use sporadic_model::{ModelRefusal, Place, SizeOf};
use std::alloc::{AllocError, Global};
use taskset_json::SetRefusal;
use trace_csv::{JobsRefusal, RowsRefusal};

/// The text of a place. Positions are counted from 1 in the text.
fn place_words(alloc: Global, place: Place) -> Result<String, AllocError>
    ensures { IfOk result (λ text. string_bytes text ≡ place_text place) }
{
    match place {
        Place::Root => String::from_str(alloc, "root"),
        Place::Resource(q) => {
            let number = u64::from(q) + 1;
            format!(in alloc; "resource {number}")
        }
        Place::Task(x) => {
            let number = u64::from(x) + 1;
            format!(in alloc; "task {number}")
        }
        Place::Request(x, j) => {
            let task = u64::from(x) + 1;
            let entry = u64::from(j) + 1;
            format!(in alloc; "request {task} {entry}")
        }
    }
}

/// The text of a size that has a limit.
fn size_word(size: SizeOf) -> &'static str
    ensures { result.now ≡ size_text size }
{
    match size {
        SizeOf::Processors => "processors",
        SizeOf::Tasks => "tasks",
        SizeOf::Resources => "resources",
        SizeOf::Requests => "requests",
    }
}

/// The word of a refusal of the model.
fn word_of(refusal: ModelRefusal) -> &'static str
    ensures { result.now ≡ model_word refusal }
{
    match refusal {
        ModelRefusal::NoTask => "notask",
        ModelRefusal::Size(_) => "size ",
        ModelRefusal::Name(_) => "name ",
        ModelRefusal::TwiceName(_) => "twicename ",
        ModelRefusal::Processor(_) => "processor ",
        ModelRefusal::Period(_) => "period ",
        ModelRefusal::Deadline(_) => "deadline ",
        ModelRefusal::Cost(_) => "cost ",
        ModelRefusal::Local(_) => "local ",
        ModelRefusal::Resource(_) => "resource ",
        ModelRefusal::TwiceRequest(_) => "twicerequest ",
        ModelRefusal::Count(_) => "count ",
        ModelRefusal::Length(_) => "length ",
        ModelRefusal::Home(_) => "home ",
        ModelRefusal::Jitter(_) => "jitter ",
        ModelRefusal::Memory => "",
    }
}

/// The text after the word of a refusal of the model.
fn place_of(alloc: Global, refusal: ModelRefusal) -> Result<String, AllocError>
    ensures { IfOk result (λ text. string_bytes text ≡ model_place refusal) }
{
    match refusal {
        ModelRefusal::NoTask | ModelRefusal::Memory => Ok(String::new(alloc)),
        ModelRefusal::Size(size) => String::from_str(alloc, size_word(size)),
        ModelRefusal::Processor(x)
        | ModelRefusal::Period(x)
        | ModelRefusal::Deadline(x)
        | ModelRefusal::Cost(x)
        | ModelRefusal::Local(x)
        | ModelRefusal::Jitter(x) => place_words(alloc, Place::Task(x.0)),
        ModelRefusal::Name(place)
        | ModelRefusal::TwiceName(place)
        | ModelRefusal::Resource(place)
        | ModelRefusal::TwiceRequest(place)
        | ModelRefusal::Count(place)
        | ModelRefusal::Length(place) => place_words(alloc, place),
        ModelRefusal::Home(q) => place_words(alloc, Place::Resource(q.0)),
    }
}

/// A word, and after it the text of a place.
fn with_place(alloc: Global, word: &str, place: &str) -> Result<String, AllocError>
    ensures { IfOk result (λ text. string_bytes text ≡ word.now ++ place.now) }
{
    format!(in alloc; "{word}{place}")
}

/// The reason why a task set's input is refused.
pub fn reason(alloc: Global, refusal: SetRefusal) -> Result<String, AllocError>
    ensures { IfOk result (λ text. string_bytes text ≡ reason_text refusal) }
{
    match refusal {
        SetRefusal::NotJson => String::from_str(alloc, "notjson"),
        SetRefusal::Shape(place) => {
            let place = place_words(alloc, place)?;
            with_place(alloc, "shape ", place.as_str())
        }
        SetRefusal::Model(refusal) => {
            let place = place_of(alloc, refusal)?;
            with_place(alloc, word_of(refusal), place.as_str())
        }
        SetRefusal::NoHome(q) => {
            let place = place_words(alloc, Place::Resource(q.0))?;
            with_place(alloc, "nohome ", place.as_str())
        }
        SetRefusal::Memory => Ok(String::new(alloc)),
    }
}

/// The text of a place in a certificate.
fn cert_place_words(alloc: Global, place: CertPlace) -> Result<String, AllocError>
    ensures { IfOk result (λ text. string_bytes text ≡ cert_place_text place) }
{
    match place {
        CertPlace::Root => String::from_str(alloc, "root"),
        CertPlace::Bounds => String::from_str(alloc, "bounds"),
        CertPlace::Dual(k) => {
            let number = u64::from(k) + 1;
            format!(in alloc; "dual {number}")
        }
    }
}

/// The reason why a certificate's input is refused.
pub fn cert_reason(alloc: Global, refusal: CertRefusal) -> Result<String, AllocError>
    ensures { IfOk result (λ text. string_bytes text ≡ cert_reason_text refusal) }
{
    match refusal {
        CertRefusal::NotJson => String::from_str(alloc, "notjson"),
        CertRefusal::Shape(place) => {
            let place = cert_place_words(alloc, place)?;
            with_place(alloc, "shape ", place.as_str())
        }
        CertRefusal::Version => String::from_str(alloc, "version"),
        CertRefusal::OtherProtocol => String::from_str(alloc, "otherprotocol"),
        CertRefusal::Memory => Ok(String::new(alloc)),
    }
}

/// The reason why the input of a certificate of refusal is refused.
pub fn refusal_reason(alloc: Global, fault: ReadFault) -> Result<String, AllocError>
    ensures { IfOk result (λ text. string_bytes text ≡ refusal_reason_text fault) }
{
    match fault {
        ReadFault::NotJson => String::from_str(alloc, "notjson"),
        ReadFault::Shape => String::from_str(alloc, "shape"),
        ReadFault::OtherProtocol => String::from_str(alloc, "otherprotocol"),
        ReadFault::Memory => Ok(String::new(alloc)),
    }
}

/// A reason, and the number of the line that is refused.
fn at_line(alloc: Global, word: &str, line: u64) -> Result<String, AllocError>
    ensures { IfOk result (λ text. string_bytes text ≡ line_text word.now line) }
{
    format!(in alloc; "{word} {line}")
}

/// The reason why an input of jobs is refused.
pub fn jobs_reason(alloc: Global, refusal: JobsRefusal) -> Result<String, AllocError>
    ensures { IfOk result (λ text. string_bytes text ≡ jobs_reason_text refusal) }
{
    match refusal {
        JobsRefusal::Fields(line) => at_line(alloc, "fields", line),
        JobsRefusal::Number(line) => at_line(alloc, "number", line),
        JobsRefusal::UnknownName(line) => at_line(alloc, "unknownname", line),
        JobsRefusal::Script(line) => at_line(alloc, "script", line),
        JobsRefusal::OverBudget(line) => at_line(alloc, "overbudget", line),
        JobsRefusal::TooClose(line) => at_line(alloc, "tooclose", line),
        JobsRefusal::TooMany(line) => at_line(alloc, "toomany", line),
        JobsRefusal::Late(line) => at_line(alloc, "late", line),
        JobsRefusal::Memory => Ok(String::new(alloc)),
    }
}

/// The reason why an input of rows is refused.
pub fn rows_reason(alloc: Global, refusal: RowsRefusal) -> Result<String, AllocError>
    ensures { IfOk result (λ text. string_bytes text ≡ rows_reason_text refusal) }
{
    match refusal {
        RowsRefusal::Fields(line) => at_line(alloc, "fields", line),
        RowsRefusal::Number(line) => at_line(alloc, "number", line),
        RowsRefusal::UnknownJob(line) => at_line(alloc, "unknownjob", line),
        RowsRefusal::TooLong(line) => at_line(alloc, "toolong", line),
        RowsRefusal::Memory => Ok(String::new(alloc)),
    }
}
