ghost use Rattle.std.specs.Prelude.{◌≡◌};
ghost use Rattle.trace_csv.specs.JobLines.{has_known_resource};
ghost use Rattle.trace_csv.specs.PartsSeen.{part_seen};
ghost use Rattle.trace_csv.specs.ScriptAnswers.{SegmentOf, IsOutline, SegmentsRead, ScriptRead};

use crate::script::{Part, Request, first_part};
use schedule_model::Segment;
use sporadic_model::{ResourceId, TaskSet};
use std::alloc::{AllocError, AllocFailed, Global};

/// No job of more segments stays within its task's budget. A set has at most 32 resources, and a job requests each at most 1000 times.
/// After its last request it may have one segment more.
pub(crate) const MOST_WITHIN_BUDGET: u64 = 32_001;

/// Why no segments are read from a text.
#[derive(Clone, Copy, Debug, PartialEq, Eq)]
pub(crate) enum ScriptFault {
    /// The text is no script.
    Form,
    /// A request names no resource of the set.
    UnknownName,
    /// There are more segments than any budget allows.
    TooLong,
    /// Memory was refused.
    Memory,
}

impl From<AllocError> for ScriptFault {
    ghost use Rattle.trace_csv.specs.declared.segments.ScriptFault.TheVariants.{Memory};

    ghost from_gives = { λ _ fault. fault ≡ Memory };

    fn from(_error: AllocError) -> ScriptFault {
        ScriptFault::Memory
    }
}

impl<T: Drop> From<AllocFailed<T>> for ScriptFault {
    ghost use Rattle.trace_csv.specs.declared.segments.ScriptFault.TheVariants.{Memory};

    ghost from_gives = { λ _ fault. fault ≡ Memory };

    fn from(_error: AllocFailed<T>) -> ScriptFault {
        ScriptFault::Memory
    }
}

/// What is known of a script before any memory is taken.
#[derive(Clone, Copy, Debug)]
pub(crate) struct Outline {
    /// How many segments it has.
    pub(crate) segments: u64,
    /// Is each resource that it requests one of the set's?
    pub(crate) is_known: bool,
}

/// If the part requests a resource: is it one of the set's?
fn has_known_resource(set: &TaskSet, part: &Part) -> bool
    ensures { result ≡ has_known_resource set.now (part_seen part.now) }
{
    match part.request {
        Some(request) => set.resource_named(request.resource).is_some(),
        None => true,
    }
}

/// What is known of the text's script, if it is one.
fn outline_of(set: &TaskSet, text: &[u8]) -> Option<Outline>
    ensures { IsOutline result set.now text.now }
{
    let mut segments = 0;
    let mut is_known = true;
    let mut rest = Some(text);
    while let Some(text) = rest {
        let (part, after) = first_part(text)?;
        segments += 1;
        is_known = is_known && has_known_resource(set, &part);
        rest = after;
    }
    Some(Outline { segments, is_known })
}

/// The segment of a part of a script; none if it names no resource of the set.
fn segment_of(set: &TaskSet, part: &Part) -> Option<Segment>
    ensures { SegmentOf result set.now (part_seen part.now) }
{
    let local = part.local;
    let Some(request) = part.request else {
        let request = None;
        return Some(Segment { local, request });
    };
    match set.resource_named(request.resource) {
        Some(resource) => Some(Segment {
            local,
            request: Some((resource, request.ticks)),
        }),
        None => None,
    }
}

/// The segments of a script, in a list with room for this many.
fn segments_of(
    alloc: Global,
    set: &TaskSet,
    text: &[u8],
    room: usize,
) -> Result<Vec<Segment>, ScriptFault>
    ensures { SegmentsRead result set.now text.now }
{
    let mut segments = Vec::with_capacity(alloc, room)?;
    let mut rest = Some(text);
    while let Some(text) = rest {
        let Some((part, after)) = first_part(text) else {
            return Err(ScriptFault::Form);
        };
        let Some(segment) = segment_of(set, &part) else {
            return Err(ScriptFault::UnknownName);
        };
        segments.push(segment)?;
        rest = after;
    }
    Ok(segments)
}

/// The segments of a script, if they are no more than a budget allows. The text is read twice. So memory is taken only for a script that
/// may be within budget, and only as much as it needs.
pub(crate) fn script_of(
    alloc: Global,
    set: &TaskSet,
    text: &[u8],
) -> Result<Vec<Segment>, ScriptFault>
    ensures { ScriptRead result set.now text.now }
{
    let Some(outline) = outline_of(set, text) else {
        return Err(ScriptFault::Form);
    };
    if !outline.is_known {
        return Err(ScriptFault::UnknownName);
    }
    if outline.segments > MOST_WITHIN_BUDGET {
        return Err(ScriptFault::TooLong);
    }
    segments_of(alloc, set, text, outline.segments as usize)
}
