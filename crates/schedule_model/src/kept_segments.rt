ghost use Rattle.std.specs.Prelude.{◌≡◌, ◌<◌, ◌++◌, [], true, map, length, slice_index_or};
ghost use Rattle.schedule_model.specs.JobDef.{request_ticks, no_segment};
ghost use Rattle.schedule_model.specs.JobLists.{is_listed_segment};
ghost use Rattle.schedule_model.specs.LawfulJobs.{is_resource_in};
ghost use Rattle.schedule_model.specs.Kept.{requested, kept_segment, FitSmallForm, CanTake, AllOrNone};
ghost use Rattle.schedule_model.specs.Seen.{segment_seen};

use crate::job::Segment;
use sporadic_model::{MOST_RESOURCES, ResourceId};
use std::alloc::{AllocError, Global};
use std::marker::Model;

/// Segments, in 9 bytes each.
#[derive(Drop)]
pub(crate) struct KeptSegments {
    locals: Vec<u32>,
    /// How many ticks each segment's request takes, and 0 if it has none.
    ticks: Vec<u32>,
    resources: Vec<u8>,
}

impl Model for KeptSegments {
    ghost use Rattle.std.specs.Prelude.{List};
    ghost use Rattle.schedule_model.specs.JobDef.{SegmentDef};

    ghost Value = { List SegmentDef };

    ghost use Rattle.schedule_model.specs.KeptViews.{segments_view, AreSegmentsKept};

    ghost view = { segments_view };

    ghost invariant = { AreSegmentsKept };
}

impl KeptSegments {
    pub(crate) fn new(alloc: Global) -> KeptSegments
        ensures { result ≡ [] }
    {
        KeptSegments {
            locals: Vec::new(alloc),
            ticks: Vec::new(alloc),
            resources: Vec::new(alloc),
        }
    }

    pub(crate) fn len(&self) -> usize
        ensures { result ≡ length self.now }
    {
        self.locals.len()
    }

    /// Segment number `n`.
    pub(crate) fn at(&self, n: usize) -> Segment
        requires { n < length self.now }
        ensures { segment_seen result ≡ slice_index_or self.now n no_segment }
    {
        segment_from(self.locals[n], self.ticks[n], self.resources[n])
    }

    /// Puts the segments of the script at the end, all or none.
    pub(crate) fn append(&mut self, script: &[Segment]) -> Result<(), AllocError>
        requires { FitSmallForm (map segment_seen script.now) }
        ensures { AllOrNone result self.old self.new (map segment_seen script.now) }
    {
        self.locals.reserve(script.len())?;
        self.ticks.reserve(script.len())?;
        self.resources.reserve(script.len())?;
        push_locals(&mut self.locals, script);
        push_ticks(&mut self.ticks, script);
        push_resources(&mut self.resources, script);
        Ok(())
    }
}

/// The segment that these three numbers keep.
fn segment_from(local: u32, ticks: u32, resource: u8) -> Segment
    ensures { segment_seen result ≡ kept_segment local ticks resource }
{
    let request = if ticks == 0 {
        None
    } else {
        Some((ResourceId(u32::from(resource)), u64::from(ticks)))
    };
    Segment {
        local: u64::from(local),
        request,
    }
}

fn local_of(segment: &Segment) -> u32
    requires { is_listed_segment (segment_seen segment.now) ≡ true }
    ensures { result ≡ (segment_seen segment.now).local }
{
    segment.local as u32
}

/// How many ticks the segment's request takes, and 0 if it has none.
fn ticks_of(segment: &Segment) -> u32
    requires { is_listed_segment (segment_seen segment.now) ≡ true }
    ensures { result ≡ request_ticks (segment_seen segment.now) }
{
    match segment.request {
        Some((_, ticks)) => ticks as u32,
        None => 0,
    }
}

/// The resource that the segment requests, and 0 if it requests none.
fn resource_of(segment: &Segment) -> u8
    requires { is_resource_in MOST_RESOURCES (segment_seen segment.now) ≡ true }
    ensures { result ≡ requested (segment_seen segment.now) }
{
    match segment.request {
        Some((q, _)) => q.0 as u8,
        None => 0,
    }
}

fn push_locals(locals: &mut Vec<u32>, script: &[Segment])
    requires { CanTake is_listed_segment locals.old script.now }
    ensures { locals.new.items ≡ locals.old.items ++ map (λ s. s.local) (map segment_seen script.now) }
{
    for segment in script {
        locals.push_reserved(local_of(segment));
    }
}

fn push_ticks(ticks: &mut Vec<u32>, script: &[Segment])
    requires { CanTake is_listed_segment ticks.old script.now }
    ensures { ticks.new.items ≡ ticks.old.items ++ map request_ticks (map segment_seen script.now) }
{
    for segment in script {
        ticks.push_reserved(ticks_of(segment));
    }
}

fn push_resources(resources: &mut Vec<u8>, script: &[Segment])
    requires { CanTake (is_resource_in MOST_RESOURCES) resources.old script.now }
    ensures { resources.new.items ≡ resources.old.items ++ map requested (map segment_seen script.now) }
{
    for segment in script {
        resources.push_reserved(resource_of(segment));
    }
}
