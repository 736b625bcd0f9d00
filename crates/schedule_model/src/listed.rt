ghost use Rattle.std.specs.Prelude.{◌≡◌, ◌<◌, length, slice_index_or};
ghost use Rattle.schedule_model.specs.JobDef.{no_segment};
ghost use Rattle.schedule_model.specs.Kept.{between, HasBetween};
ghost use Rattle.schedule_model.specs.Seen.{segment_seen};

use crate::job::Segment;
use crate::kept_segments::KeptSegments;
use sporadic_model::TaskId;
use std::marker::Model;

/// A job of a list.
#[derive(Drop)]
pub struct ListedJob<'a> {
    /// The job's task.
    pub task: TaskId,
    /// The tick at which the job arrives. Its deadline counts from here.
    pub arrival: u64,
    /// The tick at which the job is released, at most 10^9. From here it may run, and its response counts from here.
    pub release: u64,
    /// What the job does, segment after segment.
    pub script: ListedScript<'a>,
}

/// The segments of a job of a list.
#[derive(Drop)]
pub struct ListedScript<'a> {
    segments: &'a KeptSegments,
    from: u32,
    end: u32,
}

impl<'a> Model for ListedScript<'a> {
    ghost use Rattle.std.specs.Prelude.{List};
    ghost use Rattle.schedule_model.specs.JobDef.{SegmentDef};

    ghost Value = { List SegmentDef };

    ghost use Rattle.schedule_model.specs.ListedView.{script_view, IsScriptListed};

    ghost view = { script_view };

    ghost invariant = { IsScriptListed };
}

impl<'a> ListedScript<'a> {
    /// The segments from one place up to another.
    pub(crate) fn new(segments: &'a KeptSegments, from: u32, end: u32) -> ListedScript<'a>
        requires { HasBetween from end segments.now }
        ensures { result ≡ between from end segments.now }
    {
        ListedScript {
            segments,
            from,
            end,
        }
    }

    /// How many segments there are.
    pub fn len(&self) -> usize
        ensures { result ≡ length self.now }
    {
        (self.end - self.from) as usize
    }

    /// Segment number `n`, counted from 0.
    pub fn at(&self, n: usize) -> Segment
        requires { n < length self.now }
        ensures { segment_seen result ≡ slice_index_or self.now n no_segment }
    {
        self.segments.at(self.from as usize + n)
    }
}
