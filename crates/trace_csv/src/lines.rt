ghost use Rattle.std.specs.Prelude.{◌≡◌, ◌<◌, ◌^◌, ℕ, List, [], Some, length};
ghost use Rattle.trace_csv.specs.Records.{Fields, fields_seen};
ghost use Rattle.trace_csv.specs.LinesTaken.{Reasons, LineDone, LinesDone};

use crate::records::{Next, Records};
use std::alloc::{AllocError, Global};

/// The form of the lines of a file.
pub(crate) trait LineForm {
    /// Why a line is refused.
    type Refusal;

    /// How many fields a line has at most.
    ghost most: { Self → ℕ };

    /// Why a line of this number is refused after these lines, if it is.
    ghost reason: { Self → Reasons Self.Refusal };

    /// Is this want of memory, which says nothing of the lines?
    ghost is_memory: { Self → Self.Refusal → Type 0 };

    /// How many fields has a line at most?
    fn most_fields(&self) -> usize
        ensures { result ≡ most self.now };

    /// Why a line of this number with more fields is refused.
    fn too_long(&self, line: u64) -> Self::Refusal
        ensures { (before : List Fields) (fields : Fields) → most self.now < length fields → reason self.now before fields line ≡ Some result };

    /// Want of memory.
    fn no_memory(&self) -> Self::Refusal
        ensures { is_memory self.now result };
}

/// A trait of what takes lines of a form, one after another.
pub(crate) trait LineTaker<F: LineForm> {
    /// Has it taken these lines?
    ghost has: { F → List Fields → Self → Type 0 };

    /// Takes the line of this number after those that it has taken, or says why it is refused.
    fn take(
        &mut self,
        form: &F,
        alloc: Global,
        fields: &[Vec<u8>],
        line: u64,
    ) -> Result<(), F::Refusal>
        requires { (before : List Fields) × has form.now before self.old }
        ensures { (before : List Fields) → has form.now before self.old
            → LineDone (F.reason form.now) (F.is_memory form.now) (has form.now) before (fields_seen fields.now) line self.new result };
}

/// Takes all lines, or those up to the first that is refused. Nothing after that line is read.
pub(crate) fn take_lines<F: LineForm, T: LineTaker<F>>(
    alloc: Global,
    form: &F,
    mut lines: Records,
    taker: &mut T,
) -> Result<(), F::Refusal>
    requires few { length lines < 2 ^ 64 }
    requires none { T.has form.now [] taker.old }
    ensures { LinesDone (F.reason form.now) (F.is_memory form.now) (T.has form.now) lines.entry taker.new result }
{
    let most = form.most_fields();
    let mut line = 0;
    'lines: loop {
        let next = match lines.next(alloc, most) {
            Ok(next) => next,
            Err(AllocError) => return Err(form.no_memory()),
        };
        let fields = match next {
            Next::Record(fields) => fields,
            Next::Long => return Err(form.too_long(line + 1)),
            Next::End => return Ok(()),
        };
        line += 1;
        match taker.take(form, alloc, &fields, line) {
            Ok(()) => {}
            Err(refusal) => return Err(refusal),
        }
    }
}
