//! From which processors there are columns of which resources, as a table. A program looks at all its columns once for it, and not once
//! for each pair of a processor and a resource.

ghost use Rattle.std.specs.Prelude.{◌≡◌, ◌*◌, ◌+◌, true, false, length, slice_index_or, IfOk};
ghost use Rattle.blocking_columns.specs.ColumnDef.{column_seen, AreKnown};
ghost use Rattle.spin_protocol.specs.Origins.{origin_place, CanMark, Marks, AreOrigins};

use fragments::Fragment;
use sporadic_model::{ResourceId, TaskSet};
use std::alloc::{AllocError, Global};

/// The place in the table of a processor, counted from 1, and a resource.
fn origin_place(processor: u32, q: ResourceId) -> usize
    ensures { result ≡ origin_place processor q.0 }
{
    q.0 as usize * 64 + processor as usize
}

/// Marks where the column comes from, unless it is one of preemption.
fn mark(set: &TaskSet, table: &mut [bool], column: Fragment)
    requires { CanMark set.now (column_seen column) table.old }
    ensures { Marks set.now (column_seen column) table.old table.new }
{
    // a set has at most 64 processors
    let _processors = set.processors();
    if !column.class.is_preemption() {
        table[origin_place(set.processor(column.task), column.resource)] = true;
    }
}

/// The table of these columns.
pub fn origins_of(
    alloc: Global,
    set: &TaskSet,
    columns: &[Fragment],
) -> Result<Vec<bool>, AllocError>
    requires { AreKnown (length set.now.tasks) (length set.now.resources) columns.now }
    ensures { IfOk result (λ v. AreOrigins set.now columns.now v.items) }
{
    let mut table = vec![in alloc; false; set.resources() as usize * 64 + 1]?;
    for place in 0..columns.len() {
        mark(set, &mut table, columns[place]);
    }
    Ok(table)
}

/// Does the table mark the processor and the resource?
pub fn is_origin(table: &[bool], processor: u32, q: ResourceId) -> bool
    ensures { result ≡ slice_index_or table.now (origin_place processor q.0) false }
{
    let place = origin_place(processor, q);
    place < table.len() && table[place]
}
