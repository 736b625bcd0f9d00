//! Resources for which lower tasks may spin, and which of them a row takes together.

ghost use Rattle.std.specs.Prelude.{◌≡◌, ◌<◌, ◌≤◌, ◌&&◌, not, false, nat_lt, length, slice_index_or, IfOk};
ghost use Rattle.number_laws.specs.Tests.{count_below};
ghost use Rattle.closer_spin.specs.Tables.{AreUsers};
ghost use Rattle.closer_spin_laws.specs.CloserSpinRows.{are_many};
ghost use Rattle.closer_spin.specs.Groups.{AreSpunTables, TellsThere, TellEverywhere};
ghost use Rattle.closer_spin.specs.Together.{taken_together, least_above, paired, is_paired};

use crate::tables::{Lone, SetApart, SpunAbove, SpunBelow, how_many};
use spin_protocol::{ResourceTest, table_of};
use sporadic_model::{ResourceId, TaskId, TaskSet};
use std::alloc::{AllocError, Global};

/// Which resources a row takes together.
#[derive(Clone, Copy, Debug, PartialEq, Eq)]
pub enum Group {
    /// All for which lower tasks may spin.
    All,
    /// All of them but this one.
    Without(ResourceId),
    /// Those for which only lower tasks may spin, and this one, which is used above.
    LoneWith(ResourceId),
    /// Those for which only lower tasks may spin.
    Lone,
}

/// How many resources for which lower tasks may spin have to be used above, so that no other row says the same?
pub(crate) fn least_above(group: Group) -> u32
    ensures { result ≡ least_above group }
{
    match group {
        Group::All => 1,
        Group::Without(_) => 0,
        Group::LoneWith(_) => 3,
        Group::Lone => 0,
    }
}

/// What a row of one resource takes beside it, or in its place.
#[derive(Clone, Copy, Debug, PartialEq, Eq)]
pub enum Pairing {
    /// All others, in its place.
    Others,
    /// The lone ones, beside one that is used above.
    Lone,
}

/// The resources that it takes.
pub(crate) fn paired(pairing: Pairing, q: u32) -> Group
    ensures { result ≡ paired pairing q }
{
    match pairing {
        Pairing::Others => Group::Without(ResourceId(q)),
        Pairing::Lone => Group::LoneWith(ResourceId(q)),
    }
}

/// For which resources lower tasks may spin on a processor, counted from 1.
#[derive(Drop)]
pub(crate) struct SpunThere {
    pub(crate) processor: u32,
    pub(crate) spun: Vec<bool>,
    /// Those of them that are used above.
    pub(crate) shared: Vec<bool>,
    /// The others.
    pub(crate) lone: Vec<bool>,
    /// Those of which all others have a row.
    pub(crate) apart: Vec<bool>,
    /// How many are used above.
    pub(crate) above: u32,
    /// Have lone ones no rows of their own?
    pub(crate) leaves_out: bool,
}

/// How many resources have a row each that leaves it out, at most. With more of them programs would take long to solve.
const MOST_SET_APART: u32 = 10;

/// Are they too many for that?
fn are_many(number: u32) -> bool
    ensures { result ≡ are_many number }
{
    number > MOST_SET_APART
}

/// Are several used above, and not many?
fn are_few_above(above: u32) -> bool
    ensures { result ≡ nat_lt 1 above && not (are_many above) }
{
    above > 1 && !are_many(above)
}

/// Are they many, and several of them lone?
fn are_left_out(many: bool, lone: &[bool]) -> bool
    requires { length lone.now ≤ 32 }
    ensures { result ≡ many && nat_lt 1 (count_below (length lone.now) (λ q. slice_index_or lone.now q false)) }
{
    many && how_many(lone) > 1
}

/// Tables of the resources for which lower tasks may spin on a processor.
#[derive(Drop)]
struct SpunTables {
    spun: Vec<bool>,
    /// Those of them that are used above.
    shared: Vec<bool>,
    /// The others.
    lone: Vec<bool>,
}

/// They are told by tables of the resources that lower tasks use and of those that are used above.
fn spun_tables(
    alloc: Global,
    set: &TaskSet,
    i: TaskId,
    processor: u32,
    below: &[bool],
    above: &[bool],
) -> Result<SpunTables, AllocError>
    requires task { i.0 < length set.now.tasks }
    requires users { AreUsers set.now i.0 below.now above.now }
    ensures { IfOk result (λ t. AreSpunTables set.now i.0 processor t) }
{
    let spun = table_of(alloc, set, i, &SpunBelow { processor, below })?;
    let shared = {
        let test = SpunAbove {
            processor,
            spun: &spun,
            above,
        };
        table_of(alloc, set, i, &test)?
    };
    let lone = {
        let test = Lone {
            processor,
            spun: &spun,
            above,
        };
        table_of(alloc, set, i, &test)?
    };
    Ok(SpunTables { spun, shared, lone })
}

/// The same with what they say of the rows.
pub(crate) fn spun_there(
    alloc: Global,
    set: &TaskSet,
    i: TaskId,
    processor: u32,
    below: &[bool],
    above: &[bool],
) -> Result<SpunThere, AllocError>
    requires task { i.0 < length set.now.tasks }
    requires users { AreUsers set.now i.0 below.now above.now }
    ensures { IfOk result (λ t. (t.processor ≡ processor) × TellsThere set.now i.0 t) }
{
    // a set has at most 32 resources
    let _resources = set.resources();
    let tables = spun_tables(alloc, set, i, processor, below, above)?;
    let above = how_many(&tables.shared);
    let many = are_many(how_many(&tables.spun));
    let apart = {
        let test = SetApart {
            processor,
            shared: &tables.shared,
            lone: &tables.lone,
            are_few_above: are_few_above(above),
            are_many: many,
        };
        table_of(alloc, set, i, &test)?
    };
    let leaves_out = are_left_out(many, &tables.lone);
    Ok(SpunThere {
        processor,
        spun: tables.spun,
        shared: tables.shared,
        lone: tables.lone,
        apart,
        above,
        leaves_out,
    })
}

/// The same of each processor.
pub(crate) fn spun_everywhere(
    alloc: Global,
    set: &TaskSet,
    i: TaskId,
    below: &[bool],
    above: &[bool],
) -> Result<Vec<SpunThere>, AllocError>
    requires task { i.0 < length set.now.tasks }
    requires users { AreUsers set.now i.0 below.now above.now }
    ensures { IfOk result (λ everywhere. TellEverywhere set.now i.0 everywhere.items) }
{
    // a set has few processors
    let processors = set.processors();
    let mut everywhere = Vec::with_capacity(alloc, processors as usize)?;
    for k in 0..processors {
        let there = spun_there(alloc, set, i, k + 1, below, above)?;
        everywhere.push(there)?;
    }
    Ok(everywhere)
}

/// Has the pairing a row of this resource?
pub(crate) fn is_paired(
    set: &TaskSet,
    i: TaskId,
    there: &SpunThere,
    pairing: Pairing,
    q: u32,
) -> bool
    requires resource { q < length set.now.resources }
    requires there { TellsThere set.now i.0 there.now }
    ensures { result ≡ is_paired set.now i.0 there.now.processor pairing q }
{
    match pairing {
        Pairing::Others => there.apart[q as usize],
        Pairing::Lone => there.shared[q as usize],
    }
}

/// Does a row of the group take the resource?
#[derive(Drop)]
pub(crate) struct InGroup<'a> {
    pub(crate) there: &'a SpunThere,
    pub(crate) group: Group,
}

impl<'a> ResourceTest for InGroup<'a> {
    ghost use Rattle.closer_spin.specs.Groups.{IsGroupOf};

    ghost fits = { λ t set i. IsGroupOf set i t.there.now t.group };

    ghost passes = { λ t set i. taken_together set i t.there.now.processor t.group };

    fn test(&self, _set: &TaskSet, _i: TaskId, q: ResourceId) -> bool {
        let there = self.there;
        match self.group {
            Group::All => there.spun[q.0 as usize],
            Group::Without(without) => {
                there.apart[without.0 as usize] && (there.spun[q.0 as usize] && q != without)
            }
            Group::LoneWith(with) => {
                there.shared[with.0 as usize] && (q == with || there.lone[q.0 as usize])
            }
            Group::Lone => there.lone[q.0 as usize],
        }
    }
}
