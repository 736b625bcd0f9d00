ghost use Rattle.std.specs.Prelude.{◌≡◌, ℕ, ◌<◌, length, min, replicate};
ghost use Rattle.sporadic_model.specs.Homes.{EachHasHome};
ghost use Rattle.dpcp_rules.specs.Homes.{waiting_place, kept_place, entry_at};
ghost use Rattle.dpcp_rules.specs.Tables.{IsPlace, TellsFirst, TellsBars, AreTables};
ghost use Rattle.dpcp_rules.specs.declared.tables.TheConstants.{PLACES};

use crate::lookup::{AtHomes, ceiling_of, home_of, keeps_the_model};
use phase_machine::Machine;
use phase_machine::columns::Columns;
use phase_machine::lookup::{resources_of, tasks_of};
use shared_choosing::choosing::kept;
use sporadic_model::{ResourceId, TaskId};

/// One place for each of the at most 64 processors, which are numbered from 1, and one for none.
pub const PLACES: usize = 65;

/// A number for each processor: the least of the keys that were noted for it.
#[derive(Drop)]
pub struct Table {
    pub(crate) keys: [u32; PLACES],
}

impl Table {
    /// A table in which each processor has the same key.
    fn new(key: u32) -> Table
        ensures { result.keys ≡ replicate PLACES key }
    {
        Table {
            keys: [key; PLACES],
        }
    }

    /// Lowers the entry for a processor to the key, if the key is less.
    fn note(&mut self, k: u32, key: u32)
        requires { k < PLACES }
        ensures here { entry_at self.new.keys k ≡ min (entry_at self.old.keys k) key }
        ensures others { (r : ℕ) → (r ≡ k → ⊥) → entry_at self.new.keys r ≡ entry_at self.old.keys r }
    {
        if key < self.keys[k as usize] {
            self.keys[k as usize] = key;
        }
    }

    /// The entry for a processor.
    pub(crate) fn at(&self, k: u32) -> u32
        requires { k < PLACES }
        ensures { result ≡ entry_at self.now.keys k }
    {
        self.keys[k as usize]
    }
}

/// What waits and what is kept, for each processor.
#[derive(Drop)]
pub struct Tables {
    /// The first task that waits there, or the number of tasks if none does.
    pub(crate) first: Table,
    /// The least ceiling of a resource that is kept there, or the number of tasks if none is.
    pub(crate) bars: Table,
}

/// The processor at which the task's active job waits for a resource, or 0 if it doesn't.
fn waiting_place(machine: &Machine, x: TaskId) -> u32
    requires suits { EachHasHome machine.now.list.set }
    requires task { x.0 < length machine.now.list.set.tasks }
    ensures { IsPlace machine.now (waiting_place machine.now x.0) result }
{
    match machine.current(x) {
        Some(j) if machine.waiting(j) => AtHomes.column_of(machine, j),
        _ => 0,
    }
}

/// The processor at which the resource is kept by its last holder, or 0 if it isn't.
fn kept_place(machine: &Machine, q: ResourceId) -> u32
    requires suits { EachHasHome machine.now.list.set }
    requires resource { q.0 < length machine.now.list.set.resources }
    ensures { IsPlace machine.now (kept_place machine.now q.0) result }
{
    if kept(machine, q).is_some() {
        return home_of(machine, q);
    }
    0
}

/// For each processor the first task that waits there, or the number of tasks if none does.
fn waiting_table(machine: &Machine) -> Table
    requires suits { EachHasHome machine.now.list.set }
    ensures least { TellsFirst machine.now result.keys }
{
    keeps_the_model(machine);
    let mut table = Table::new(tasks_of(machine));
    for x in 0..tasks_of(machine) {
        table.note(waiting_place(machine, TaskId(x)), x);
    }
    table
}

/// For each processor the least ceiling of a resource that is kept there, or the number of tasks if none is.
fn kept_table(machine: &Machine) -> Table
    requires suits { EachHasHome machine.now.list.set }
    ensures least { TellsBars machine.now result.keys }
{
    keeps_the_model(machine);
    let mut table = Table::new(tasks_of(machine));
    for q in 0..resources_of(machine) {
        table.note(
            kept_place(machine, ResourceId(q)),
            ceiling_of(machine, ResourceId(q)),
        );
    }
    table
}

/// What waits and what is kept at the machine's tick.
pub(crate) fn tables_of(machine: &Machine) -> Tables
    requires suits { EachHasHome machine.now.list.set }
    ensures { AreTables machine.now result.first.keys result.bars.keys }
{
    keeps_the_model(machine);
    Tables {
        first: waiting_table(machine),
        bars: kept_table(machine),
    }
}
