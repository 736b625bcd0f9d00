ghost use Rattle.std.specs.Prelude.{◌≡◌, length, map};
ghost use Rattle.sporadic_model.specs.Homes.{EachHasHome};
ghost use Rattle.schedule_model.specs.Chosen.{IsSized};
ghost use Rattle.schedule_model.specs.Seen.{row_seen, place_seen};
ghost use Rattle.shared_choosing.specs.Scene.{place_in, running_in};
ghost use Rattle.shared_choosing.specs.Filling.{filled};
ghost use Rattle.shared_choosing.specs.Given.{NamesResource};
ghost use Rattle.dpcp_rules.specs.Choosing.{grant_claim, AreHolders, IsRunning};
ghost use Rattle.dpcp_rules.specs.Given.{IsJobServed, ArePlacesServed};
ghost use Rattle.dpcp_rules.specs.Verdicts.{IsChosen};

use crate::judging::is_due;
use crate::lookup::AtHomes;
use crate::tables::{Tables, tables_of};
use phase_machine::Machine;
use schedule_model::{JobId, Row};
use shared_choosing::choosing::{keep_all, requested_resource};
use shared_choosing::claims::{HolderClaim, LocalClaim, fill, fill_twice};
use shared_choosing::row_choice::{RowChoice, choose_row};
use shared_choosing::visiting::{Visitor, visit_each};
use sporadic_model::ResourceId;

/// The resource that is granted to the job: the one that it requests, if it waits and is due.
fn grant_claim(machine: &Machine, tables: &Tables, j: JobId) -> Option<ResourceId>
    requires { IsJobServed machine.now j.0 }
    ensures { NamesResource machine.now (grant_claim machine.now tables.now.first.keys tables.now.bars.keys j.0) result }
{
    if machine.waiting(j) && is_due(machine, tables, j) {
        return requested_resource(machine, j);
    }
    None
}

/// Active jobs are granted the resources for which they are due, one job after the other.
#[derive(Drop)]
struct Granting<'a> {
    tables: &'a Tables,
}

impl<'a> Visitor for Granting<'a> {
    ghost view = { place_in };

    ghost needs = { λ v m holders. EachHasHome m.list.set × (length holders ≡ length m.list.set.resources) };

    ghost step = { λ v m j. filled j (grant_claim m v.tables.now.first.keys v.tables.now.bars.keys j) };

    fn visit(&self, machine: &Machine, j: JobId, places: &mut [Option<JobId>]) {
        match grant_claim(machine, self.tables, j) {
            Some(q) => fill(places, q.0 as usize, j),
            None => {}
        }
    }
}

/// Names the holders of the row: those that are kept, and those that are due.
fn grant_all(machine: &Machine, tables: &Tables, holders: &mut [Option<JobId>])
    requires { ArePlacesServed machine.now holders.old }
    ensures len { length holders.new ≡ length holders.old }
    ensures granted { AreHolders machine.now tables.now.first.keys tables.now.bars.keys (place_in (map place_seen holders.new)) }
{
    keep_all(machine, holders);
    visit_each(&Granting { tables }, machine, holders);
}

/// Names what runs, given the holders: on each processor the holder of the highest task. If there is none, it is the Local job of the
/// highest task.
fn run_all(machine: &Machine, holders: &[Option<JobId>], running: &mut [Option<JobId>])
    requires holders { ArePlacesServed machine.now holders.now }
    requires len { length running.old ≡ machine.now.list.set.processors }
    ensures len { length running.new ≡ length running.old }
    ensures running { IsRunning machine.now (place_in (map place_seen holders.now)) (running_in (map place_seen running.new)) }
{
    let first = HolderClaim {
        columns: &AtHomes,
        holders,
    };
    fill_twice(&first, &LocalClaim { columns: &AtHomes }, machine, running);
}

/// The choice of DPCP.
#[derive(Drop)]
struct DpcpChoice<'a> {
    tables: &'a Tables,
}

impl<'a> RowChoice for DpcpChoice<'a> {
    ghost needs = { λ c m. EachHasHome m.list.set };

    ghost granted = { λ c m. AreHolders m c.tables.now.first.keys c.tables.now.bars.keys };

    ghost placed = { λ c m. IsRunning m };

    fn grant(&self, machine: &Machine, holders: &mut [Option<JobId>]) {
        grant_all(machine, self.tables, holders);
    }

    fn run(&self, machine: &Machine, holders: &[Option<JobId>], running: &mut [Option<JobId>]) {
        run_all(machine, holders, running);
    }
}

/// Makes the lent row the chosen one: first the holders, then what runs.
pub fn choose(machine: &Machine, row: &mut Row)
    requires suits { EachHasHome machine.now.list.set }
    requires sized { IsSized machine.now.list.set (row_seen row.old) }
    ensures { IsChosen machine.now (row_seen row.new) }
{
    let tables = tables_of(machine);
    choose_row(&DpcpChoice { tables: &tables }, machine, row);
}
