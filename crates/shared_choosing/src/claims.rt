ghost use Rattle.std.specs.Prelude.{◌≡◌, ℕ, ◌<◌, ◌≤◌, length, map, Option, Some, IfSome};
ghost use Rattle.schedule_model.specs.Seen.{place_seen};
ghost use Rattle.phase_machine.specs.MachineDef.{MachineDef};
ghost use Rattle.shared_choosing.specs.Scene.{place_in, running_in};
ghost use Rattle.shared_choosing.specs.Filling.{filled, FilledByAll, FilledTwice, holder_claim, local_claim};
ghost use Rattle.shared_choosing.specs.Given.{HasColumn, IsFilledAt};

use crate::choosing::{clear, put};
use crate::visiting::{Visitor, visit_each};
use phase_machine::Machine;
use phase_machine::columns::Columns;
use phase_machine::lookup::{holds, is_local, named_at};
use schedule_model::JobId;

/// Names the job at a place, if none is named there.
pub fn fill(places: &mut [Option<JobId>], i: usize, j: JobId)
    requires { i < length places.old }
    ensures { IsFilledAt place_in i j.0 places.old places.new }
{
    if named_at(places, i).is_none() {
        put(places, i, Some(j));
    }
}

/// Names the job in the column of processor `k`, counted from 1, if none is named there.
pub fn fill_on(running: &mut [Option<JobId>], k: u32, j: JobId)
    requires { HasColumn running.old k }
    ensures { IsFilledAt running_in k j.0 running.old running.new }
{
    fill(running, k as usize - 1, j);
}

/// A trait of claims: which processor does an active job claim?
pub trait Claim {
    /// What a claim needs of the machine.
    ghost needs: { Self → MachineDef → Type 0 };

    /// The processor that a job claims, counted from 1, if it claims one.
    ghost claim: { Self → MachineDef → ℕ → Option ℕ };

    /// That processor.
    fn claim_of(&self, machine: &Machine, j: JobId) -> Option<u32>
        requires needs { needs self.now machine.now }
        requires listed { j.0 < length machine.now.list.jobs }
        ensures value { result ≡ claim self.now machine.now j.0 }
        ensures least { IfSome result (λ k. 1 ≤ k) }
        ensures most { IfSome result (λ k. k ≤ machine.now.list.set.processors) };
}

/// Active jobs get what they claim, if it is free, one after the other.
#[derive(Drop)]
struct Claiming<'a, C> {
    claim: &'a C,
}

impl<'a, C: Claim> Visitor for Claiming<'a, C> {
    ghost view = { running_in };

    ghost needs = { λ v m running. C.needs v.claim.now m × (length running ≡ m.list.set.processors) };

    ghost step = { λ v m j. filled j (C.claim v.claim.now m j) };

    fn visit(&self, machine: &Machine, j: JobId, places: &mut [Option<JobId>]) {
        match self.claim.claim_of(machine, j) {
            Some(k) => fill_on(places, k, j),
            None => {}
        }
    }
}

/// Names what runs on the free processors: on each the job of the highest task that claims it.
pub fn fill_each<C: Claim>(claim: &C, machine: &Machine, running: &mut [Option<JobId>])
    requires needs { C.needs claim.now machine.now }
    requires len { length running.old ≡ machine.now.list.set.processors }
    ensures len { length running.new ≡ length running.old }
    ensures filled { FilledByAll machine.now (C.claim claim.now) (running_in (map place_seen running.old)) (running_in (map place_seen running.new)) }
{
    visit_each(&Claiming { claim }, machine, running);
}

/// Names what runs: on each processor the job of the highest task that claims it by the first claim. If there is none, it is the one by the
/// second claim.
pub fn fill_twice<A: Claim, B: Claim>(
    first: &A,
    second: &B,
    machine: &Machine,
    running: &mut [Option<JobId>],
)
    requires first { A.needs first.now machine.now }
    requires second { B.needs second.now machine.now }
    requires len { length running.old ≡ machine.now.list.set.processors }
    ensures len { length running.new ≡ length running.old }
    ensures filled { FilledTwice machine.now (A.claim first.now machine.now) (B.claim second.now machine.now)
        (running_in (map place_seen running.new)) }
{
    clear(running);
    fill_each(first, machine, running);
    fill_each(second, machine, running);
}

/// Holders claim the processor that they run on.
#[derive(Drop)]
pub struct HolderClaim<'a, C> {
    pub columns: &'a C,
    pub holders: &'a [Option<JobId>],
}

impl<'a, C: Columns> Claim for HolderClaim<'a, C> {
    ghost needs = { λ c m. C.suits c.columns.now m.list.set × (length c.holders.now ≡ length m.list.set.resources) };

    ghost claim = { λ c m. holder_claim m (C.column c.columns.now m) (place_in (map place_seen c.holders.now)) };

    fn claim_of(&self, machine: &Machine, j: JobId) -> Option<u32> {
        if holds(machine, self.holders, j) {
            return Some(self.columns.column_of(machine, j));
        }
        None
    }
}

/// Local jobs claim the processor that they run on.
#[derive(Drop)]
pub struct LocalClaim<'a, C> {
    pub columns: &'a C,
}

impl<'a, C: Columns> Claim for LocalClaim<'a, C> {
    ghost needs = { λ c m. C.suits c.columns.now m.list.set };

    ghost claim = { λ c m. local_claim m (C.column c.columns.now m) };

    fn claim_of(&self, machine: &Machine, j: JobId) -> Option<u32> {
        if is_local(machine, j) {
            return Some(self.columns.column_of(machine, j));
        }
        None
    }
}
