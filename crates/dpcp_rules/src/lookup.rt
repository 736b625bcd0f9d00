ghost use Rattle.std.specs.Prelude.{◌≡◌, ◌<◌, ◌≤◌, length};
ghost use Rattle.sporadic_model.specs.Accepted.{IsAccepted, SetSizes};
ghost use Rattle.sporadic_model.specs.Homes.{EachHasHome};
ghost use Rattle.dpcp_rules.specs.Homes.{home_now, ceiling_now, column_now};

use phase_machine::columns::Columns;
use phase_machine::lookup::{processor_of, tasks_of};
use phase_machine::{Machine, Phase};
use schedule_model::JobId;
use sporadic_model::ResourceId;

/// The machine's set is accepted. This call says so in a proof, and does nothing.
pub(crate) fn keeps_the_model(machine: &Machine)
    ensures accepted { IsAccepted machine.now.list.set }
    ensures sizes { SetSizes machine.now.list.set }
{
    machine.jobs().set().keeps_the_model();
}

/// The processor that runs the requests of the resource, counted from 1.
pub fn home_of(machine: &Machine, q: ResourceId) -> u32
    requires suits { EachHasHome machine.now.list.set }
    requires resource { q.0 < length machine.now.list.set.resources }
    ensures value { result ≡ home_now machine.now q.0 }
    ensures least { 1 ≤ result }
    ensures most { result ≤ machine.now.list.set.processors }
{
    match machine.jobs().set().home(q) {
        Some(k) => k,
        None => unreachable!(),
    }
}

/// The highest task that uses the resource, or the number of tasks if none does.
pub(crate) fn ceiling_of(machine: &Machine, q: ResourceId) -> u32
    requires { q.0 < length machine.now.list.set.resources }
    ensures { result ≡ ceiling_now machine.now q.0 }
{
    match machine.jobs().set().ceiling(q) {
        Some(x) => x.0,
        None => tasks_of(machine),
    }
}

/// A job runs in a request at the home of the resource, and else on its task's processor.
pub struct AtHomes;

impl Columns for AtHomes {
    ghost suits = { λ p. EachHasHome };

    ghost column = { λ p. column_now };

    fn column_of(&self, machine: &Machine, j: JobId) -> u32 {
        match machine.phase(j) {
            Phase::Asking(_, q) => home_of(machine, q),
            _ => processor_of(machine, j),
        }
    }
}
