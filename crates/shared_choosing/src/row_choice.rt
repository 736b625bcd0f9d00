ghost use Rattle.std.specs.Prelude.{◌≡◌, ℕ, length, map, Option};
ghost use Rattle.schedule_model.specs.Chosen.{IsSized};
ghost use Rattle.schedule_model.specs.Seen.{row_seen, place_seen};
ghost use Rattle.phase_machine.specs.MachineDef.{MachineDef};
ghost use Rattle.shared_choosing.specs.Scene.{place_in, running_in};

use phase_machine::Machine;
use schedule_model::{JobId, Row};

/// How a protocol chooses a row.
pub trait RowChoice {
    /// What the choice needs of the machine.
    ghost needs: { Self → MachineDef → Type 0 };

    /// Are these the holders?
    ghost granted: { Self → MachineDef → (ℕ → Option ℕ) → Type 0 };

    /// Is this what runs, given the holders?
    ghost placed: { Self → MachineDef → (ℕ → Option ℕ) → (ℕ → Option ℕ) → Type 0 };

    /// Names the holders.
    fn grant(&self, machine: &Machine, holders: &mut [Option<JobId>])
        requires needs { needs self.now machine.now }
        requires len { length holders.old ≡ length machine.now.list.set.resources }
        ensures len { length holders.new ≡ length holders.old }
        ensures granted { granted self.now machine.now (place_in (map place_seen holders.new)) };

    /// Names what runs, given the holders.
    fn run(&self, machine: &Machine, holders: &[Option<JobId>], running: &mut [Option<JobId>])
        requires needs { needs self.now machine.now }
        requires holders { length holders.now ≡ length machine.now.list.set.resources }
        requires len { length running.old ≡ machine.now.list.set.processors }
        ensures len { length running.new ≡ length running.old }
        ensures placed { placed self.now machine.now (place_in (map place_seen holders.now)) (running_in (map place_seen running.new)) };
}

/// Makes the lent row the chosen one: first the holders, then what runs.
pub fn choose_row<C: RowChoice>(choice: &C, machine: &Machine, row: &mut Row)
    requires needs { C.needs choice.now machine.now }
    requires sized { IsSized machine.now.list.set (row_seen row.old) }
    ensures sized { IsSized machine.now.list.set (row_seen row.new) }
    ensures granted { C.granted choice.now machine.now (place_in (row_seen row.new).holders) }
    ensures placed { C.placed choice.now machine.now (place_in (row_seen row.new).holders) (running_in (row_seen row.new).running) }
{
    choice.grant(machine, &mut row.holders);
    choice.run(machine, &row.holders, &mut row.running);
}
