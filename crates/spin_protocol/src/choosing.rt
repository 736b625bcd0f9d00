//! Chooses a row: first the holders, then what runs.

ghost use Rattle.std.specs.Prelude.{◌≡◌, length, map};
ghost use Rattle.schedule_model.specs.Seen.{place_seen};
ghost use Rattle.fmlp_rules.specs.IssueOrder.{issue_now};
ghost use Rattle.phase_machine.specs.Now.{processor_now};
ghost use Rattle.shared_choosing.specs.Scene.{scene_now, place_in};
ghost use Rattle.shared_choosing.specs.Choosing.{Granted};
ghost use Rattle.shared_choosing.specs.Filling.{FilledTwice, holder_claim};
ghost use Rattle.spin_protocol.specs.SpinClaims.{calm_claim};

use crate::judging::has_spinner;
use fmlp_rules::FmlpPlus;
use phase_machine::Machine;
use phase_machine::columns::OwnProcessors;
use phase_machine::lookup::{is_local, processor_of};
use schedule_model::JobId;
use shared_choosing::choosing::grant_all;
use shared_choosing::claims::{Claim, HolderClaim, fill_twice};
use shared_choosing::row_choice::RowChoice;

/// Local jobs claim their task's processor, unless a job spins there.
#[derive(Drop)]
struct CalmClaim<'a> {
    holders: &'a [Option<JobId>],
}

impl<'a> Claim for CalmClaim<'a> {
    ghost needs = { λ c m. length c.holders.now ≡ length m.list.set.resources };

    ghost claim = { λ c m. calm_claim m (place_in (map place_seen c.holders.now)) };

    fn claim_of(&self, machine: &Machine, j: JobId) -> Option<u32> {
        let processor = processor_of(machine, j);
        if is_local(machine, j) && !has_spinner(machine, self.holders, processor) {
            return Some(processor);
        }
        None
    }
}

/// Requests are granted in the order of issue. Then holders run. On a processor without a holder and without a spinner Local jobs run.
#[derive(Drop)]
pub(crate) struct SpinChoice;

impl RowChoice for SpinChoice {
    ghost needs = { λ c m. Unit {0} };

    ghost granted = { λ c m. Granted (scene_now (issue_now m) (issue_now m) m) (length m.list.set.tasks) };

    ghost placed = { λ c m held. FilledTwice m (holder_claim m (processor_now m) held) (calm_claim m held) };

    fn grant(&self, machine: &Machine, holders: &mut [Option<JobId>]) {
        grant_all(&FmlpPlus, machine, holders);
    }

    fn run(&self, machine: &Machine, holders: &[Option<JobId>], running: &mut [Option<JobId>]) {
        fill_twice(
            &HolderClaim {
                columns: &OwnProcessors,
                holders,
            },
            &CalmClaim { holders },
            machine,
            running,
        );
    }
}
