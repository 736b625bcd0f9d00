//! The tests of the rules over a machine and the next row.

ghost use Rattle.std.specs.Prelude.{◌≡◌, ◌<◌, length, map};
ghost use Rattle.schedule_model.specs.Seen.{row_seen, place_seen};
ghost use Rattle.phase_machine.specs.Taking.{IsRowFor};
ghost use Rattle.fmlp_rules.specs.IssueOrder.{issue_now};
ghost use Rattle.shared_choosing.specs.Scene.{place_in};
ghost use Rattle.spin_protocol.specs.Given.{AreJobAndHolders};
ghost use Rattle.shared_rules.specs.Given.{AreTwoJobs};
ghost use Rattle.spin_protocol.specs.SpinTests.{is_request_now, spins_now, is_quiet, has_spinner_now, idle_passes};
ghost use Rattle.spin_protocol.specs.SpinTests.{passes_idle, may_run_beside, priority_passes, passes_priority};
ghost use Rattle.shared_rules.specs.RowTests.{passes_run, passes_keep, passes_grant, by_rule};

use fmlp_rules::FmlpPlus;
use phase_machine::Machine;
use phase_machine::columns::OwnProcessors;
use phase_machine::lookup::{holds, is_local, may_run, processor_of, running_beside, task_of};
use schedule_model::{JobId, Row, Rule};
use shared_rules::judging::{each_stands, passes_grant, passes_keep};
use shared_rules::rule_tests::RuleTests;
use shared_rules::walking::{JobTest, each_passes};

/// Is the job in a request, if it is active?
fn is_asking(machine: &Machine, j: JobId) -> bool
    requires { j.0 < length machine.now.list.jobs }
    ensures { result ≡ is_request_now machine.now j.0 }
{
    !is_local(machine, j)
}

/// With these holders: does the job spin, if it is active?
pub(crate) fn spins(machine: &Machine, holders: &[Option<JobId>], j: JobId) -> bool
    requires { AreJobAndHolders machine.now j.0 holders.now }
    ensures { result ≡ spins_now machine.now (place_in (map place_seen holders.now)) j.0 }
{
    is_asking(machine, j) && !holds(machine, holders, j)
}

/// The test that an active job is no spinner of a processor, with these holders.
#[derive(Drop)]
struct QuietTest<'a> {
    holders: &'a [Option<JobId>],
    processor: u32,
}

impl<'a> JobTest for QuietTest<'a> {
    ghost needs = { λ t m. length t.holders.now ≡ length m.list.set.resources };

    ghost passes = { λ t m. is_quiet m (place_in (map place_seen t.holders.now)) t.processor };

    fn test(&self, machine: &Machine, j: JobId) -> bool {
        !(processor_of(machine, j) == self.processor && spins(machine, self.holders, j))
    }
}

/// With these holders: does an active job of the processor's tasks spin?
#[tactic(auto, unfolding(crate::specs::SpinTests::has_spinner_now))]
pub(crate) fn has_spinner(machine: &Machine, holders: &[Option<JobId>], processor: u32) -> bool
    requires { length holders.now ≡ length machine.now.list.set.resources }
    ensures { result ≡ has_spinner_now machine.now (place_in (map place_seen holders.now)) processor }
{
    !each_passes(&QuietTest { holders, processor }, machine)
}

/// The test of Idle for active jobs: if the job is ready, does its processor run something, or does a job there spin?
#[derive(Drop)]
struct IdleTest<'a> {
    row: &'a Row,
}

impl<'a> JobTest for IdleTest<'a> {
    ghost needs = { λ t m. IsRowFor m.list (row_seen t.row.now) };

    ghost passes = { λ t m. idle_passes m (row_seen t.row.now) };

    fn test(&self, machine: &Machine, j: JobId) -> bool {
        !may_run(machine, &self.row.holders, j)
            || (running_beside(machine, self.row, j).is_some()
                || has_spinner(machine, &self.row.holders, processor_of(machine, j)))
    }
}

/// Priority, for one job and what runs on its processor.
fn may_run_beside(machine: &Machine, j: JobId, running: Option<JobId>) -> bool
    requires { AreTwoJobs machine.now.list j.0 running }
    ensures { result ≡ may_run_beside machine.now j.0 (place_seen running) }
{
    match running {
        Some(r) => {
            (!is_asking(machine, j) || r == j)
                && (!is_local(machine, j)
                    || (is_asking(machine, r) || task_of(machine, r) <= task_of(machine, j)))
        }
        None => true,
    }
}

/// The test of Priority for active jobs.
#[derive(Drop)]
struct PriorityTest<'a> {
    row: &'a Row,
}

impl<'a> JobTest for PriorityTest<'a> {
    ghost needs = { λ t m. IsRowFor m.list (row_seen t.row.now) };

    ghost passes = { λ t m. priority_passes m (row_seen t.row.now) };

    fn test(&self, machine: &Machine, j: JobId) -> bool {
        may_run_beside(machine, j, running_beside(machine, self.row, j))
    }
}

/// The tests of the rules. Idle: does each processor that has a ready job and no spinner run something? Priority: if a job is in a request,
/// does nothing else run on its processor? If none is, does no job run there that is lower than an active Local job?
#[derive(Drop)]
pub(crate) struct SpinTests;

impl RuleTests for SpinTests {
    ghost needs = { λ t m. Unit {0} };

    ghost passes = { λ t m row. by_rule (passes_run m row) (passes_keep m row) (passes_grant m (issue_now m) row)
        (passes_idle m row) (passes_priority m row) };

    #[tactic(auto, unfolding(crate::specs::SpinTests::passes_idle, crate::specs::SpinTests::passes_priority))]
    fn test(&self, machine: &Machine, row: &Row, rule: Rule) -> bool {
        match rule {
            Rule::Run => each_stands(&OwnProcessors, machine, row),
            Rule::Keep => passes_keep(machine, row),
            Rule::Grant => passes_grant(&FmlpPlus, machine, row),
            Rule::Idle => each_passes(&IdleTest { row }, machine),
            Rule::Priority => each_passes(&PriorityTest { row }, machine),
        }
    }
}
