ghost use Rattle.std.specs.Prelude.{◌≡◌};
ghost use Rattle.sporadic_model.specs.Homes.{EachHasHome};
ghost use Rattle.schedule_model.specs.Seen.{row_seen, place_seen};
ghost use Rattle.phase_machine.specs.Taking.{IsRowFor};
ghost use Rattle.shared_rules.specs.RowTests.{each_current, passes_keep, by_rule};
ghost use Rattle.dpcp_rules.specs.RowTests.{passes_run, is_due, request_passes, passes_grant};
ghost use Rattle.dpcp_rules.specs.RowTests.{idle_passes, passes_idle, goes_first, priority_passes};
ghost use Rattle.dpcp_rules.specs.RowTests.{passes_priority};
ghost use Rattle.dpcp_rules.specs.TaskOrder.{task_now};
ghost use Rattle.dpcp_rules.specs.Given.{IsJobServed, IsRowServed, AreRowAndJobServed};
ghost use Rattle.shared_rules.specs.Given.{CanTestJobBeside};
ghost use Rattle.dpcp_rules.specs.Verdicts.{IsJudgement};

use crate::Dpcp;
use crate::lookup::{AtHomes, keeps_the_model};
use crate::tables::{Tables, tables_of};
use phase_machine::columns::{Columns, running_instead};
use phase_machine::lookup::{holds, is_local, task_of};
use phase_machine::{Machine, Order};
use schedule_model::{JobId, Row, Rule};
use shared_rules::judging::{each_stands, holders_pass, passes_keep};
use shared_rules::rule_tests::{RuleTests, first_failed};
use shared_rules::walking::{JobTest, each_passes};

/// Is the job's task the first of those that wait at its processor, and higher than every ceiling that is kept there?
pub(crate) fn is_due(machine: &Machine, tables: &Tables, j: JobId) -> bool
    requires { IsJobServed machine.now j.0 }
    ensures { result ≡ is_due machine.now tables.now.first.keys tables.now.bars.keys j.0 }
{
    keeps_the_model(machine);
    let k = AtHomes.column_of(machine, j);
    let x = task_of(machine, j).0;
    x <= tables.first.at(k) && x < tables.bars.at(k)
}

/// If the job waits: does it hold the resource that it requests exactly if it is due?
fn request_passes(machine: &Machine, tables: &Tables, row: &Row, j: JobId) -> bool
    requires { AreRowAndJobServed machine.now (row_seen row.now) j.0 }
    ensures { result ≡ request_passes machine.now tables.now.first.keys tables.now.bars.keys (row_seen row.now) j.0 }
{
    !machine.waiting(j) || holds(machine, &row.holders, j) == is_due(machine, tables, j)
}

/// The test of the requests of active jobs.
#[derive(Drop)]
struct RequestTest<'a> {
    tables: &'a Tables,
    row: &'a Row,
}

impl<'a> JobTest for RequestTest<'a> {
    ghost needs = { λ t m. EachHasHome m.list.set × IsRowFor m.list (row_seen t.row.now) };

    ghost passes = { λ t m. request_passes m t.tables.now.first.keys t.tables.now.bars.keys (row_seen t.row.now) };

    fn test(&self, machine: &Machine, j: JobId) -> bool {
        request_passes(machine, self.tables, self.row, j)
    }
}

/// Does each active job that waits hold the resource that it requests exactly if it is due?
fn requests_pass(machine: &Machine, tables: &Tables, row: &Row) -> bool
    requires { IsRowServed machine.now (row_seen row.now) }
    ensures { result ≡ each_current machine.now (request_passes machine.now tables.now.first.keys tables.now.bars.keys (row_seen row.now)) }
{
    each_passes(&RequestTest { tables, row }, machine)
}

/// Idle, for one job: does something run where the job would run?
fn idle_passes(machine: &Machine, row: &Row, j: JobId) -> bool
    requires { AreRowAndJobServed machine.now (row_seen row.now) j.0 }
    ensures { result ≡ idle_passes machine.now (row_seen row.now) j.0 }
{
    running_instead(&AtHomes, machine, row, j).is_some()
}

/// The test of Idle for active jobs.
#[derive(Drop)]
struct IdleTest<'a> {
    row: &'a Row,
}

impl<'a> JobTest for IdleTest<'a> {
    ghost needs = { λ t m. EachHasHome m.list.set × IsRowFor m.list (row_seen t.row.now) };

    ghost passes = { λ t m. idle_passes m (row_seen t.row.now) };

    fn test(&self, machine: &Machine, j: JobId) -> bool {
        idle_passes(machine, self.row, j)
    }
}

/// Idle: does each processor that has something to run run something?
#[tactic(auto, unfolding(crate::specs::RowTests::passes_idle))]
pub fn passes_idle(machine: &Machine, row: &Row) -> bool
    requires suits { EachHasHome machine.now.list.set }
    requires fits { IsRowFor machine.now.list (row_seen row.now) }
    ensures { result ≡ passes_idle machine.now (row_seen row.now) }
{
    each_passes(&IdleTest { row }, machine)
}

/// Does what runs go no later than the job, if holders run in this order?
fn goes_first<O: Order>(
    order: &O,
    machine: &Machine,
    row: &Row,
    j: JobId,
    running: Option<JobId>,
) -> bool
    requires { CanTestJobBeside machine.now.list (row_seen row.now) j.0 running }
    ensures { result ≡ goes_first machine.now (O.run order.now machine.now) (row_seen row.now) j.0 (place_seen running) }
{
    let Some(r) = running else {
        return is_local(machine, j);
    };
    if is_local(machine, j) {
        return !is_local(machine, r) || task_of(machine, r) <= task_of(machine, j);
    }
    holds(machine, &row.holders, r)
        && (!holds(machine, &row.holders, j)
            || order.run_of(machine, r) <= order.run_of(machine, j))
}

/// Priority, for one job: does what runs where the job would run go no later?
fn priority_passes<O: Order>(order: &O, machine: &Machine, row: &Row, j: JobId) -> bool
    requires { AreRowAndJobServed machine.now (row_seen row.now) j.0 }
    ensures { result ≡ priority_passes machine.now (O.run order.now machine.now) (row_seen row.now) j.0 }
{
    goes_first(
        order,
        machine,
        row,
        j,
        running_instead(&AtHomes, machine, row, j),
    )
}

/// The test of Priority for active jobs.
#[derive(Drop)]
struct PriorityTest<'a, O> {
    order: &'a O,
    row: &'a Row,
}

impl<'a, O: Order> JobTest for PriorityTest<'a, O> {
    ghost needs = { λ t m. EachHasHome m.list.set × IsRowFor m.list (row_seen t.row.now) };

    ghost passes = { λ t m. priority_passes m (O.run t.order.now m) (row_seen t.row.now) };

    fn test(&self, machine: &Machine, j: JobId) -> bool {
        priority_passes(self.order, machine, self.row, j)
    }
}

/// Priority, if holders run in this order: does what runs on each processor go first there?
#[tactic(auto, unfolding(crate::specs::RowTests::passes_priority))]
pub fn passes_priority<O: Order>(order: &O, machine: &Machine, row: &Row) -> bool
    requires suits { EachHasHome machine.now.list.set }
    requires fits { IsRowFor machine.now.list (row_seen row.now) }
    ensures { result ≡ passes_priority machine.now (O.run order.now machine.now) (row_seen row.now) }
{
    each_passes(&PriorityTest { order, row }, machine)
}

/// Grant: does each holder request its resource, and does each active job that waits hold the resource that it requests exactly if it is
/// due?
#[tactic(auto, unfolding(crate::specs::RowTests::passes_grant))]
fn passes_grant(machine: &Machine, tables: &Tables, row: &Row) -> bool
    requires { IsRowServed machine.now (row_seen row.now) }
    ensures { result ≡ passes_grant machine.now tables.now.first.keys tables.now.bars.keys (row_seen row.now) }
{
    holders_pass(machine, row) && requests_pass(machine, tables, row)
}

/// The tests of the rules.
#[derive(Drop)]
struct DpcpTests<'a> {
    tables: &'a Tables,
}

impl<'a> RuleTests for DpcpTests<'a> {
    ghost needs = { λ t m. EachHasHome m.list.set };

    ghost passes = { λ t m row. by_rule (passes_run m row) (passes_keep m row)
        (passes_grant m t.tables.now.first.keys t.tables.now.bars.keys row) (passes_idle m row) (passes_priority m (task_now m) row) };

    fn test(&self, machine: &Machine, row: &Row, rule: Rule) -> bool {
        match rule {
            Rule::Run => each_stands(&AtHomes, machine, row),
            Rule::Keep => passes_keep(machine, row),
            Rule::Grant => passes_grant(machine, self.tables, row),
            Rule::Idle => passes_idle(machine, row),
            Rule::Priority => passes_priority(&Dpcp, machine, row),
        }
    }
}

/// Ok if the row keeps all five rules. Else the first rule that it breaks.
pub(crate) fn judge(machine: &Machine, row: &Row) -> Result<(), Rule>
    requires { IsRowServed machine.now (row_seen row.now) }
    ensures { IsJudgement machine.now (row_seen row.now) result }
{
    let tables = tables_of(machine);
    match first_failed(&DpcpTests { tables: &tables }, machine, row) {
        Some(rule) => Err(rule),
        None => Ok(()),
    }
}
