ghost use Rattle.std.specs.Prelude.{◌≡◌, ℕ, length};
ghost use Rattle.number_laws.specs.Tests.{all_below};
ghost use Rattle.schedule_model.specs.RowDef.{RowDef};
ghost use Rattle.schedule_model.specs.Seen.{row_seen, place_seen};
ghost use Rattle.schedule_model.specs.Protocols.{shared_rule};
ghost use Rattle.phase_machine.specs.MachineDef.{under};
ghost use Rattle.phase_machine.specs.Shows.{Shows};
ghost use Rattle.phase_machine.specs.Taking.{IsRowFor};
ghost use Rattle.phase_machine.specs.Judged.{Judged};
ghost use Rattle.shared_rules.specs.Given.{CanTestJob, CanTestResource, CanTestColumn, CanTestJobBeside};
ghost use Rattle.phase_machine.specs.Given.{IsRequestBeside};
ghost use Rattle.shared_rules.specs.RowTests.{each_current};
ghost use Rattle.shared_rules.specs.RowTests.{may_stand, column_passes, each_stands, kept_passes};
ghost use Rattle.shared_rules.specs.RowTests.{holder_passes, goes_before, request_passes, idle_passes, runs_before};
ghost use Rattle.shared_rules.specs.RowTests.{priority_passes, passes_run, passes_keep, passes_grant, passes_idle};
ghost use Rattle.shared_rules.specs.RowTests.{passes_priority, by_rule};

use crate::rule_tests::{RuleTests, first_failed};
use crate::walking::{JobTest, each_passes};
use phase_machine::columns::{Columns, OwnProcessors};
use phase_machine::lookup::{
    column_at, holder_at, holds, is_local, may_run, requests, resources_of, running_beside, task_of,
};
use phase_machine::{Machine, Order, Phase};
use schedule_model::{JobId, Row, Rule};
use sporadic_model::ResourceId;

/// May the job be in the column, counted from 0?
fn may_stand<C: Columns>(columns: &C, machine: &Machine, row: &Row, c: usize, j: JobId) -> bool
    requires suits { C.suits columns.now machine.now.list.set }
    requires at { CanTestJob machine.now.list (row_seen row.now) j.0 }
    ensures { result ≡ may_stand machine.now (C.column columns.now machine.now) (row_seen row.now) c j.0 }
{
    machine.active(j)
        && may_run(machine, &row.holders, j)
        && columns.column_of(machine, j) as usize - 1 == c
}

/// May the job that runs in the column be there?
fn column_passes<C: Columns>(columns: &C, machine: &Machine, row: &Row, c: usize) -> bool
    requires suits { C.suits columns.now machine.now.list.set }
    requires at { CanTestColumn machine.now.list (row_seen row.now) c }
    ensures { result ≡ column_passes machine.now (C.column columns.now machine.now) (row_seen row.now) c }
{
    match column_at(machine, row, c) {
        Some(j) => may_stand(columns, machine, row, c, j),
        None => true,
    }
}

/// Run: may each running job be in its column?
#[tactic(auto, unfolding(crate::specs::RowTests::each_stands))]
pub fn each_stands<C: Columns>(columns: &C, machine: &Machine, row: &Row) -> bool
    requires suits { C.suits columns.now machine.now.list.set }
    requires fits { IsRowFor machine.now.list (row_seen row.now) }
    ensures { result ≡ each_stands machine.now (C.column columns.now machine.now) (row_seen row.now) }
{
    for c in 0..row.running.len() {
        if !column_passes(columns, machine, row, c) {
            return false;
        }
    }
    true
}

/// Does the resource's holder in the last row hold it, if it still requests it?
fn kept_passes(machine: &Machine, row: &Row, q: ResourceId) -> bool
    requires { CanTestResource machine.now.list (row_seen row.now) q.0 }
    ensures { result ≡ kept_passes machine.now (row_seen row.now) q.0 }
{
    match machine.holder(q) {
        Some(j) => !requests(machine, q, j) || holder_at(machine, row, q) == Some(j),
        None => true,
    }
}

/// Keep: does each holder stay if it still requests its resource?
#[tactic(auto, unfolding(crate::specs::RowTests::passes_keep))]
pub fn passes_keep(machine: &Machine, row: &Row) -> bool
    requires fits { IsRowFor machine.now.list (row_seen row.now) }
    ensures { result ≡ passes_keep machine.now (row_seen row.now) }
{
    for q in 0..resources_of(machine) {
        if !kept_passes(machine, row, ResourceId(q)) {
            return false;
        }
    }
    true
}

/// Does the resource's holder request it?
fn holder_passes(machine: &Machine, row: &Row, q: ResourceId) -> bool
    requires { CanTestResource machine.now.list (row_seen row.now) q.0 }
    ensures { result ≡ holder_passes machine.now (row_seen row.now) q.0 }
{
    match holder_at(machine, row, q) {
        Some(j) => requests(machine, q, j),
        None => true,
    }
}

/// Does each holder request its resource?
pub fn holders_pass(machine: &Machine, row: &Row) -> bool
    requires fits { IsRowFor machine.now.list (row_seen row.now) }
    ensures { result ≡ all_below (length machine.now.list.set.resources) (holder_passes machine.now (row_seen row.now)) }
{
    for q in 0..resources_of(machine) {
        if !holder_passes(machine, row, ResourceId(q)) {
            return false;
        }
    }
    true
}

/// Has the resource that the job requests a holder: an old one, or one that goes no later than the job?
fn request_passes<O: Order>(order: &O, machine: &Machine, row: &Row, j: JobId) -> bool
    requires { CanTestJob machine.now.list (row_seen row.now) j.0 }
    ensures { result ≡ request_passes machine.now (O.grant order.now machine.now) (row_seen row.now) j.0 }
{
    match machine.phase(j) {
        Phase::Asking(_, q) => { goes_before(order, machine, q, j, holder_at(machine, row, q)) }
        _ => true,
    }
}

/// Is there a holder of the resource: an old one, or one that goes no later than the job?
fn goes_before<O: Order>(
    order: &O,
    machine: &Machine,
    q: ResourceId,
    j: JobId,
    holder: Option<JobId>,
) -> bool
    requires { IsRequestBeside machine.now.list q.0 j.0 holder }
    ensures { result ≡ goes_before machine.now (O.grant order.now machine.now) q.0 j.0 (place_seen holder) }
{
    match holder {
        Some(h) => {
            machine.holder(q) == Some(h) || order.grant_of(machine, h) <= order.grant_of(machine, j)
        }
        None => false,
    }
}

/// The test of the requests of active jobs.
#[derive(Drop)]
struct RequestTest<'a, O> {
    order: &'a O,
    row: &'a Row,
}

impl<'a, O: Order> JobTest for RequestTest<'a, O> {
    ghost needs = { λ t m. IsRowFor m.list (row_seen t.row.now) };

    ghost passes = { λ t m. request_passes m (O.grant t.order.now m) (row_seen t.row.now) };

    fn test(&self, machine: &Machine, j: JobId) -> bool {
        request_passes(self.order, machine, self.row, j)
    }
}

/// Is the request of each active job served?
fn requests_pass<O: Order>(order: &O, machine: &Machine, row: &Row) -> bool
    requires fits { IsRowFor machine.now.list (row_seen row.now) }
    ensures { result ≡ each_current machine.now (request_passes machine.now (O.grant order.now machine.now) (row_seen row.now)) }
{
    each_passes(&RequestTest { order, row }, machine)
}

/// Idle, for one job: does its processor run something, if the job is ready?
fn idle_passes(machine: &Machine, row: &Row, j: JobId) -> bool
    requires { CanTestJob machine.now.list (row_seen row.now) j.0 }
    ensures { result ≡ idle_passes machine.now (row_seen row.now) j.0 }
{
    !may_run(machine, &row.holders, j) || running_beside(machine, row, j).is_some()
}

/// The test of Idle for active jobs.
#[derive(Drop)]
struct IdleTest<'a> {
    row: &'a Row,
}

impl<'a> JobTest for IdleTest<'a> {
    ghost needs = { λ t m. IsRowFor m.list (row_seen t.row.now) };

    ghost passes = { λ t m. idle_passes m (row_seen t.row.now) };

    fn test(&self, machine: &Machine, j: JobId) -> bool {
        idle_passes(machine, self.row, j)
    }
}

/// Idle: does each processor that has a ready job run something?
#[tactic(auto, unfolding(crate::specs::RowTests::passes_idle))]
fn passes_idle(machine: &Machine, row: &Row) -> bool
    requires fits { IsRowFor machine.now.list (row_seen row.now) }
    ensures { result ≡ passes_idle machine.now (row_seen row.now) }
{
    each_passes(&IdleTest { row }, machine)
}

/// Does the job that runs go no later than the job, on one processor?
fn runs_before<O: Order>(
    order: &O,
    machine: &Machine,
    row: &Row,
    j: JobId,
    running: Option<JobId>,
) -> bool
    requires { CanTestJobBeside machine.now.list (row_seen row.now) j.0 running }
    ensures { result ≡ runs_before machine.now (O.run order.now machine.now) (row_seen row.now) j.0 (place_seen running) }
{
    match running {
        Some(r) => {
            let first = holds(machine, &row.holders, r);
            (!holds(machine, &row.holders, j)
                || (first && order.run_of(machine, r) <= order.run_of(machine, j)))
                && (!is_local(machine, j) || (first || task_of(machine, r) <= task_of(machine, j)))
        }
        None => true,
    }
}

/// Priority, for one job: does the job that runs on its processor go no later?
fn priority_passes<O: Order>(order: &O, machine: &Machine, row: &Row, j: JobId) -> bool
    requires { CanTestJob machine.now.list (row_seen row.now) j.0 }
    ensures { result ≡ priority_passes machine.now (O.run order.now machine.now) (row_seen row.now) j.0 }
{
    runs_before(order, machine, row, j, running_beside(machine, row, j))
}

/// The test of Priority for active jobs.
#[derive(Drop)]
struct PriorityTest<'a, O> {
    order: &'a O,
    row: &'a Row,
}

impl<'a, O: Order> JobTest for PriorityTest<'a, O> {
    ghost needs = { λ t m. IsRowFor m.list (row_seen t.row.now) };

    ghost passes = { λ t m. priority_passes m (O.run t.order.now m) (row_seen t.row.now) };

    fn test(&self, machine: &Machine, j: JobId) -> bool {
        priority_passes(self.order, machine, self.row, j)
    }
}

/// Priority: does the job that runs on each processor go first there?
#[tactic(auto, unfolding(crate::specs::RowTests::passes_priority))]
fn passes_priority<O: Order>(order: &O, machine: &Machine, row: &Row) -> bool
    requires fits { IsRowFor machine.now.list (row_seen row.now) }
    ensures { result ≡ passes_priority machine.now (O.run order.now machine.now) (row_seen row.now) }
{
    each_passes(&PriorityTest { order, row }, machine)
}

/// Grant under the order: does each holder request its resource, and is the request of each active job served?
#[tactic(auto, unfolding(crate::specs::RowTests::passes_grant))]
pub fn passes_grant<O: Order>(order: &O, machine: &Machine, row: &Row) -> bool
    requires fits { IsRowFor machine.now.list (row_seen row.now) }
    ensures { result ≡ passes_grant machine.now (O.grant order.now machine.now) (row_seen row.now) }
{
    holders_pass(machine, row) && requests_pass(order, machine, row)
}

/// The tests of the rules, if grants and runs go by the order.
#[derive(Drop)]
struct OrderedTests<'a, O> {
    order: &'a O,
}

impl<'a, O: Order> RuleTests for OrderedTests<'a, O> {
    ghost needs = { λ t m. Unit {0} };

    ghost passes = { λ t m row. by_rule (passes_run m row) (passes_keep m row) (passes_grant m (O.grant t.order.now m) row)
        (passes_idle m row) (passes_priority m (O.run t.order.now m) row) };

    fn test(&self, machine: &Machine, row: &Row, rule: Rule) -> bool {
        match rule {
            Rule::Run => each_stands(&OwnProcessors, machine, row),
            Rule::Keep => passes_keep(machine, row),
            Rule::Grant => passes_grant(self.order, machine, row),
            Rule::Idle => passes_idle(machine, row),
            Rule::Priority => passes_priority(self.order, machine, row),
        }
    }
}

/// Ok if the row keeps all five rules under the order. Else the first rule that it breaks.
pub fn judge_shared<O: Order>(order: &O, machine: &Machine, row: &Row) -> Result<(), Rule>
    requires fits { IsRowFor machine.now.list (row_seen row.now) }
    ensures { (rows : ℕ → RowDef) → Shows machine.now rows → rows machine.now.tick ≡ row_seen row.now
        → Judged (shared_rule (O.ranks order.now)) (under machine.now rows) machine.now.tick result }
{
    match first_failed(&OrderedTests { order }, machine, row) {
        Some(rule) => Err(rule),
        None => Ok(()),
    }
}
