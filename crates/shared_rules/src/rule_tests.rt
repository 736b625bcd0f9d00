ghost use Rattle.std.specs.Prelude.{◌≡◌, Bool};
ghost use Rattle.schedule_model.specs.RowDef.{RowDef};
ghost use Rattle.schedule_model.specs.Seen.{row_seen};
ghost use Rattle.schedule_model.specs.declared.rule.Rule.{Rule};
ghost use Rattle.phase_machine.specs.MachineDef.{MachineDef};
ghost use Rattle.phase_machine.specs.Taking.{IsRowFor};
ghost use Rattle.shared_rules.specs.RowTests.{first_failing};

use phase_machine::Machine;
use schedule_model::{Row, Rule};

/// The tests of a protocol's rules, over a machine and the next row.
pub trait RuleTests {
    /// What the tests need of the machine.
    ghost needs: { Self → MachineDef → Type 0 };

    /// Which rules' tests does a row pass?
    ghost passes: { Self → MachineDef → RowDef → Rule → Bool };

    /// Does the row pass the test of the rule?
    fn test(&self, machine: &Machine, row: &Row, rule: Rule) -> bool
        requires needs { needs self.now machine.now }
        requires fits { IsRowFor machine.now.list (row_seen row.now) }
        ensures { result ≡ passes self.now machine.now (row_seen row.now) rule };
}

/// The first rule whose test fails, in the order of `Rule`.
pub fn first_failed<T: RuleTests>(tests: &T, machine: &Machine, row: &Row) -> Option<Rule>
    requires needs { T.needs tests.now machine.now }
    requires fits { IsRowFor machine.now.list (row_seen row.now) }
    ensures { result ≡ first_failing (T.passes tests.now machine.now (row_seen row.now)) }
{
    if !tests.test(machine, row, Rule::Run) {
        return Some(Rule::Run);
    }
    if !tests.test(machine, row, Rule::Keep) {
        return Some(Rule::Keep);
    }
    if !tests.test(machine, row, Rule::Grant) {
        return Some(Rule::Grant);
    }
    if !tests.test(machine, row, Rule::Idle) {
        return Some(Rule::Idle);
    }
    if !tests.test(machine, row, Rule::Priority) {
        return Some(Rule::Priority);
    }
    None
}
