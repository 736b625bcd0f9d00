ghost use Rattle.std.specs.Prelude.{◌≡◌, ℕ};
ghost use Rattle.sporadic_model.specs.Homes.{EachHasHome};
ghost use Rattle.schedule_model.specs.RowDef.{RowDef};
ghost use Rattle.schedule_model.specs.Seen.{row_seen};
ghost use Rattle.phase_machine.specs.MachineDef.{under};
ghost use Rattle.phase_machine.specs.Shows.{Shows};
ghost use Rattle.phase_machine.specs.Taking.{IsRowFor};
ghost use Rattle.phase_machine.specs.Judged.{Judged};
ghost use Rattle.shared_rules.specs.RowTests.{passes_keep, passes_grant, by_rule};
ghost use Rattle.dpcp_rules.specs.RowTests.{passes_run, passes_idle, passes_priority};
ghost use Rattle.fmlp_rules.specs.IssueOrder.{issue_now};
ghost use Rattle.dflp_laws.specs.Rules.{dflp_rule};

use dpcp_rules::judging::{passes_idle, passes_priority};
use dpcp_rules::lookup::AtHomes;
use fmlp_rules::FmlpPlus;
use phase_machine::Machine;
use schedule_model::{Row, Rule};
use shared_rules::judging::{each_stands, passes_grant, passes_keep};
use shared_rules::rule_tests::{RuleTests, first_failed};

/// The tests of the rules. Those of Run, Idle and Priority are those of DPCP.
#[derive(Drop)]
struct DflpTests;

impl RuleTests for DflpTests {
    ghost needs = { λ t m. EachHasHome m.list.set };

    ghost passes = { λ t m row. by_rule (passes_run m row) (passes_keep m row) (passes_grant m (issue_now m) row)
        (passes_idle m row) (passes_priority m (issue_now m) row) };

    fn test(&self, machine: &Machine, row: &Row, rule: Rule) -> bool {
        match rule {
            Rule::Run => each_stands(&AtHomes, machine, row),
            Rule::Keep => passes_keep(machine, row),
            Rule::Grant => passes_grant(&FmlpPlus, machine, row),
            Rule::Idle => passes_idle(machine, row),
            Rule::Priority => passes_priority(&FmlpPlus, machine, row),
        }
    }
}

/// Ok if the row keeps all five rules. Else the first rule that it breaks.
pub(crate) fn judge(machine: &Machine, row: &Row) -> Result<(), Rule>
    requires suits { EachHasHome machine.now.list.set }
    requires fits { IsRowFor machine.now.list (row_seen row.now) }
    ensures { (rows : ℕ → RowDef) → Shows machine.now rows → rows machine.now.tick ≡ row_seen row.now
        → Judged dflp_rule (under machine.now rows) machine.now.tick result }
{
    match first_failed(&DflpTests, machine, row) {
        Some(rule) => Err(rule),
        None => Ok(()),
    }
}
