ghost use Rattle.std.specs.Prelude.{◌≡◌, ℕ};
ghost use Rattle.sporadic_model.specs.Homes.{EachHasHome};
ghost use Rattle.schedule_model.specs.RowDef.{RowDef};
ghost use Rattle.schedule_model.specs.Chosen.{IsSized};
ghost use Rattle.schedule_model.specs.Seen.{row_seen};
ghost use Rattle.phase_machine.specs.MachineDef.{under};
ghost use Rattle.phase_machine.specs.Shows.{Shows};
ghost use Rattle.dflp_laws.specs.Rules.{IsDflpChoice};

use dpcp_rules::lookup::AtHomes;
use fmlp_rules::FmlpPlus;
use phase_machine::Machine;
use schedule_model::Row;
use shared_choosing::choosing::choose_ordered;

/// Makes the lent row the chosen one. Requests are granted, and run at their homes, in the order of issue.
pub(crate) fn choose(machine: &Machine, row: &mut Row)
    requires suits { EachHasHome machine.now.list.set }
    requires sized { IsSized machine.now.list.set (row_seen row.old) }
    ensures sized { IsSized machine.now.list.set (row_seen row.new) }
    ensures chosen { (rows : ℕ → RowDef) → Shows machine.now rows → rows machine.now.tick ≡ row_seen row.new
        → IsDflpChoice (under machine.now rows) machine.now.tick }
{
    choose_ordered(&FmlpPlus, &AtHomes, machine, row);
}
