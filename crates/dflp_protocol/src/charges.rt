//! To what its blocked ticks are charged, as under DPCP, and that the charges meet the rows. So its bounds are sound.

ghost use Rattle.std.specs.Prelude.{refl};
ghost use Rattle.sporadic_model.specs.Homes.{EachHasHome};
ghost use Rattle.sporadic_model.proofs.Laws.{formed_of_accepted};
ghost use Rattle.charge_laws.specs.Charges.{dpcp_charge};
ghost use Rattle.charge_laws.proofs.DpcpCharging.{dpcp_charge_blocked};
ghost use Rattle.charge_laws.proofs.Stretches.{dpcp_stays_charged};
ghost use Rattle.charge_laws.proofs.Interference.{interferes_within_local};
ghost use Rattle.dflp_laws.specs.Programs.{dflp_columns};
ghost use Rattle.dflp_laws.specs.Rules.{dflp_rule};
ghost use Rattle.dflp_laws.proofs.Placement.{dflp_is_charged};
ghost use Rattle.dflp_laws.proofs.Points.{dflp_point_within};

use crate::Dflp;
use charged_protocols::ChargedProtocol;
use charged_protocols::distributed::charged_distributed;
use fragments::Class;
use phase_machine::Machine;
use schedule_model::{JobId, Row};

impl ChargedProtocol for Dflp {
    ghost columns_of = { λ p. dflp_columns };

    ghost charges = { λ p. dpcp_charge };

    fn charged(&self, machine: &Machine, row: &Row, j: JobId) -> Option<(JobId, Class)> {
        charged_distributed(machine, row, j)
    }

    ghost served = { λ p set suits. suits };

    ghost worth = { λ p set i bounds suits here. refl };

    ghost interferes_within = { λ p w n y suits keeps lawful. interferes_within_local w n y lawful };

    ghost charges_blocked = { λ p w n t j suits lawful keeps early blocked. dflp_is_charged w n t j lawful keeps early blocked };

    ghost charges_only = { λ p. dpcp_charge_blocked };

    ghost stays_charged = { λ p. dpcp_stays_charged EachHasHome dflp_rule };

    ghost meets_rows = { λ p w bounds n j suits accepted lawful keeps listed ended.
        dflp_point_within w bounds n j (record { formed = formed_of_accepted w.set accepted; lawful = lawful; listed = listed; ended = ended })
        keeps };
}
