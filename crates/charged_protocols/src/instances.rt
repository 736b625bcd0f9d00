ghost use Rattle.std.specs.Prelude.{refl};
ghost use Rattle.sporadic_model.specs.Homes.{EachHasHome};
ghost use Rattle.sporadic_model.specs.declared.ids.Protocol.TheVariants as protocol;
ghost use Rattle.schedule_model.specs.Ranks.{mpcp, fmlp_plus};
ghost use Rattle.schedule_model.specs.Protocols.{shared_rule, dpcp_rule, EachSetSuits};
ghost use Rattle.blocking_columns.specs.Columns.{columns_of as written_columns};
ghost use Rattle.charge_laws.specs.Charges.{shared_charge, dpcp_charge};
ghost use Rattle.charge_laws.proofs.SharedCharging.{shared_charge_blocked};
ghost use Rattle.charge_laws.proofs.DpcpCharging.{dpcp_charge_blocked};
ghost use Rattle.charge_laws.proofs.Stretches.{shared_stays_charged, dpcp_stays_charged};
ghost use Rattle.row_laws.proofs.ChargedTicks.{mpcp_is_charged, fmlp_is_charged, dpcp_is_charged};
ghost use Rattle.row_laws.proofs.InterferingCosts.{mpcp_interferes_within, fmlp_interferes_within, dpcp_interferes_within};
ghost use Rattle.charged_protocols.specs.Points.{mpcp_meets, fmlp_meets, dpcp_meets};

use crate::distributed::charged_distributed;
use crate::protocol::ChargedProtocol;
use crate::shared::charged_shared;
use blocking_columns::Class;
use dpcp_rules::Dpcp;
use fmlp_rules::FmlpPlus;
use mpcp_rules::Mpcp;
use phase_machine::Machine;
use schedule_model::{JobId, Row};

impl ChargedProtocol for Mpcp {
    ghost columns_of = { λ p. written_columns protocol.Mpcp };

    ghost charges = { λ p. shared_charge };

    fn charged(&self, machine: &Machine, row: &Row, j: JobId) -> Option<(JobId, Class)> {
        charged_shared(machine, row, j)
    }

    ghost served = { λ p set suits. suits };

    ghost worth = { λ p set i bounds suits here. refl };

    ghost interferes_within = { λ p w n y suits keeps lawful. mpcp_interferes_within w n y keeps lawful };

    ghost charges_blocked = { λ p w n t j suits lawful keeps early blocked. mpcp_is_charged w n t j lawful keeps early blocked };

    ghost charges_only = { λ p. shared_charge_blocked };

    ghost stays_charged = { λ p. shared_stays_charged EachSetSuits (shared_rule mpcp) };

    ghost meets_rows = { λ p w bounds n j suits. mpcp_meets w bounds n j };
}

impl ChargedProtocol for FmlpPlus {
    ghost columns_of = { λ p. written_columns protocol.FmlpPlus };

    ghost charges = { λ p. shared_charge };

    fn charged(&self, machine: &Machine, row: &Row, j: JobId) -> Option<(JobId, Class)> {
        charged_shared(machine, row, j)
    }

    ghost served = { λ p set suits. suits };

    ghost worth = { λ p set i bounds suits here. refl };

    ghost interferes_within = { λ p w n y suits keeps lawful. fmlp_interferes_within w n y keeps lawful };

    ghost charges_blocked = { λ p w n t j suits lawful keeps early blocked. fmlp_is_charged w n t j lawful keeps early blocked };

    ghost charges_only = { λ p. shared_charge_blocked };

    ghost stays_charged = { λ p. shared_stays_charged EachSetSuits (shared_rule fmlp_plus) };

    ghost meets_rows = { λ p w bounds n j suits. fmlp_meets w bounds n j };
}

impl ChargedProtocol for Dpcp {
    ghost columns_of = { λ p. written_columns protocol.Dpcp };

    ghost charges = { λ p. dpcp_charge };

    fn charged(&self, machine: &Machine, row: &Row, j: JobId) -> Option<(JobId, Class)> {
        charged_distributed(machine, row, j)
    }

    ghost served = { λ p set suits. suits };

    ghost worth = { λ p set i bounds suits here. refl };

    ghost interferes_within = { λ p w n y suits keeps lawful. dpcp_interferes_within w n y keeps lawful };

    ghost charges_blocked = { λ p w n t j suits lawful keeps early blocked. dpcp_is_charged w n t j lawful keeps early blocked };

    ghost charges_only = { λ p. dpcp_charge_blocked };

    ghost stays_charged = { λ p. dpcp_stays_charged EachHasHome dpcp_rule };

    ghost meets_rows = { λ p w bounds n j suits. dpcp_meets w bounds n j };
}
