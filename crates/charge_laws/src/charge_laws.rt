ghost use Rattle.std.specs.Prelude.{◌≡◌, ℕ, true, Some};
ghost use Rattle.sporadic_model.specs.Homes.{EachHasHome};
ghost use Rattle.schedule_model.specs.RowDef.{Trace};
ghost use Rattle.schedule_model.specs.SharedRules.{Ranks};
ghost use Rattle.schedule_model.specs.Ranks.{mpcp, fmlp_plus};
ghost use Rattle.schedule_model.specs.Protocols.{shared_rule, dpcp_rule, EachSetSuits};
ghost use Rattle.schedule_model.specs.Keeping.{KeepsRow};
ghost use Rattle.schedule_model.specs.BlockedTicks.{is_shared_interference, is_dpcp_interference, is_blocked};
ghost use Rattle.charge_laws.specs.Charges.{Charge, shared_charge, dpcp_charge, Executes};
ghost use Rattle.charge_laws.specs.Stretches.{StaysCharged};

/// In a row that keeps the rules each blocked tick is charged to one request, which executes at that tick. No other tick is charged. This
/// holds if requests run on their own task's processor, whatever the order of grants and runs: so under MPCP and FMLP+.
pub fn shared_memory_charges_blocked_ticks()
    ensures charged { (o : Ranks) (w : Trace) (t j : ℕ) → KeepsRow (shared_rule o) w t → is_blocked is_shared_interference w t j ≡ true
        → (charge : Charge) × (shared_charge w t j ≡ Some charge) × Executes w t charge }
    ensures only { (w : Trace) (t j : ℕ) (charge : Charge) → shared_charge w t j ≡ Some charge
        → is_blocked is_shared_interference w t j ≡ true }
{}

/// The same under DPCP.
pub fn dpcp_charges_blocked_ticks()
    ensures charged { (w : Trace) (t j : ℕ) → KeepsRow dpcp_rule w t → is_blocked is_dpcp_interference w t j ≡ true
        → (charge : Charge) × (dpcp_charge w t j ≡ Some charge) × Executes w t charge }
    ensures only { (w : Trace) (t j : ℕ) (charge : Charge) → dpcp_charge w t j ≡ Some charge
        → is_blocked is_dpcp_interference w t j ≡ true }
{}

/// Under each protocol each tick of a steady stretch is charged as its first tick is.
pub fn charges_stay_through_stretches()
    ensures mpcp { StaysCharged EachSetSuits (shared_rule mpcp) shared_charge }
    ensures fmlp_plus { StaysCharged EachSetSuits (shared_rule fmlp_plus) shared_charge }
    ensures dpcp { StaysCharged EachHasHome dpcp_rule dpcp_charge }
{}
