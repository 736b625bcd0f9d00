//! What stays the same in a steady stretch: equal rows one after the other, between which no phase of a running job ends and no job is
//! released.

ghost use Rattle.sporadic_model.specs.Homes.{EachHasHome};
ghost use Rattle.schedule_model.specs.Ranks.{mpcp, fmlp_plus};
ghost use Rattle.schedule_model.specs.Protocols.{shared_rule, dpcp_rule, EachSetSuits};
ghost use Rattle.schedule_model.specs.Chosen.{IsSharedChoice, IsDpcpChoice};
ghost use Rattle.schedule_model.specs.BlockedTicks.{is_shared_interference, is_dpcp_interference};
ghost use Rattle.schedule_laws.specs.Steady.{StaysLawful};

/// Take a steady stretch, under any of the protocols, whose first row keeps the rules. Each of its rows keeps them, and the same jobs are
/// blocked in each. If its first row is the chosen one, each of its rows is.
pub fn lawful_rows_stay_lawful()
    ensures mpcp { StaysLawful EachSetSuits (shared_rule mpcp) (IsSharedChoice mpcp) is_shared_interference }
    ensures fmlp_plus { StaysLawful EachSetSuits (shared_rule fmlp_plus) (IsSharedChoice fmlp_plus) is_shared_interference }
    ensures dpcp { StaysLawful EachHasHome dpcp_rule IsDpcpChoice is_dpcp_interference }
{}
