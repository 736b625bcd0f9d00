ghost use Rattle.std.specs.Prelude.{◌≡◌, ℕ, Bool};
ghost use Rattle.sporadic_model.specs.SetDef.{SetDef};
ghost use Rattle.schedule_model.specs.declared.rule.Rule.{Rule};
ghost use Rattle.schedule_model.specs.RowDef.{Trace};
ghost use Rattle.schedule_model.specs.Keeping.{KeepsRow};
ghost use Rattle.schedule_model.specs.ProtocolLaws.{IsOneOfThree, IsSoundRow};

/// A locking protocol: the rules that it has for each row of a schedule.
pub trait BlockingProtocol {
    /// Which task sets suit the protocol? All of the laws below are about these sets.
    ghost suits: { Self → SetDef → Type 0 };

    /// Does the row at a tick keep the rule?
    ghost keeps: { Self → Rule → Trace → ℕ → Type 0 };

    /// Is the row at a tick the chosen one? Where the rules leave several rows, the choice settles which one is made.
    ghost chooses: { Self → Trace → ℕ → Type 0 };

    /// Is the tick interference for the job: does it not run while a higher job of its processor does?
    ghost interferes: { Self → Trace → ℕ → ℕ → Bool };

    /// Each tick at which a job is active is exactly one of executing, interference and blocked.
    ghost one_of_three: { (p : Self) (w : Trace) (t j : ℕ) → suits p w.set → IsOneOfThree (interferes p) w t j };

    /// In a row that keeps the rules each named job is in the list. Each running job is active, and is in one column only. Where the tick
    /// is interference for a job, a job of a higher task of its processor runs there.
    ghost sound_row: { (p : Self) (w : Trace) (t : ℕ) → suits p w.set → KeepsRow (keeps p) w t → IsSoundRow (interferes p) w t };

    /// A chosen row keeps the rules.
    ghost chosen_keeps: { (p : Self) (w : Trace) (t : ℕ) → suits p w.set → chooses p w t → KeepsRow (keeps p) w t };
}
