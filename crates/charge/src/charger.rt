ghost use Rattle.std.specs.Prelude.{ℕ};

use crate::counting::charge_ticks;
use crate::due::{first_of_due, until_due};
use crate::tally::Ledger;
use charged_protocols::ChargedProtocol;
use phase_machine::Machine;
use schedule_model::RowReader;
use std::alloc::AllocError;
use trace_walk::Keeper;

/// A keeper of a schedule's charges: to which requests its blocked ticks are charged, and which job passed its bound first.
#[derive(Clone, Copy, Debug)]
pub struct Charger<'a> {
    /// The bounds, in ticks: one for each task of the set, and at most its latest bound.
    pub bounds: &'a [u64],
}

impl<'a, P: ChargedProtocol> Keeper<P> for Charger<'a> {
    type Notes = Ledger;

    ghost use Rattle.std.specs.Prelude.{length, slice_index};
    ghost use Rattle.charge.specs.Given.{BoundEachTask};
    ghost use Rattle.charge.specs.Due.{IsClearBelow};
    ghost use Rattle.charge.specs.Ledgers.{IsLedger};

    ghost fits = { λ k set. BoundEachTask set k.bounds.now };

    ghost kept = { λ k p w n ledger. IsLedger (P.charges p) w (slice_index k.bounds.now) n ledger };

    ghost spans = { λ k m n. IsClearBelow m k.bounds.now n (length m.list.set.tasks) };

    fn span(&self, machine: &Machine, ticks: u64) -> u64 {
        until_due(machine, self.bounds, ticks)
    }

    fn take<R: RowReader>(
        &self,
        protocol: &P,
        rows: &R,
        machine: &Machine,
        ticks: u64,
        notes: &mut Ledger,
    ) -> Result<(), AllocError> {
        notes.passed = first_of_due(machine, self.bounds, notes.passed);
        charge_ticks(
            protocol,
            rows,
            machine,
            self.bounds,
            ticks,
            &mut notes.ticks,
        )?;
        Ok(())
    }
}
