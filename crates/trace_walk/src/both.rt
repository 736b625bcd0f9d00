use crate::keeper::Keeper;
use phase_machine::{Judge, Machine};
use schedule_model::RowReader;
use std::alloc::AllocError;

/// Two keepers in one walk, each with notes of its own.
#[derive(Clone, Copy, Debug)]
pub struct Both<A, B> {
    /// The one.
    pub first: A,
    /// The other.
    pub second: B,
}

impl<P: Judge, A: Keeper<P>, B: Keeper<P>> Keeper<P> for Both<A, B> {
    type Notes = (A::Notes, B::Notes);

    ghost fits = { λ k set. A.fits k.first set × B.fits k.second set };

    ghost kept = { λ k p w n r. A.kept k.first p w n r.0 × B.kept k.second p w n r.1 };

    ghost spans = { λ k m n. A.spans k.first m n × B.spans k.second m n };

    fn span(&self, machine: &Machine, ticks: u64) -> u64 {
        self.second.span(machine, self.first.span(machine, ticks))
    }

    fn take<R: RowReader>(
        &self,
        protocol: &P,
        rows: &R,
        machine: &Machine,
        ticks: u64,
        notes: &mut (A::Notes, B::Notes),
    ) -> Result<(), AllocError> {
        self.first
            .take(protocol, rows, machine, ticks, &mut notes.0)?;
        self.second
            .take(protocol, rows, machine, ticks, &mut notes.1)
    }
}
