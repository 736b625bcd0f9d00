//! The protocol: spin locks with the programs whose rows say more.

ghost use Rattle.std.specs.Prelude.{refl};
ghost use Rattle.closer_spin_laws.specs.CloserSpinRows.{spin_closer_source};
ghost use Rattle.closer_spin_laws.proofs.Points.{spin_closer_point};
ghost use Rattle.closer_spin_laws.proofs.Programs.{spin_closer_covered, spin_closer_rises};

use crate::programs::CloserSpinRows;
use further_rows::{Closer, FurtherRows};
use protocol_programs::keeps_jobs;
use spin_protocol::Spin;
use sporadic_model::{TaskId, TaskSet};

/// Spin locks, analysed more closely: the rules, columns and charges of [`Spin`], and programs whose rows say more, so that no bound is
/// greater.
pub type CloserSpin = Closer<Spin, CloserSpinRows>;

/// The protocol as a value.
pub const CLOSER_SPIN: CloserSpin = Closer {
    plain: Spin,
    rows: CloserSpinRows,
};

impl FurtherRows<Spin> for CloserSpinRows {
    ghost source = { λ r. spin_closer_source };

    fn keeps_limits(&self, set: &TaskSet, i: TaskId, earlier: &[u64], bounds: &[u64]) -> bool {
        keeps_jobs(set, i, earlier, bounds)
    }

    ghost served = { λ r p set suits. suits };

    ghost plain_columns = { λ r p set i. refl };

    ghost further = { λ r p set. refl };

    ghost covers = { λ r p set i bounds c suits here within. spin_closer_covered set i bounds c within };

    ghost rises = { λ r p set i low high suits here most. spin_closer_rises set i low high here most };

    ghost meets_rows = { λ r p w bounds n j suits within keeps.
        spin_closer_point w bounds n j within.formed within.lawful keeps within.listed within.ended };
}
