//! The protocol: FMLP+ with the programs that have the closer rows.

ghost use Rattle.std.specs.Prelude.{refl};
ghost use Rattle.closer_laws.specs.CloserRows.{fmlp_closer_source};
ghost use Rattle.closer_laws.proofs.Points.{fmlp_closer_point};
ghost use Rattle.closer_laws.proofs.Programs.{fmlp_closer_covered, fmlp_closer_rises};

use crate::programs::CloserFmlpPlusRows;
use fmlp_rules::FmlpPlus;
use further_rows::{Closer, FurtherRows};
use protocol_programs::keeps_jobs;
use sporadic_model::{TaskId, TaskSet};

/// The FIFO multiprocessor locking protocol in its partitioned form, with the closer analysis.
pub type CloserFmlpPlus = Closer<FmlpPlus, CloserFmlpPlusRows>;

/// The protocol as a value.
pub const CLOSER_FMLP_PLUS: CloserFmlpPlus = Closer {
    plain: FmlpPlus,
    rows: CloserFmlpPlusRows,
};

impl FurtherRows<FmlpPlus> for CloserFmlpPlusRows {
    ghost source = { λ r. fmlp_closer_source };

    fn keeps_limits(&self, set: &TaskSet, i: TaskId, earlier: &[u64], bounds: &[u64]) -> bool {
        keeps_jobs(set, i, earlier, bounds)
    }

    ghost served = { λ r p set suits. suits };

    ghost plain_columns = { λ r p set i. refl };

    ghost further = { λ r p set. refl };

    ghost covers = { λ r p set i bounds c suits here within. fmlp_closer_covered set i bounds c within };

    ghost rises = { λ r p set i low high suits here most. fmlp_closer_rises set i low high here most };

    ghost meets_rows = { λ r p w bounds n j suits within keeps. fmlp_closer_point w bounds n j within keeps };
}
