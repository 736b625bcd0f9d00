//! The protocol: MPCP with the programs that have the closer rows.

ghost use Rattle.std.specs.Prelude.{refl};
ghost use Rattle.mpcp_window_laws.specs.WaitRows.{mpcp_closer_source};
ghost use Rattle.mpcp_window_laws.proofs.Points.{mpcp_closer_point};
ghost use Rattle.mpcp_window_laws.proofs.Programs.{mpcp_closer_covered, mpcp_closer_rises};

use crate::keeping::keeps_windows;
use crate::programs::CloserMpcpRows;
use further_rows::{Closer, FurtherRows};
use mpcp_rules::Mpcp;
use protocol_programs::keeps_jobs;
use sporadic_model::{TaskId, TaskSet};

/// The multiprocessor priority ceiling protocol, with the closer analysis.
pub type CloserMpcp = Closer<Mpcp, CloserMpcpRows>;

/// The protocol as a value.
pub const CLOSER_MPCP: CloserMpcp = Closer {
    plain: Mpcp,
    rows: CloserMpcpRows,
};

impl FurtherRows<Mpcp> for CloserMpcpRows {
    ghost source = { λ r. mpcp_closer_source };

    fn keeps_limits(&self, set: &TaskSet, i: TaskId, earlier: &[u64], bounds: &[u64]) -> bool {
        // windows cost more to compare
        if !keeps_jobs(set, i, earlier, bounds) {
            return false;
        }
        keeps_windows(set, i, earlier, bounds)
    }

    ghost served = { λ r p set suits. suits };

    ghost plain_columns = { λ r p set i. refl };

    ghost further = { λ r p set. refl };

    ghost covers = { λ r p set i bounds c suits here within. mpcp_closer_covered set i bounds c within };

    ghost rises = { λ r p set i low high suits here most. mpcp_closer_rises set i low high here most };

    ghost meets_rows = { λ r p w bounds n j suits within keeps. mpcp_closer_point w bounds n j within keeps };
}
