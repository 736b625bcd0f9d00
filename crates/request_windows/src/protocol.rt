//! The protocol: DPCP with the programs that have rows of windows.

ghost use Rattle.std.specs.Prelude.{refl};
ghost use Rattle.window_laws.specs.WindowRows.{windowed_source};
ghost use Rattle.window_laws.proofs.Points.{windowed_point};
ghost use Rattle.window_laws.proofs.Programs.{windowed_covered, windowed_rises};

use crate::programs::DpcpWindowRows;
use dpcp_rules::Dpcp;
use further_rows::{Closer, FurtherRows};

/// The distributed priority ceiling protocol, analysed with windows of requests. It suits task sets in which each resource has a home.
pub type DpcpWindows = Closer<Dpcp, DpcpWindowRows>;

/// The protocol as a value.
pub const DPCP_WINDOWS: DpcpWindows = Closer {
    plain: Dpcp,
    rows: DpcpWindowRows,
};

impl FurtherRows<Dpcp> for DpcpWindowRows {
    ghost source = { λ r. windowed_source };

    ghost served = { λ r p set suits. suits };

    ghost plain_columns = { λ r p set i. refl };

    ghost further = { λ r p set. refl };

    ghost covers = { λ r p set i bounds c suits here within. windowed_covered set i bounds c within };

    ghost rises = { λ r p set i low high suits here most. windowed_rises set i low high here most };

    ghost meets_rows = { λ r p w bounds n j suits within keeps. windowed_point w bounds n j within keeps };
}
