ghost use Rattle.std.specs.Prelude.{ℕ, Option, Some, OnOk};
ghost use Rattle.schedule_model.specs.RowDef.{Trace};
ghost use Rattle.charge_laws.specs.Charges.{Charge};
ghost use Rattle.charge.specs.Ledgers.{IsLedger};
ghost use Rattle.charge.specs.Tally.{CanAddTicks, CountsMore};

use blocking_columns::Class;
use schedule_model::JobId;
use std::alloc::{AllocError, Global};
use std::collections::BTreeMap;

/// A place of the table, to which ticks are counted: the numbers of the blocked job, the blocker, its request and the resource, and the
/// class. Places are in the order of the table.
#[derive(Clone, Copy, Debug, PartialEq, Eq, PartialOrd, Ord)]
pub struct ChargePlace {
    pub blocked: u32,
    pub blocker: u32,
    pub request: u32,
    pub resource: u32,
    pub class: Class,
}

/// What is charged of a schedule so far, and which job passed its bound first.
#[derive(Drop)]
pub struct Ledger {
    /// The ticks at each place.
    pub ticks: BTreeMap<ChargePlace, u64>,
    /// The first job that was not finished at its release plus its bound, if that was before the last row.
    pub passed: Option<JobId>,
}

impl Ledger {
    /// The ledger before the first row.
    pub fn new(alloc: Global) -> Ledger
        ensures { (charges : Trace → ℕ → ℕ → Option Charge) (w : Trace) (bound : ℕ → ℕ) → IsLedger charges w bound 0 result }
    {
        Ledger {
            ticks: BTreeMap::new(alloc),
            passed: None,
        }
    }
}

/// Counts this many more ticks at the place.
fn add_ticks(
    ticks: &mut BTreeMap<ChargePlace, u64>,
    place: ChargePlace,
    more: u64,
) -> Result<(), AllocError>
    requires { CanAddTicks ticks.old more }
    ensures { OnOk result (CountsMore ticks.old ticks.new (Some place) more) }
{
    let before = ticks.get(&place).copied().unwrap_or(0);
    ticks.insert(place, before + more)?;
    Ok(())
}

/// The same, if a place is named.
pub(crate) fn add_named(
    ticks: &mut BTreeMap<ChargePlace, u64>,
    named: Option<ChargePlace>,
    more: u64,
) -> Result<(), AllocError>
    requires { CanAddTicks ticks.old more }
    ensures { OnOk result (CountsMore ticks.old ticks.new named more) }
{
    match named {
        Some(place) => add_ticks(ticks, place, more),
        None => Ok(()),
    }
}
