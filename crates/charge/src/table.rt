ghost use Rattle.std.specs.Prelude.{◌≡◌, ℕ, map, IfOk, OnOk};
ghost use Rattle.std.specs.BTreeMap.{IsOrdered};
ghost use Rattle.schedule_model.specs.LawfulJobs.{AreLawfulJobs};
ghost use Rattle.schedule_model.specs.RowDef.{Trace, jobs_of};
ghost use Rattle.schedule_model.specs.Keeping.{KeepsBefore};
ghost use Rattle.charge.specs.Ledgers.{IsLedger};
ghost use Rattle.charge.specs.Table.{item_seen, IsChargeTable};
ghost use Rattle.charge.specs.Tally.{place_cmp, item_of};

use crate::item::{ChargeItem, ChargeTable};
use crate::tally::{ChargePlace, Ledger};
use charged_protocols::ChargedProtocol;
use schedule_model::JobId;
use sporadic_model::ResourceId;
use std::alloc::{AllocError, Global};
use std::collections::BTreeMap;

/// The item of a place with this many ticks.
fn item_of(place: &ChargePlace, ticks: u64) -> ChargeItem
    ensures { item_seen result ≡ item_of (place.now, ticks) }
{
    ChargeItem {
        blocked: JobId(place.blocked),
        blocker: JobId(place.blocker),
        request: place.request,
        resource: ResourceId(place.resource),
        class: place.class,
        ticks,
    }
}

/// The items of all places, in their order.
fn items_of(
    alloc: Global,
    ticks: &BTreeMap<ChargePlace, u64>,
) -> Result<Vec<ChargeItem>, AllocError>
    ensures items { IfOk result (λ v. map item_seen v.items ≡ map item_of ticks.now.entries) }
    ensures ordered { IsOrdered place_cmp ticks.now }
{
    let mut items = Vec::with_capacity(alloc, ticks.len())?;
    for (place, count) in ticks {
        items.push(item_of(place, *count))?;
    }
    Ok(items)
}

/// The table of the charges of a lawful schedule, from the ledger of all its rows.
pub fn table_of<P: ChargedProtocol>(
    alloc: Global,
    ledger: &Ledger,
) -> Result<ChargeTable, AllocError>
    ensures { IfOk result (λ table. (p : P) (w : Trace) (bound : ℕ → ℕ) (n : ℕ) → P.suits p w.set → AreLawfulJobs (jobs_of w)
        → KeepsBefore (P.keeps p) w n → IsLedger (P.charges p) w bound n ledger.now
        → IsChargeTable (P.charges p) (P.interferes p) w bound n (map item_seen table.charges.items)) }
{
    let charges = items_of(alloc, &ledger.ticks)?;
    Ok(ChargeTable { charges })
}
