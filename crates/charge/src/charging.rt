ghost use Rattle.std.specs.Prelude.{◌≡◌, length, true, slice_index, OnOk};
ghost use Rattle.sporadic_model.specs.Homes.{HasHomesFor};
ghost use Rattle.schedule_model.specs.RowDef.{trace_in, ticks_of};
ghost use Rattle.schedule_model.specs.Fitting.{is_fitting};
ghost use Rattle.charge_laws.specs.Windows.{AreBounds};
ghost use Rattle.blocking_columns.specs.Columns.{columns_of};
ghost use Rattle.program_laws.specs.Programs.{program_of};
ghost use Rattle.schedule_model.specs.ByProtocol.{rules_of, interference_of};
ghost use Rattle.charge_laws.specs.ByProtocol.{charges_of};
ghost use Rattle.charge.specs.Charging.{Charged, MeetRows};

use crate::charger::Charger;
use crate::due::first_of_due;
use crate::item::{ChargeStop, ChargeTable};
use crate::table::table_of;
use crate::tally::Ledger;
use charged_protocols::ChargedProtocol;
use dpcp_rules::Dpcp;
use fmlp_rules::FmlpPlus;
use mpcp_rules::Mpcp;
use schedule_answers::Unlawful;
use schedule_model::{JobList, ListedRows, RowList, RowReader};
use sporadic_model::Protocol;
use std::alloc::Global;
use trace_walk::walk;

/// The charges of each job at each blocked tick within its bound. You give the bounds in ticks, one for each task and at most its latest
/// bound. The reader has to be at the first run. The rows are judged as they are read: [`ChargeStop`] says what stops them.
pub fn charge_rows_with<P: ChargedProtocol, R: RowReader>(
    alloc: Global,
    protocol: &P,
    jobs: &JobList,
    rows: &mut R,
    bounds: &[u64],
) -> Result<ChargeTable, ChargeStop>
    requires suits { P.suits protocol.now jobs.now.set }
    requires fits { is_fitting (R.rows rows.old) jobs.now ≡ true }
    requires start { R.at rows.old ≡ 0 }
    requires one_each { length bounds.now ≡ length jobs.now.set.tasks }
    requires bounds { AreBounds jobs.now.set (slice_index bounds.now) }
    ensures charged { Charged (P.keeps protocol.now) (P.interferes protocol.now) (P.charges protocol.now)
        (trace_in jobs.now (R.rows rows.old).runs) (slice_index bounds.now) (ticks_of (R.rows rows.old).runs) result }
    ensures rows { OnOk result (MeetRows (P.source protocol.now jobs.now.set).program (P.columns_of protocol.now jobs.now.set)
        (P.charges protocol.now) (trace_in jobs.now (R.rows rows.old).runs) bounds.now (ticks_of (R.rows rows.old).runs)) }
{
    jobs.set().keeps_the_model();
    let mut ledger = Ledger::new(alloc);
    let machine = match walk(
        alloc,
        protocol,
        jobs,
        rows,
        &Charger { bounds },
        &mut ledger,
    ) {
        Ok(machine) => machine,
        Err(Unlawful::Broken(breach)) => return Err(ChargeStop::Unlawful(breach)),
        Err(Unlawful::Memory) => return Err(ChargeStop::Memory),
    };
    if let Some(j) = first_of_due(&machine, bounds, ledger.passed) {
        return Err(ChargeStop::BoundPassed(j));
    }
    Ok(table_of::<P>(alloc, &ledger)?)
}

/// The same for a list of rows.
pub fn charge_with<P: ChargedProtocol>(
    alloc: Global,
    protocol: &P,
    jobs: &JobList,
    rows: &RowList,
    bounds: &[u64],
) -> Result<ChargeTable, ChargeStop>
    requires suits { P.suits protocol.now jobs.now.set }
    requires fits { is_fitting rows.now jobs.now ≡ true }
    requires one_each { length bounds.now ≡ length jobs.now.set.tasks }
    requires bounds { AreBounds jobs.now.set (slice_index bounds.now) }
    ensures charged { Charged (P.keeps protocol.now) (P.interferes protocol.now) (P.charges protocol.now)
        (trace_in jobs.now rows.now.runs) (slice_index bounds.now) (ticks_of rows.now.runs) result }
    ensures rows { OnOk result (MeetRows (P.source protocol.now jobs.now.set).program (P.columns_of protocol.now jobs.now.set)
        (P.charges protocol.now) (trace_in jobs.now rows.now.runs) bounds.now (ticks_of rows.now.runs)) }
{
    charge_rows_with(alloc, protocol, jobs, &mut ListedRows::new(rows), bounds)
}

/// `charge_with` by the protocol's name. Under DPCP each resource has a home.
pub fn charge(
    alloc: Global,
    protocol: Protocol,
    jobs: &JobList,
    rows: &RowList,
    bounds: &[u64],
) -> Result<ChargeTable, ChargeStop>
    requires homes { HasHomesFor protocol jobs.now.set }
    requires fits { is_fitting rows.now jobs.now ≡ true }
    requires one_each { length bounds.now ≡ length jobs.now.set.tasks }
    requires bounds { AreBounds jobs.now.set (slice_index bounds.now) }
    ensures charged { Charged (rules_of protocol) (interference_of protocol) (charges_of protocol)
        (trace_in jobs.now rows.now.runs) (slice_index bounds.now) (ticks_of rows.now.runs) result }
    ensures rows { OnOk result (MeetRows (program_of protocol jobs.now.set) (columns_of protocol jobs.now.set)
        (charges_of protocol) (trace_in jobs.now rows.now.runs) bounds.now (ticks_of rows.now.runs)) }
{
    match protocol {
        Protocol::Mpcp => charge_with(alloc, &Mpcp, jobs, rows, bounds),
        Protocol::FmlpPlus => charge_with(alloc, &FmlpPlus, jobs, rows, bounds),
        Protocol::Dpcp => charge_with(alloc, &Dpcp, jobs, rows, bounds),
    }
}
