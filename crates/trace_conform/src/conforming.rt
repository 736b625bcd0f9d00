ghost use Rattle.std.specs.Prelude.{◌≡◌, true};
ghost use Rattle.sporadic_model.specs.Homes.{HasHomesFor};
ghost use Rattle.schedule_model.specs.RowDef.{trace_in, ticks_of};
ghost use Rattle.schedule_model.specs.Fitting.{is_fitting};
ghost use Rattle.schedule_answers.specs.Conforming.{Conforms};
ghost use Rattle.schedule_model.specs.ByProtocol.{rules_of, interference_of};

use crate::counting::JobCounter;
use crate::counts::no_counts;
use crate::measures::measures_of;
use dpcp_rules::Dpcp;
use fmlp_rules::FmlpPlus;
use mpcp_rules::Mpcp;
use phase_machine::Judge;
use schedule_answers::{Measured, Unlawful};
use schedule_model::{JobList, ListedRows, RowList, RowReader};
use sporadic_model::Protocol;
use std::alloc::Global;
use trace_walk::walk;

/// Judges each row by the protocol's rules, and measures each task. It is Ok exactly if every row keeps all five rules. Else it names the
/// first row that breaks one. You give a reader at the first run.
pub fn conform_rows_with<P: Judge, R: RowReader>(
    alloc: Global,
    protocol: &P,
    jobs: &JobList,
    rows: &mut R,
) -> Result<Measured, Unlawful>
    requires suits { P.suits protocol.now jobs.now.set }
    requires fits { is_fitting (R.rows rows.old) jobs.now ≡ true }
    requires start { R.at rows.old ≡ 0 }
    ensures { Conforms (P.keeps protocol.now) (P.interferes protocol.now) (trace_in jobs.now (R.rows rows.old).runs)
        (ticks_of (R.rows rows.old).runs) result }
{
    let mut counts = no_counts(alloc, jobs.len())?;
    let machine = walk(alloc, protocol, jobs, rows, &JobCounter, &mut counts)?;
    Ok(measures_of(alloc, &machine, &counts)?)
}

/// The same for a list of rows.
pub fn conform_with<P: Judge>(
    alloc: Global,
    protocol: &P,
    jobs: &JobList,
    rows: &RowList,
) -> Result<Measured, Unlawful>
    requires suits { P.suits protocol.now jobs.now.set }
    requires fits { is_fitting rows.now jobs.now ≡ true }
    ensures { Conforms (P.keeps protocol.now) (P.interferes protocol.now) (trace_in jobs.now rows.now.runs)
        (ticks_of rows.now.runs) result }
{
    conform_rows_with(alloc, protocol, jobs, &mut ListedRows::new(rows))
}

/// `conform_rows_with` by the protocol's name. Under DPCP each resource of the set has a home.
pub fn conform_rows<R: RowReader>(
    alloc: Global,
    protocol: Protocol,
    jobs: &JobList,
    rows: &mut R,
) -> Result<Measured, Unlawful>
    requires suits { HasHomesFor protocol jobs.now.set }
    requires fits { is_fitting (R.rows rows.old) jobs.now ≡ true }
    requires start { R.at rows.old ≡ 0 }
    ensures { Conforms (rules_of protocol) (interference_of protocol) (trace_in jobs.now (R.rows rows.old).runs)
        (ticks_of (R.rows rows.old).runs) result }
{
    match protocol {
        Protocol::Mpcp => conform_rows_with(alloc, &Mpcp, jobs, rows),
        Protocol::FmlpPlus => conform_rows_with(alloc, &FmlpPlus, jobs, rows),
        Protocol::Dpcp => conform_rows_with(alloc, &Dpcp, jobs, rows),
    }
}

/// The same for a list of rows, by the protocol's name.
pub fn conform(
    alloc: Global,
    protocol: Protocol,
    jobs: &JobList,
    rows: &RowList,
) -> Result<Measured, Unlawful>
    requires suits { HasHomesFor protocol jobs.now.set }
    requires fits { is_fitting rows.now jobs.now ≡ true }
    ensures { Conforms (rules_of protocol) (interference_of protocol) (trace_in jobs.now rows.now.runs) (ticks_of rows.now.runs) result }
{
    conform_rows(alloc, protocol, jobs, &mut ListedRows::new(rows))
}
