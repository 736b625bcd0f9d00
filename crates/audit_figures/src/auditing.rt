ghost use Rattle.std.specs.Prelude.{◌≡◌, true, slice_index};
ghost use Rattle.program_form.specs.Certificate.{certificate_seen};
ghost use Rattle.sporadic_model.specs.Homes.{HasHomesFor};
ghost use Rattle.program_sources.specs.Recurrence.{source_at};
ghost use Rattle.program_laws.specs.Programs.{source_of};
ghost use Rattle.schedule_model.specs.RowDef.{trace_in, ticks_of};
ghost use Rattle.schedule_model.specs.Fitting.{is_fitting};
ghost use Rattle.schedule_model.specs.ByProtocol.{rules_of, interference_of};
ghost use Rattle.charge_laws.specs.ByProtocol.{charges_of};
ghost use Rattle.dual_check.specs.Answers.{HasDenominators};
ghost use Rattle.figure_laws.specs.Audited.{IsAudited};
ghost use Rattle.audit_figures.specs.Given.{CanBeWalked, HaveBoundAndValue};
ghost use Rattle.audit_figures.specs.Walked.{HasFigures};

use crate::beside::figures;
use charge::{Charger, Ledger, table_of};
use charged_protocols::ChargedProtocol;
use dpcp_rules::Dpcp;
use dual_check::check_with;
use fmlp_rules::FmlpPlus;
use mpcp_rules::Mpcp;
use program_form::Certificate;
use schedule_answers::{AuditStop, Invalid, TaskFigures, Unlawful};
use schedule_model::{JobList, ListedRows, RowList, RowReader};
use sporadic_model::Protocol;
use std::alloc::Global;
use trace_conform::{JobCounter, measures_of, no_counts};
use trace_walk::{Both, walk};

/// The figures of a schedule, with bounds and values, by one walk over it that measures and charges. Or the first row that breaks a
/// rule.
fn walked_figures<P: ChargedProtocol, R: RowReader>(
    alloc: Global,
    protocol: &P,
    jobs: &JobList,
    rows: &mut R,
    bounds: &[u64],
    values: &[u64],
) -> Result<Vec<TaskFigures>, Unlawful>
    requires rows { CanBeWalked (P.suits protocol.now) jobs.now (R.rows rows.old) (R.at rows.old) }
    requires given { HaveBoundAndValue jobs.now.set bounds.now values.now }
    ensures { HasFigures (P.keeps protocol.now) (P.interferes protocol.now) (P.charges protocol.now) (trace_in jobs.now (R.rows rows.old).runs)
        (slice_index bounds.now) (slice_index values.now) (ticks_of (R.rows rows.old).runs) result }
{
    jobs.keeps_its_rules();
    rows.keeps_its_rules();
    let keeper = Both {
        first: JobCounter,
        second: Charger { bounds },
    };
    let counts = no_counts(alloc, jobs.len())?;
    let mut notes = (counts, Ledger::new(alloc));
    let machine = walk(alloc, protocol, jobs, rows, &keeper, &mut notes)?;
    let measured = measures_of(alloc, &machine, &notes.0)?;
    let table = table_of::<P>(alloc, &notes.1)?;
    let figures = figures(alloc, jobs, &measured, bounds, values, &table)?;
    Ok(figures)
}

/// Judges the certificate, then the rows that are read. Shows what happened to each task in the rows, next to what the certificate
/// proves of it. Each dual's denominator is at least 1. The reader starts at the first run.
pub fn audit_rows_with<P: ChargedProtocol, R: RowReader>(
    alloc: Global,
    protocol: &P,
    certificate: &Certificate,
    jobs: &JobList,
    rows: &mut R,
) -> Result<Vec<TaskFigures>, AuditStop>
    requires suits { P.suits protocol.now jobs.now.set }
    requires denominators { HasDenominators (certificate_seen certificate.now) }
    requires fits { is_fitting (R.rows rows.old) jobs.now ≡ true }
    requires start { R.at rows.old ≡ 0 }
    ensures { IsAudited (P.keeps protocol.now) (P.interferes protocol.now) (P.charges protocol.now)
        (source_at (P.source protocol.now) jobs.now.set) (certificate_seen certificate.now)
        (trace_in jobs.now (R.rows rows.old).runs) (ticks_of (R.rows rows.old).runs) result }
{
    jobs.set().keeps_the_model();
    jobs.keeps_its_rules();
    let valid = match check_with(alloc, protocol, jobs.set(), certificate) {
        Ok(valid) => valid,
        Err(Invalid::Memory) => return Err(AuditStop::Memory),
        Err(failure) => return Err(AuditStop::Invalid(failure)),
    };
    let bounds = &certificate.bounds;
    let figures = match walked_figures(alloc, protocol, jobs, rows, bounds, &valid.values) {
        Ok(figures) => figures,
        Err(Unlawful::Broken(breach)) => return Err(AuditStop::Broken(breach)),
        Err(Unlawful::Memory) => return Err(AuditStop::Memory),
    };
    Ok(figures)
}

/// The same for a list of rows.
pub fn audit_with<P: ChargedProtocol>(
    alloc: Global,
    protocol: &P,
    certificate: &Certificate,
    jobs: &JobList,
    rows: &RowList,
) -> Result<Vec<TaskFigures>, AuditStop>
    requires suits { P.suits protocol.now jobs.now.set }
    requires denominators { HasDenominators (certificate_seen certificate.now) }
    requires fits { is_fitting rows.now jobs.now ≡ true }
    ensures { IsAudited (P.keeps protocol.now) (P.interferes protocol.now) (P.charges protocol.now)
        (source_at (P.source protocol.now) jobs.now.set) (certificate_seen certificate.now)
        (trace_in jobs.now rows.now.runs) (ticks_of rows.now.runs) result }
{
    audit_rows_with(
        alloc,
        protocol,
        certificate,
        jobs,
        &mut ListedRows::new(rows),
    )
}

/// `audit_rows_with` for the protocol of this name. Under DPCP each resource has a home.
pub fn audit_rows<R: RowReader>(
    alloc: Global,
    protocol: Protocol,
    certificate: &Certificate,
    jobs: &JobList,
    rows: &mut R,
) -> Result<Vec<TaskFigures>, AuditStop>
    requires homes { HasHomesFor protocol jobs.now.set }
    requires denominators { HasDenominators (certificate_seen certificate.now) }
    requires fits { is_fitting (R.rows rows.old) jobs.now ≡ true }
    requires start { R.at rows.old ≡ 0 }
    ensures { IsAudited (rules_of protocol) (interference_of protocol) (charges_of protocol) (source_of protocol jobs.now.set)
        (certificate_seen certificate.now) (trace_in jobs.now (R.rows rows.old).runs) (ticks_of (R.rows rows.old).runs) result }
{
    match protocol {
        Protocol::Mpcp => audit_rows_with(alloc, &Mpcp, certificate, jobs, rows),
        Protocol::FmlpPlus => audit_rows_with(alloc, &FmlpPlus, certificate, jobs, rows),
        Protocol::Dpcp => audit_rows_with(alloc, &Dpcp, certificate, jobs, rows),
    }
}

/// The same for a list of rows.
pub fn audit(
    alloc: Global,
    protocol: Protocol,
    certificate: &Certificate,
    jobs: &JobList,
    rows: &RowList,
) -> Result<Vec<TaskFigures>, AuditStop>
    requires homes { HasHomesFor protocol jobs.now.set }
    requires denominators { HasDenominators (certificate_seen certificate.now) }
    requires fits { is_fitting rows.now jobs.now ≡ true }
    ensures { IsAudited (rules_of protocol) (interference_of protocol) (charges_of protocol) (source_of protocol jobs.now.set)
        (certificate_seen certificate.now) (trace_in jobs.now rows.now.runs) (ticks_of rows.now.runs) result }
{
    audit_rows(
        alloc,
        protocol,
        certificate,
        jobs,
        &mut ListedRows::new(rows),
    )
}
