ghost use Rattle.std.specs.Prelude.{◌≡◌, ◌≤◌, true, IfOk};
ghost use Rattle.program_form.specs.Certificate.{certificate_seen};
ghost use Rattle.sporadic_model.specs.declared.limits.TheConstants.{MOST_TICKS};
ghost use Rattle.schedule_model.specs.RowDef.{trace_in};
ghost use Rattle.schedule_model.specs.Fitting.{is_fitting};
ghost use Rattle.schedule_model.specs.Keeping.{KeepsBefore};
ghost use Rattle.dual_check.specs.Answers.{HasDenominators};
ghost use Rattle.sim_engine.specs.Simulated.{IsSimulated};
ghost use Rattle.named_laws.specs.Named.{HasHomes, rules_of, choice_of, source_of};
ghost use Rattle.named_protocols.specs.Analysed.{IsAnalysed, IsChecked, ConformsUnder, IsAuditedUnder};

use audit_figures::{AuditStop, TaskFigures, audit_rows_with};
use closer_distributed::{CLOSER_DFLP, CLOSER_DPCP};
use closer_fmlp::CLOSER_FMLP_PLUS;
use closer_mpcp::CLOSER_MPCP;
use closer_spin::CLOSER_SPIN;
use dflp_protocol::Dflp;
use dual_check::{Invalid, Valid, check_with};
use program_form::Certificate;
use protocol_names::ProtocolName;
use request_windows::DPCP_WINDOWS;
use response_fixpoint::{Stop, Verdict, analyse_with};
use schedule_model::{JobList, RowList, RowReader};
use sim_engine::simulate_with;
use spin_protocol::Spin;
use sporadic_model::TaskSet;
use std::alloc::{AllocError, Global};
use std::thread::Threads;
use trace_conform::{Measured, Unlawful, conform_rows_with};

/// The least bounds of the set under the protocol of this name, as `analyse` of `response_fixpoint` finds them.
pub fn analyse<R: Threads + Sync>(
    rt: &R,
    alloc: Global,
    set: &TaskSet,
    protocol: ProtocolName,
    allowance: u64,
) -> Result<Verdict, Stop>
    requires suits { HasHomes protocol set.now }
    ensures { IsAnalysed (source_of protocol set.now) allowance result }
{
    match protocol {
        ProtocolName::Base(base) => response_fixpoint::analyse(rt, alloc, set, base, allowance),
        ProtocolName::Dflp => analyse_with(rt, alloc, set, &Dflp, allowance),
        ProtocolName::Spin => analyse_with(rt, alloc, set, &Spin, allowance),
        ProtocolName::DpcpWindows => analyse_with(rt, alloc, set, &DPCP_WINDOWS, allowance),
        ProtocolName::FmlpPlusCloser => analyse_with(rt, alloc, set, &CLOSER_FMLP_PLUS, allowance),
        ProtocolName::SpinCloser => analyse_with(rt, alloc, set, &CLOSER_SPIN, allowance),
        ProtocolName::DpcpCloser => analyse_with(rt, alloc, set, &CLOSER_DPCP, allowance),
        ProtocolName::DflpCloser => analyse_with(rt, alloc, set, &CLOSER_DFLP, allowance),
        ProtocolName::MpcpCloser => analyse_with(rt, alloc, set, &CLOSER_MPCP, allowance),
    }
}

/// Whether the certificate is valid under the protocol of this name, as `check` of `dual_check` judges it.
pub fn check(
    alloc: Global,
    protocol: ProtocolName,
    set: &TaskSet,
    certificate: &Certificate,
) -> Result<Valid, Invalid>
    requires suits { HasHomes protocol set.now }
    requires denominators { HasDenominators (certificate_seen certificate.now) }
    ensures { IsChecked protocol set.now (certificate_seen certificate.now) result }
{
    match protocol {
        ProtocolName::Base(base) => dual_check::check(alloc, base, set, certificate),
        ProtocolName::Dflp => check_with(alloc, &Dflp, set, certificate),
        ProtocolName::Spin => check_with(alloc, &Spin, set, certificate),
        ProtocolName::DpcpWindows => check_with(alloc, &DPCP_WINDOWS, set, certificate),
        ProtocolName::FmlpPlusCloser => check_with(alloc, &CLOSER_FMLP_PLUS, set, certificate),
        ProtocolName::SpinCloser => check_with(alloc, &CLOSER_SPIN, set, certificate),
        ProtocolName::DpcpCloser => check_with(alloc, &CLOSER_DPCP, set, certificate),
        ProtocolName::DflpCloser => check_with(alloc, &CLOSER_DFLP, set, certificate),
        ProtocolName::MpcpCloser => check_with(alloc, &CLOSER_MPCP, set, certificate),
    }
}

/// Whether each row that is read keeps the rules of the protocol of this name, with the measures of each task, as `conform_rows` of
/// `trace_conform` judges it. The reader starts at the first run.
pub fn conform_rows<R: RowReader>(
    alloc: Global,
    protocol: ProtocolName,
    jobs: &JobList,
    rows: &mut R,
) -> Result<Measured, Unlawful>
    requires suits { HasHomes protocol jobs.now.set }
    requires fits { is_fitting (R.rows rows.old) jobs.now ≡ true }
    requires start { R.at rows.old ≡ 0 }
    ensures { ConformsUnder protocol jobs.now (R.rows rows.old) result }
{
    match protocol {
        ProtocolName::Base(base) => trace_conform::conform_rows(alloc, base, jobs, rows),
        ProtocolName::Dflp => conform_rows_with(alloc, &Dflp, jobs, rows),
        ProtocolName::Spin => conform_rows_with(alloc, &Spin, jobs, rows),
        ProtocolName::DpcpWindows => conform_rows_with(alloc, &DPCP_WINDOWS, jobs, rows),
        ProtocolName::FmlpPlusCloser => conform_rows_with(alloc, &CLOSER_FMLP_PLUS, jobs, rows),
        ProtocolName::SpinCloser => conform_rows_with(alloc, &CLOSER_SPIN, jobs, rows),
        ProtocolName::DpcpCloser => conform_rows_with(alloc, &CLOSER_DPCP, jobs, rows),
        ProtocolName::DflpCloser => conform_rows_with(alloc, &CLOSER_DFLP, jobs, rows),
        ProtocolName::MpcpCloser => conform_rows_with(alloc, &CLOSER_MPCP, jobs, rows),
    }
}

/// The schedule that the protocol of this name chooses, as `simulate` of `sim_engine` makes it.
pub fn simulate(
    alloc: Global,
    protocol: ProtocolName,
    jobs: &JobList,
    ticks: u64,
) -> Result<RowList, AllocError>
    requires suits { HasHomes protocol jobs.now.set }
    requires some { 1 ≤ ticks }
    requires most { ticks ≤ MOST_TICKS }
    ensures simulated { IfOk result (λ rows. IsSimulated (choice_of protocol) jobs.now ticks rows.runs) }
    ensures keeps { IfOk result (λ rows. KeepsBefore (rules_of protocol) (trace_in jobs.now rows.runs) ticks) }
    ensures fits { IfOk result (λ rows. is_fitting rows jobs.now ≡ true) }
{
    match protocol {
        ProtocolName::Base(base) => sim_engine::simulate(alloc, base, jobs, ticks),
        ProtocolName::Dflp => simulate_with(alloc, &Dflp, jobs, ticks),
        ProtocolName::Spin => simulate_with(alloc, &Spin, jobs, ticks),
        ProtocolName::DpcpWindows => simulate_with(alloc, &DPCP_WINDOWS, jobs, ticks),
        ProtocolName::FmlpPlusCloser => simulate_with(alloc, &CLOSER_FMLP_PLUS, jobs, ticks),
        ProtocolName::SpinCloser => simulate_with(alloc, &CLOSER_SPIN, jobs, ticks),
        ProtocolName::DpcpCloser => simulate_with(alloc, &CLOSER_DPCP, jobs, ticks),
        ProtocolName::DflpCloser => simulate_with(alloc, &CLOSER_DFLP, jobs, ticks),
        ProtocolName::MpcpCloser => simulate_with(alloc, &CLOSER_MPCP, jobs, ticks),
    }
}

/// The figures of each task under the protocol of this name, as `audit_rows` of `audit_figures` finds them. The reader starts at the first
/// run.
pub fn audit_rows<R: RowReader>(
    alloc: Global,
    protocol: ProtocolName,
    certificate: &Certificate,
    jobs: &JobList,
    rows: &mut R,
) -> Result<Vec<TaskFigures>, AuditStop>
    requires homes { HasHomes protocol jobs.now.set }
    requires denominators { HasDenominators (certificate_seen certificate.now) }
    requires fits { is_fitting (R.rows rows.old) jobs.now ≡ true }
    requires start { R.at rows.old ≡ 0 }
    ensures { IsAuditedUnder protocol (certificate_seen certificate.now) jobs.now (R.rows rows.old) result }
{
    match protocol {
        ProtocolName::Base(base) => audit_figures::audit_rows(alloc, base, certificate, jobs, rows),
        ProtocolName::Dflp => audit_rows_with(alloc, &Dflp, certificate, jobs, rows),
        ProtocolName::Spin => audit_rows_with(alloc, &Spin, certificate, jobs, rows),
        ProtocolName::DpcpWindows => audit_rows_with(alloc, &DPCP_WINDOWS, certificate, jobs, rows),
        ProtocolName::FmlpPlusCloser => {
            audit_rows_with(alloc, &CLOSER_FMLP_PLUS, certificate, jobs, rows)
        }
        ProtocolName::SpinCloser => audit_rows_with(alloc, &CLOSER_SPIN, certificate, jobs, rows),
        ProtocolName::DpcpCloser => audit_rows_with(alloc, &CLOSER_DPCP, certificate, jobs, rows),
        ProtocolName::DflpCloser => audit_rows_with(alloc, &CLOSER_DFLP, certificate, jobs, rows),
        ProtocolName::MpcpCloser => audit_rows_with(alloc, &CLOSER_MPCP, certificate, jobs, rows),
    }
}
