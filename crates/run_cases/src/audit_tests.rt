use audit_figures::{AuditStop, TaskFigures, audit};
use dual_check::has_denominators;
use program_form::{Certificate, Dual};
use schedule_model::{JobList, RowList};
use sporadic_model::Protocol;
use std::alloc::{AllocError, Global};
use std::test::Fail;
use taskset_json::home_check;
use worked_sets::files::*;

/// Bounds, and the numerators of each dual. The denominators are 1.
type Proof = (&'static [u64], &'static [&'static [u64]]);

fn certificate_of(alloc: Global, proof: Proof) -> Result<Certificate, AllocError> {
    let (bounds, numerators) = proof;
    let mut duals = Vec::new(alloc);
    for num in numerators {
        duals.push(Dual {
            den: 1,
            num: Vec::from_slice(alloc, num)?,
        })?;
    }
    Ok(Certificate {
        bounds: Vec::from_slice(alloc, bounds)?,
        duals,
    })
}

/// The answer for the rows and the certificate.
fn answer_to_audit(
    alloc: Global,
    protocol: Protocol,
    certificate: &Certificate,
    jobs: &JobList,
    rows: &RowList,
) -> Result<Result<Vec<TaskFigures>, AuditStop>, Fail> {
    if home_check(jobs.set(), protocol).is_err() {
        return Err("a resource has no home".into());
    }
    if !rows.fits(jobs) || !has_denominators(certificate) {
        return Err("the rows or the denominators do not fit".into());
    }
    Ok(audit(alloc, protocol, certificate, jobs, rows))
}

/// The same for the texts of a set, jobs and rows.
fn audit_of(
    alloc: Global,
    protocol: Protocol,
    proof: Proof,
    schedule: [&str; 3],
) -> Result<Result<Vec<TaskFigures>, AuditStop>, Fail> {
    let [set, jobs, rows] = schedule;
    let set = set_from(alloc, set)?;
    let jobs = trace_csv::read_jobs(alloc, &set, jobs.as_bytes())?;
    let rows = trace_csv::read_rows(alloc, &jobs, rows.as_bytes())?;
    let certificate = certificate_of(alloc, proof)?;
    answer_to_audit(alloc, protocol, &certificate, &jobs, &rows)
}

/// The response, the bound, the blocking, the value, and the ticks of the three classes.
type Numbers = (Option<u64>, u64, u64, u64, u64, u64, u64);

fn figures_of(alloc: Global, tasks: &[Numbers]) -> Result<Vec<TaskFigures>, AllocError> {
    let mut figures = Vec::new(alloc);
    for numbers in tasks {
        let (response, bound, blocking, value, direct, indirect, preemption) = *numbers;
        figures.push(TaskFigures {
            response,
            bound,
            blocking,
            value,
            direct,
            indirect,
            preemption,
        })?;
    }
    Ok(figures)
}

/// The least bounds of `PAIR` under FMLP+.
const PAIR_PROOF: Proof = (&[5, 5], &[&[2, 0, 0, 0], &[1, 0, 0, 0]]);

const HOME_PROOF: Proof = (&[6, 6], &[&[2, 0, 0], &[1, 1, 0]]);

/// A schedule under a protocol, a certificate, and the figures.
type Case = (Protocol, Proof, [&'static str; 3], &'static [Numbers]);

const CASES: &[Case] = &[
    (
        Protocol::FmlpPlus,
        PAIR_PROOF,
        [PAIR, PAIR_JOBS, PAIR_LOWER_FIRST],
        &[(Some(5), 5, 2, 2, 2, 0, 0), (Some(4), 5, 0, 1, 0, 0, 0)],
    ),
    (
        Protocol::Dpcp,
        HOME_PROOF,
        [HOME, HOME_JOBS, HOME_ROWS],
        &[(Some(4), 6, 1, 2, 0, 1, 0), (Some(4), 6, 0, 2, 0, 0, 0)],
    ),
];

#[test]
fn schedules_stand_beside_their_certificates(rt: HostRuntime) -> Result<(), Fail> {
    for (protocol, proof, schedule, wanted) in CASES {
        let Ok(figures) = audit_of(rt.alloc(), *protocol, *proof, *schedule)? else {
            return Err("no figures".into());
        };
        assert_eq!(rt;
            figures,
            figures_of(rt.alloc(), wanted)?,
            "at {}",
            schedule[2]
        );
    }
    Ok(())
}
