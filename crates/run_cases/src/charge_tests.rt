use blocking_columns::Class;
use charge::{ChargeItem, ChargeStop, ChargeTable, are_bounds, charge};
use schedule_model::{JobId, JobList, RowList, Rule};
use sporadic_model::{Protocol, ResourceId, TaskSet};
use std::alloc::{AllocError, Global};
use std::test::Fail;
use taskset_json::home_check;
use trace_conform::Breach;
use worked_sets::files::*;

/// The answer for the rows at these bounds.
fn charges(
    alloc: Global,
    protocol: Protocol,
    jobs: &JobList,
    rows: &RowList,
    bounds: &[u64],
) -> Result<Result<ChargeTable, ChargeStop>, Fail> {
    if home_check(jobs.set(), protocol).is_err() {
        return Err("a resource has no home".into());
    }
    if !rows.fits(jobs) || !are_bounds(jobs.set(), bounds) {
        return Err("the rows or the bounds do not fit".into());
    }
    Ok(charge(alloc, protocol, jobs, rows, bounds))
}

/// The same for the texts of a set, jobs and rows.
fn charges_of(
    alloc: Global,
    protocol: Protocol,
    schedule: [&str; 3],
    bounds: &[u64],
) -> Result<Result<ChargeTable, ChargeStop>, Fail> {
    let [set, jobs, rows] = schedule;
    let set = set_from(alloc, set)?;
    let jobs = trace_csv::read_jobs(alloc, &set, jobs.as_bytes())?;
    let rows = trace_csv::read_rows(alloc, &jobs, rows.as_bytes())?;
    charges(alloc, protocol, &jobs, &rows, bounds)
}

/// The blocked job, the blocker, the number of its request, the resource, the class and the ticks.
type Item = (u32, u32, u32, u32, Class, u64);

fn items_of(alloc: Global, items: &[Item]) -> Result<Vec<ChargeItem>, AllocError> {
    let mut charges = Vec::new(alloc);
    for item in items {
        let (blocked, blocker, request, resource, class, ticks) = *item;
        charges.push(ChargeItem {
            blocked: JobId(blocked),
            blocker: JobId(blocker),
            request,
            resource: ResourceId(resource),
            class,
            ticks,
        })?;
    }
    Ok(charges)
}

/// `t1` requests `q` at tick 1, and `t2` at tick 2.
const PAIR_LATER_JOBS: &str = "task,release,script\nt1,0,1 q:1 1\nt2,0,2 q:1 1\n";

/// At tick 1 the request of `t1` runs on the processor of `t2`, which is Local.
const PAIR_AT_HOME: &str = "ticks,P1,P2,q\n1,1,2,\n1,,1,1\n1,1,2,\n1,,2,2\n1,,2,\n";

/// Two tasks on one processor and one each on two others; `t1` and `t3` share `a`, `t2` and `t4` share `b`.
const BEHIND: &str = r#"{"processors":3,"resources":[{"name":"a"},{"name":"b"}],"tasks":[
{"name":"t1","processor":1,"period":20,"cost":2,"requests":[{"resource":"a","count":1,"length":1}]},
{"name":"t2","processor":1,"period":20,"cost":3,"requests":[{"resource":"b","count":1,"length":2}]},
{"name":"t3","processor":2,"period":20,"cost":3,"requests":[{"resource":"a","count":1,"length":1}]},
{"name":"t4","processor":3,"period":20,"cost":2,"requests":[{"resource":"b","count":1,"length":1}]}]}
"#;

const BEHIND_JOBS: &str = "task,release,script\nt1,1,1 a:1\nt2,0,1 b:2\nt3,0,2 a:1\nt4,0,1 b:1\n";

/// At ticks 2 and 3 `t1` holds `a` and waits for its processor, where `t2` runs with `b`; `t3` waits for `a`, at tick 4 too.
const BEHIND_ROWS: &str =
    "ticks,P1,P2,P3,a,b\n1,2,3,4,,\n1,1,3,4,,4\n2,2,,,1,2\n1,1,,,1,\n1,,3,,3,\n";

/// A schedule under a protocol, bounds, and the items of its table.
type Case = (Protocol, [&'static str; 3], &'static [u64], &'static [Item]);

const CASES: &[Case] = &[
    (
        Protocol::FmlpPlus,
        [PAIR, PAIR_JOBS, PAIR_LOWER_FIRST],
        &[5, 5],
        &[(0, 1, 0, 0, Class::Direct, 2)],
    ),
    (
        Protocol::FmlpPlus,
        [PAIR, PAIR_JOBS, PAIR_HIGHER_FIRST],
        &[10, 10],
        &[(1, 0, 0, 0, Class::Direct, 1)],
    ),
    (
        Protocol::FmlpPlus,
        [FIVE, FIVE_JOBS, FIVE_ROWS],
        &[10, 20, 20],
        &[
            (0, 1, 0, 0, Class::Preemption, 1),
            (2, 1, 0, 0, Class::Direct, 2),
        ],
    ),
    (
        Protocol::FmlpPlus,
        [BOOST, BOOST_JOBS, BOOST_ROWS],
        &[20, 20, 20, 20, 20],
        &[(1, 2, 0, 1, Class::Preemption, 1)],
    ),
    (
        Protocol::FmlpPlus,
        [BEHIND, BEHIND_JOBS, BEHIND_ROWS],
        &[20, 20, 20, 20],
        &[
            (0, 1, 0, 1, Class::Preemption, 2),
            (2, 0, 0, 0, Class::Direct, 1),
            (2, 1, 0, 1, Class::Indirect, 2),
        ],
    ),
    (
        Protocol::Mpcp,
        [BOOST, BOOST_LATER_JOBS, BOOST_BY_CEILING],
        &[20, 20, 20, 20, 20],
        &[
            (1, 0, 0, 0, Class::Direct, 1),
            (1, 2, 0, 1, Class::Preemption, 1),
        ],
    ),
    (
        Protocol::Dpcp,
        [HOME, HOME_JOBS, HOME_ROWS],
        &[6, 6],
        &[(0, 1, 0, 0, Class::Indirect, 1)],
    ),
    (
        Protocol::Dpcp,
        [PAIR, PAIR_LATER_JOBS, PAIR_AT_HOME],
        &[10, 10],
        &[(1, 0, 0, 0, Class::Preemption, 1)],
    ),
];

#[test]
fn blocked_ticks_are_charged(rt: HostRuntime) -> Result<(), Fail> {
    for (protocol, schedule, bounds, wanted) in CASES {
        let Ok(table) = charges_of(rt.alloc(), *protocol, *schedule, bounds)? else {
            return Err("no table".into());
        };
        let charges = items_of(rt.alloc(), wanted)?;
        assert_eq!(rt; table, ChargeTable { charges }, "at {}", schedule[2]);
    }
    Ok(())
}

/// A schedule under a protocol, bounds, and what stops it.
type Stop = (Protocol, [&'static str; 3], &'static [u64], ChargeStop);

const STOPS: &[Stop] = &[
    (
        Protocol::FmlpPlus,
        [PAIR, PAIR_JOBS, PAIR_LOWER_FIRST],
        &[4, 5],
        ChargeStop::BoundPassed(JobId(0)),
    ),
    (
        Protocol::FmlpPlus,
        [PAIR, PAIR_JOBS, PAIR_HIGHER_FIRST],
        &[3, 4],
        ChargeStop::BoundPassed(JobId(1)),
    ),
    (
        Protocol::Mpcp,
        [PAIR, PAIR_JOBS, PAIR_LOWER_FIRST],
        &[4, 5],
        ChargeStop::Unlawful(Breach {
            tick: 1,
            rule: Rule::Grant,
        }),
    ),
    (
        Protocol::Dpcp,
        [HOME, HOME_JOBS, HOME_AT_ONCE],
        &[2, 2],
        ChargeStop::Unlawful(Breach {
            tick: 2,
            rule: Rule::Grant,
        }),
    ),
];

// Unlawful comes also if a job has passed its bound by then.
#[test]
fn unlawful_rows_and_passed_bounds_stop_it(rt: HostRuntime) -> Result<(), Fail> {
    for (protocol, schedule, bounds, wanted) in STOPS {
        let Err(stop) = charges_of(rt.alloc(), *protocol, *schedule, bounds)? else {
            return Err("a table".into());
        };
        assert_eq!(rt; stop, *wanted, "at {}", schedule[2]);
    }
    Ok(())
}
