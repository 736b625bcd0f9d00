use crate::judged::judgement_of;
use crate::texts::{jobs_in, rows_in, set_in};
use crate::told::told;
use sporadic_model::Protocol;
use std::alloc::Global;
use std::process::Abort;
use std::test::Fail;
use worked_sets::files::*;

/// What is said of a schedule, given as the texts of its set, jobs and rows.
fn told_of(alloc: Global, schedule: [&str; 3]) -> Result<String, Fail> {
    let [set, jobs, rows] = schedule;
    let set = set_in(alloc, set)?;
    let jobs = jobs_in(alloc, &set, jobs)?;
    let rows = rows_in(alloc, &jobs, rows)?;
    told(alloc, &jobs, &rows)
}

/// How the schedule is judged.
fn judged_of(alloc: Global, protocol: Protocol, schedule: [&str; 3]) -> Result<String, Fail> {
    let [set, jobs, rows] = schedule;
    let set = set_in(alloc, set)?;
    let jobs = jobs_in(alloc, &set, jobs)?;
    let rows = rows_in(alloc, &jobs, rows)?;
    judgement_of(alloc, protocol, &jobs, &rows)
}

/// A schedule, and the lines that are said of it.
type Told = ([&'static str; 3], &'static str);

const TOLD: &[Told] = &[
    (
        [PAIR, PAIR_JOBS, PAIR_LOWER_FIRST],
        "local/ar local/ar | 1 2 | -
q#0/aw@1 q#0/aw@1 | 1 2 | -
q#0/aw@1 q#0/ar@1 | 1 2 | 2
q#0/aw@1 local/ar | 1 2 | 2
local/ar ended/ | 1 - | 1
ended/ ended/ | - - | -
",
    ),
    (
        [PAIR, PAIR_JOBS, PAIR_HIGHER_FIRST],
        "local/ar local/ar | 1 2 | -
q#0/aw@1 q#0/aw@1 | 1 2 | -
local/ar q#0/aw@1 | 1 2 | 1
ended/ q#0/ar@1 | - 2 | 2
ended/ local/ar | - 2 | 2
ended/ ended/ | - - | -
",
    ),
    (
        [FIVE, FIVE_LOCAL_JOBS, FIVE_LOWER_RUNS],
        "local/ar local/ar | 1 2 - | -
local/ar q#0/aw@1 | 1 2 - | -
",
    ),
    (
        [FIVE, FIVE_JOBS, FIVE_ROWS],
        "local/ local/ar local/ar | - 2 3 | -
local/ q#0/aw@1 q#0/aw@1 | - 2 3 | -
local/ar q#0/ar@1 q#0/aw@1 | 1 2 3 | 2
local/ar local/ar q#0/aw@1 | 1 2 3 | 2
local/ar local/ar q#0/ar@1 | 1 2 3 | 3
ended/ local/ar q#0/ar@1 | - 2 3 | 3
ended/ ended/ local/ar | - - 3 | 3
ended/ ended/ ended/ | - - - | -
",
    ),
    (
        [TURNS, TURNS_JOBS, TURNS_ROWS],
        "local/ar local/ar local/ | 1 2 | -
q#0/aw@1 local/ar local/ | 1 2 | -
ended/ local/ar local/ | - 2 | 1
ended/ local/ar local/ | - 2 | -
ended/ ended/ local/ar | - 3 | -
ended/ ended/ ended/ | - - | -
",
    ),
    (
        [ENDS, ENDS_JOBS, ENDS_ROWS],
        "local/ar local/ local/ar | 1 3 | -
q#0/aw@1 local/ local/ar | 1 3 | -
q#0/ar@1 local/ q#0/aw@2 | 1 3 | 1
ended/ local/ar q#0/aw@2 | 2 3 | 1
ended/ q#0/aw@4 ended/ | 2 - | 3
ended/ q#0/ar@4 ended/ | 2 - | 2
ended/ ended/ ended/ | - - | 2
",
    ),
    (
        [BOOST, BOOST_JOBS, BOOST_ROWS],
        "local/ar local/ local/ar | - 1 - 3 - | - -
b#0/aw@1 local/ar b#0/aw@1 | - 1 2 3 - | - -
ended/ a#0/aw@2 b#0/aw@1 | - - 2 3 - | - 1
ended/ a#0/ar@2 ended/ | - - 2 - - | 2 3
ended/ ended/ ended/ | - - - - - | 2 -
",
    ),
    (
        [BOOST, BOOST_LATER_JOBS, BOOST_BY_ISSUE],
        "local/ar local/ar local/ | - - 2 - 1 | - -
a#0/aw@1 local/ar local/ | - - 2 - 1 | - -
a#0/ar@1 a#0/aw@2 local/ar | - - 2 3 1 | 1 -
ended/ a#0/aw@2 b#0/aw@3 | - - 2 3 - | 1 -
ended/ ended/ b#0/ar@3 | - - - 3 - | 2 3
ended/ ended/ ended/ | - - - - - | - 3
",
    ),
    (
        [HOME, HOME_JOBS, HOME_ROWS],
        "local/ local/ar | - 2 | - -
local/ar a#0/aw@1 | 1 2 | - -
b#0/aw@2 a#0/ar@1 | 1 2 | 2 -
b#0/aw@2 local/ar | 1 2 | 2 -
local/ar ended/ | 1 - | - 1
ended/ ended/ | - - | - -
",
    ),
    (
        [APART, APART_JOBS, APART_ROWS],
        "local/ local/ar | - 2 | - -
local/ar b#0/aw@1 | 1 2 | - -
a#0/aw@2 b#0/ar@1 | 1 2 | - 2
local/ar b#0/ar@1 | 1 2 | 1 2
ended/ b#0/ar@1 | - 2 | - 2
ended/ local/ar | - 2 | - 2
ended/ ended/ | - - | - -
",
    ),
];

// These lines are said of the schedule.
fn is_told(rt: &impl Abort, alloc: Global, case: &Told) -> Result<(), Fail> {
    let (schedule, wanted) = *case;
    let text = told_of(alloc, schedule)?;
    assert_eq!(rt; text.as_str(), wanted);
    Ok(())
}

#[test]
fn the_machine_tells_what_stands_at_each_tick(rt: HostRuntime) -> Result<(), Fail> {
    for case in TOLD {
        is_told(&rt, rt.alloc(), case)?;
    }
    Ok(())
}

/// A schedule, and how it is judged.
type Judged = ([&'static str; 3], &'static str);

const BY_FMLP_PLUS: &[Judged] = &[
    ([PAIR, PAIR_JOBS, PAIR_LOWER_FIRST], "- 1 1 - - lawful"),
    ([PAIR, PAIR_JOBS, PAIR_HIGHER_FIRST], "- 2 - - - chosen"),
    ([PAIR, PAIR_JOBS, PAIR_TAKEN_AWAY], "- 1 keep"),
    ([PAIR, PAIR_JOBS, PAIR_HELD_TOO_LONG], "- 1 1 grant"),
    ([PAIR, PAIR_JOBS, PAIR_UNSERVED], "- grant"),
    ([PAIR, PAIR_JOBS, PAIR_CROSSED], "run"),
    ([PAIR, PAIR_JOBS, PAIR_TWICE], "run"),
    ([PAIR, PAIR_JOBS, PAIR_IDLE], "idle"),
    ([FIVE, FIVE_LOCAL_JOBS, FIVE_LOWER_RUNS], "priority"),
    ([FIVE, FIVE_JOBS, FIVE_ROWS], "- 3 1+3 - - - - chosen"),
    ([FIVE, FIVE_JOBS, FIVE_IDLE_ROWS], "- 2 idle"),
    ([TURNS, TURNS_JOBS, TURNS_ROWS], "- - - - - chosen"),
    ([TURNS, TURNS_JOBS, TURNS_TOO_EARLY], "- - run"),
    ([ENDS, ENDS_JOBS, ENDS_ROWS], "- - 3 - - - chosen"),
    ([ENDS, ENDS_JOBS, ENDS_HELD_TOO_LONG], "- - 3 grant"),
    ([ENDS, ENDS_JOBS, ENDS_HELD_TOO_EARLY], "- - 3 grant"),
    ([BOOST, BOOST_JOBS, BOOST_ROWS], "- - 2 - chosen"),
    ([BOOST, BOOST_JOBS, BOOST_BY_TASK], "- - priority"),
    (
        [BOOST, BOOST_LATER_JOBS, BOOST_BY_ISSUE],
        "- - 2 - - chosen",
    ),
    (
        [BOOST, BOOST_LATER_JOBS, BOOST_BY_CEILING],
        "- - 2 priority",
    ),
];

const BY_MPCP: &[Judged] = &[
    ([PAIR, PAIR_JOBS, PAIR_LOWER_FIRST], "- grant"),
    ([PAIR, PAIR_JOBS, PAIR_HIGHER_FIRST], "- 2 - - - chosen"),
    ([PAIR, PAIR_JOBS, PAIR_UNSERVED], "- grant"),
    ([PAIR, PAIR_JOBS, PAIR_CROSSED], "run"),
    ([PAIR, PAIR_JOBS, PAIR_IDLE], "idle"),
    ([FIVE, FIVE_LOCAL_JOBS, FIVE_LOWER_RUNS], "priority"),
    ([FIVE, FIVE_JOBS, FIVE_ROWS], "- 3 1+3 - - - - chosen"),
    ([FIVE, FIVE_JOBS, FIVE_TAKEN_AWAY], "- 3 keep"),
    ([TURNS, TURNS_JOBS, TURNS_ROWS], "- - - - - chosen"),
    ([ENDS, ENDS_JOBS, ENDS_ROWS], "- - 3 - - - chosen"),
    ([BOOST, BOOST_JOBS, BOOST_ROWS], "- - 2 - chosen"),
    ([BOOST, BOOST_JOBS, BOOST_BY_TASK], "- - priority"),
    (
        [BOOST, BOOST_LATER_JOBS, BOOST_BY_CEILING],
        "- - 2 2 - chosen",
    ),
    ([BOOST, BOOST_LATER_JOBS, BOOST_BY_ISSUE], "- - 2 priority"),
    ([HOME, HOME_JOBS, HOME_ROWS], "- run"),
];

const BY_DPCP: &[Judged] = &[
    ([PAIR, PAIR_JOBS, PAIR_LOWER_FIRST], "- grant"),
    ([PAIR, PAIR_JOBS, PAIR_HIGHER_FIRST], "- run"),
    ([HOME, HOME_JOBS, HOME_ROWS], "- - 1 - - chosen"),
    ([HOME, HOME_JOBS, HOME_AT_ONCE], "- - grant"),
    ([HOME, HOME_JOBS, HOME_TAKEN_AWAY], "- - keep"),
    ([HOME, HOME_JOBS, HOME_LOCAL_AWAY], "run"),
    ([HOME, HOME_JOBS, HOME_IDLE], "idle"),
    ([APART, APART_JOBS, APART_ROWS], "- - 2 - - - chosen"),
    ([APART, APART_JOBS, APART_LOWER_RUNS], "- - priority"),
    (
        [APART, APART_TOGETHER_JOBS, APART_ONE_GRANT],
        "- 2 - - chosen",
    ),
    ([APART, APART_TOGETHER_JOBS, APART_TWO_GRANTS], "- grant"),
];

// The protocol judges the schedule so.
fn is_judged(
    rt: &impl Abort,
    alloc: Global,
    protocol: Protocol,
    case: &Judged,
) -> Result<(), Fail> {
    let (schedule, wanted) = *case;
    let text = judged_of(alloc, protocol, schedule)?;
    assert_eq!(rt; text.as_str(), wanted, "at {}", schedule[2]);
    Ok(())
}

fn are_judged(
    rt: &impl Abort,
    alloc: Global,
    protocol: Protocol,
    cases: &[Judged],
) -> Result<(), Fail> {
    for case in cases {
        is_judged(rt, alloc, protocol, case)?;
    }
    Ok(())
}

#[test]
fn fmlp_plus_judges_chooses_and_tells_blocked_jobs(rt: HostRuntime) -> Result<(), Fail> {
    are_judged(&rt, rt.alloc(), Protocol::FmlpPlus, BY_FMLP_PLUS)
}

#[test]
fn mpcp_judges_chooses_and_tells_blocked_jobs(rt: HostRuntime) -> Result<(), Fail> {
    are_judged(&rt, rt.alloc(), Protocol::Mpcp, BY_MPCP)
}

#[test]
fn dpcp_judges_chooses_and_tells_blocked_jobs(rt: HostRuntime) -> Result<(), Fail> {
    are_judged(&rt, rt.alloc(), Protocol::Dpcp, BY_DPCP)
}
