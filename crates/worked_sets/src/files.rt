//! Worked task sets, jobs and schedules, as the texts of their files, for the crates of tests. Jobs are numbered from 1, as in the files,
//! and `t1` is the highest task of each set. The product calls nothing of it.

ghost use Rattle.std.specs.Prelude.{IfOk, Ok};
ghost use Rattle.taskset_json.specs.Answers.{Reads};

use sporadic_model::TaskSet;
use std::alloc::Global;
use std::test::Fail;

/// The set of a text. If the text is refused, or has 2^31 bytes or more, the test fails.
pub fn set_from(alloc: Global, text: &str) -> Result<TaskSet, Fail>
    ensures { IfOk result (λ set. Reads (Ok set) text.now) }
{
    if text.len() >= 2_147_483_648 {
        return Err("the text is too long".into());
    }
    Ok(taskset_json::read(alloc, text.as_bytes())?)
}

/// Two tasks on two processors that share `q`, whose home is the second processor. Certificates of it have the digest of exactly these
/// bytes.
pub const PAIR: &str =
    r#"{"processors":2,"resources":[{"name":"q","home":2}],"tasks":[{"name":"t1","processor":1,"period":10,"cost":3,"requests":[{"resource":"q","count":1,"length":1}]},{"name":"t2","processor":2,"period":10,"cost":4,"requests":[{"resource":"q","count":1,"length":2}]}]}
"#;

/// Both tasks request `q` at tick 1.
pub const PAIR_JOBS: &str = "task,release,script\nt1,0,1 q:1 1\nt2,0,1 q:2 1\n";

/// The lower task's request is served first.
pub const PAIR_LOWER_FIRST: &str = "ticks,P1,P2,q\n1,1,2,\n2,,2,2\n1,1,2,1\n1,1,,\n";

/// The higher task's request is served first.
pub const PAIR_HIGHER_FIRST: &str = "ticks,P1,P2,q\n1,1,2,\n1,1,,1\n1,1,2,2\n1,,2,2\n1,,2,\n";

/// `t2` loses the resource within its request.
pub const PAIR_TAKEN_AWAY: &str = "ticks,P1,P2,q\n1,1,2,\n1,,2,2\n1,1,,1\n";

/// At tick 3 the request of `t2` has ended.
pub const PAIR_HELD_TOO_LONG: &str = "ticks,P1,P2,q\n1,1,2,\n3,,2,2\n";

/// Nobody is served.
pub const PAIR_UNSERVED: &str = "ticks,P1,P2,q\n1,1,2,\n1,,,\n";

/// Each job runs on the other's processor.
pub const PAIR_CROSSED: &str = "ticks,P1,P2,q\n1,2,1,\n";

/// A job runs on two processors.
pub const PAIR_TWICE: &str = "ticks,P1,P2,q\n1,1,1,\n";

/// A processor runs nothing although a job could run.
pub const PAIR_IDLE: &str = "ticks,P1,P2,q\n1,,2,\n";

/// Two tasks on one processor, and a third on another; the lower two share `q`.
pub const FIVE: &str = r#"{"processors":2,"resources":[{"name":"q"}],"tasks":[
{"name":"t1","processor":1,"period":10,"cost":2},
{"name":"t2","processor":1,"period":20,"cost":4,"requests":[{"resource":"q","count":1,"length":2}]},
{"name":"t3","processor":2,"period":20,"cost":5,"requests":[{"resource":"q","count":1,"length":3}]}]}
"#;

/// Jobs of the two tasks of one processor.
pub const FIVE_LOCAL_JOBS: &str = "task,release,script\nt1,0,2\nt2,0,1 q:2 1\n";

/// The lower task runs.
pub const FIVE_LOWER_RUNS: &str = "ticks,P1,P2,q\n1,2,,\n";

/// `t1` is released at tick 2, and both others request `q` at tick 1.
pub const FIVE_JOBS: &str = "task,release,script\nt1,2,2\nt2,0,1 q:2 1\nt3,0,1 q:3 1\n";

/// `t2` is served first, and runs its request before the Local ticks of `t1`.
pub const FIVE_ROWS: &str = "ticks,P1,P2,q\n1,2,3,\n2,2,,2\n2,1,3,3\n1,2,3,3\n1,,3,\n";

/// `t3` is served first, and at tick 2 the first processor runs nothing although `t1` could run.
pub const FIVE_IDLE_ROWS: &str = "ticks,P1,P2,q\n1,2,3,\n3,,3,3\n";

/// `t2` is served first, and loses `q` within its request.
pub const FIVE_TAKEN_AWAY: &str = "ticks,P1,P2,q\n1,2,3,\n1,2,,2\n1,1,3,3\n";

/// Two tasks on one processor. The lower one has the shorter period.
pub const TURNS: &str = r#"{"processors":1,"resources":[{"name":"q"}],"tasks":[
{"name":"t1","processor":1,"period":10,"cost":3,"requests":[{"resource":"q","count":1,"length":1}]},
{"name":"t2","processor":1,"period":2,"cost":2}]}
"#;

/// The script of `t1` ends with its request. The second job of `t2` is released while the first runs.
pub const TURNS_JOBS: &str = "task,release,script\nt1,0,1 q:1\nt2,0,2\nt2,2,1\n";

pub const TURNS_ROWS: &str = "ticks,P1,q\n1,1,\n1,1,1\n2,2,\n1,3,\n";

/// The second job of `t2` runs before the first is finished.
pub const TURNS_TOO_EARLY: &str = "ticks,P1,q\n1,1,\n1,1,1\n1,3,\n";

/// Two tasks on two processors that share `q`.
pub const ENDS: &str = r#"{"processors":2,"resources":[{"name":"q"}],"tasks":[
{"name":"t1","processor":1,"period":3,"cost":3,"requests":[{"resource":"q","count":1,"length":2}]},
{"name":"t2","processor":2,"period":20,"cost":3,"requests":[{"resource":"q","count":1,"length":1}]}]}
"#;

/// Each script ends with its request.
pub const ENDS_JOBS: &str = "task,release,script\nt1,0,1 q:2\nt1,3,1 q:2\nt2,0,2 q:1\n";

/// At tick 3 nothing is kept: the first job of `t1` is over, and the second is Local.
pub const ENDS_ROWS: &str = "ticks,P1,P2,q\n1,1,3,\n1,1,3,1\n1,1,,1\n1,2,3,3\n2,2,,2\n";

/// At tick 3 a job that is over holds `q`.
pub const ENDS_HELD_TOO_LONG: &str = "ticks,P1,P2,q\n1,1,3,\n1,1,3,1\n1,1,,1\n1,2,,1\n";

/// At tick 3 a job that is Local holds `q`.
pub const ENDS_HELD_TOO_EARLY: &str = "ticks,P1,P2,q\n1,1,3,\n1,1,3,1\n1,1,,1\n1,2,,2\n";

/// The highest user of `a` is on the first processor, and `t5` is its highest user elsewhere; the highest user of `b` is `t2`,
/// on the second.
pub const BOOST: &str = r#"{"processors":2,"resources":[{"name":"a"},{"name":"b"}],"tasks":[
{"name":"t1","processor":1,"period":20,"cost":2,"requests":[{"resource":"a","count":1,"length":1}]},
{"name":"t2","processor":2,"period":20,"cost":2,"requests":[{"resource":"b","count":1,"length":1}]},
{"name":"t3","processor":1,"period":20,"cost":4,"requests":[{"resource":"a","count":1,"length":1}]},
{"name":"t4","processor":1,"period":20,"cost":4,"requests":[{"resource":"b","count":1,"length":1}]},
{"name":"t5","processor":2,"period":20,"cost":3,"requests":[{"resource":"a","count":1,"length":2}]}]}
"#;

/// At tick 2 `t3` and `t4` both hold something on the first processor, and `t4` requested first.
pub const BOOST_JOBS: &str = "task,release,script\nt2,0,1 b:1\nt3,1,1 a:1\nt4,0,1 b:1\n";

pub const BOOST_ROWS: &str = "ticks,P1,P2,a,b\n1,3,1,,\n1,2,1,,1\n1,3,,2,3\n1,2,,2,\n";

/// At tick 2 the higher task runs, whose resource has the higher ceiling of all users.
pub const BOOST_BY_TASK: &str = "ticks,P1,P2,a,b\n1,3,1,,\n1,2,1,,1\n1,2,,2,3\n";

/// At tick 3 `t3` and `t4` both hold something on the first processor, and `t3` requested first.
pub const BOOST_LATER_JOBS: &str = "task,release,script\nt5,0,1 a:2\nt3,0,2 a:1\nt4,2,1 b:1\n";

/// At tick 3 the job runs that requested first.
pub const BOOST_BY_ISSUE: &str =
    "ticks,P1,P2,a,b\n1,2,1,,\n1,2,1,1,\n1,3,1,1,\n1,2,,2,3\n1,3,,,3\n";

/// At tick 3 the job runs whose resource has the higher ceiling of the users on other processors.
pub const BOOST_BY_CEILING: &str =
    "ticks,P1,P2,a,b\n1,2,1,,\n1,2,1,1,\n1,3,1,1,\n1,3,,2,3\n1,2,,2,\n";

/// The home of both resources is the third processor, which has no tasks. `t1` uses both.
pub const HOME: &str =
    r#"{"processors":3,"resources":[{"name":"a","home":3},{"name":"b","home":3}],"tasks":[
{"name":"t1","processor":1,"period":20,"cost":4,"requests":[
{"resource":"a","count":1,"length":1},{"resource":"b","count":1,"length":1}]},
{"name":"t2","processor":2,"period":20,"cost":4,"requests":[{"resource":"a","count":1,"length":2}]}]}
"#;

pub const HOME_JOBS: &str = "task,release,script\nt1,1,1 b:1 1\nt2,0,1 a:2 1\n";

/// At tick 2 `t1` waits for `b`: it equals the ceiling of `a`, which is kept.
pub const HOME_ROWS: &str =
    "ticks,P1,P2,P3,a,b\n1,,2,,,\n1,1,,2,2,\n1,,,2,2,\n1,,2,1,,1\n1,1,,,,\n";

/// At tick 2 `t1` is granted `b`.
pub const HOME_AT_ONCE: &str = "ticks,P1,P2,P3,a,b\n1,,2,,,\n1,1,,2,2,\n1,,,1,2,1\n";

/// At tick 2 `t2` loses `a` within its request.
pub const HOME_TAKEN_AWAY: &str = "ticks,P1,P2,P3,a,b\n1,,2,,,\n1,1,,2,2,\n1,,,1,,1\n";

/// A Local tick on the processor of the resources.
pub const HOME_LOCAL_AWAY: &str = "ticks,P1,P2,P3,a,b\n1,,,2,,\n";

pub const HOME_IDLE: &str = "ticks,P1,P2,P3,a,b\n1,,,,,\n";

/// Each task uses a resource of its own at the third processor.
pub const APART: &str =
    r#"{"processors":3,"resources":[{"name":"a","home":3},{"name":"b","home":3}],"tasks":[
{"name":"t1","processor":1,"period":20,"cost":3,"requests":[{"resource":"a","count":1,"length":1}]},
{"name":"t2","processor":2,"period":20,"cost":5,"requests":[{"resource":"b","count":1,"length":3}]}]}
"#;

pub const APART_JOBS: &str = "task,release,script\nt1,1,1 a:1 1\nt2,0,1 b:3 1\n";

/// At tick 2 `t1` is higher than the ceiling of `b`. It holds a resource while `t2` holds one, and runs before it.
pub const APART_ROWS: &str =
    "ticks,P1,P2,P3,a,b\n1,,2,,,\n1,1,,2,,2\n1,,,1,1,2\n1,1,,2,,2\n1,,,2,,2\n1,,2,,,\n";

/// There `t2` runs on.
pub const APART_LOWER_RUNS: &str = "ticks,P1,P2,P3,a,b\n1,,2,,,\n1,1,,2,,2\n1,,,2,1,2\n";

/// Both requests are issued at tick 1.
pub const APART_TOGETHER_JOBS: &str = "task,release,script\nt1,0,1 a:1 1\nt2,0,1 b:1 1\n";

/// The lower request is granted as the higher ends.
pub const APART_ONE_GRANT: &str = "ticks,P1,P2,P3,a,b\n1,1,2,,,\n1,,,1,1,\n1,1,,2,,2\n1,,2,,,\n";

pub const APART_TWO_GRANTS: &str = "ticks,P1,P2,P3,a,b\n1,1,2,,,\n1,,,1,1,2\n";

/// One task, whose period and cost are 10^9 ticks.
pub const WHOLE: &str = r#"{"processors":1,"resources":[],"tasks":[
{"name":"t1","processor":1,"period":1000000000,"cost":1000000000}]}
"#;
