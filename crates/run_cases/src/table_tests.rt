use program_form::Certificate;
use report::{full_table, set_table};
use sporadic_model::TaskId;
use std::test::Fail;
use worked_sets::{PAIR, set_of};

const TABLE: &str = "\
task                            cpu     period   deadline       cost      local
t0                                1         10         10          3          3
t1                                2         10         10          4          4
load 1 300000
load 2 400000
";

const FULL_TABLE: &str = "\
task                            cpu     period   deadline       cost      local      bound   blocking      slack
t0                                1         10         10          3          3          5          2          5
t1                                2         10         10          4          4          5          1          5
load 1 300000
load 2 400000
";

#[test]
fn tables_have_their_columns_and_loads(rt: HostRuntime) -> Result<(), Fail> {
    let alloc = rt.alloc();
    let set = set_of(alloc, PAIR)?;
    assert_eq!(rt; set_table(alloc, &set)?.as_slice(), TABLE.as_bytes());
    let certificate = Certificate {
        bounds: vec![in alloc; 5, 5]?,
        duals: Vec::new(alloc),
    };
    if set.tasks() != 2 || set.latest_bound(TaskId(0)) < 5 || set.latest_bound(TaskId(1)) < 5 {
        return Err("both deadlines are 10".into());
    }
    let text = full_table(alloc, &set, &certificate, &[2, 1])?;
    assert_eq!(rt; text.as_slice(), FULL_TABLE.as_bytes());
    Ok(())
}
