ghost use Rattle.std.specs.Prelude.{◌≡◌};

use crate::row_reader::RowReader;
use crate::{RowList, RowRun};
use std::alloc::AllocError;

/// A reader of a list of rows.
#[derive(Drop)]
pub struct ListedRows<'a> {
    rows: &'a RowList,
    at: usize,
}

impl<'a> ListedRows<'a> {
    /// A reader at the first run of the list.
    pub fn new(rows: &'a RowList) -> ListedRows<'a>
        ensures rows { result.rows.now ≡ rows.now }
        ensures at { result.at ≡ 0 }
    {
        ListedRows { rows, at: 0 }
    }
}

impl<'a> RowReader for ListedRows<'a> {
    ghost rows = { λ r. r.rows.now };

    ghost at = { λ r. r.at };

    fn is_at_run(&self) -> bool {
        self.at < self.rows.runs().len()
    }

    fn run(&self) -> &RowRun {
        &self.rows.runs()[self.at]
    }

    fn step(&mut self) -> Result<(), AllocError> {
        if self.at < self.rows.runs().len() {
            self.at += 1;
        }
        Ok(())
    }

    fn keeps_its_rules(&self) {
        self.rows.keeps_its_rules();
    }
}
