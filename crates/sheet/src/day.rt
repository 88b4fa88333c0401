// A day that was checked, for the calls that go on with it.
ghost use Rattle.sheet.specs.Table.{day_of};
ghost use Rattle.sheet.specs.WellFormed.{GoodDay};

use super::{Refusal, Table, check_table};

// A table with its harvest, past every refusal: whoever has one need not check again.
#[derive(Clone, Copy)]
pub struct CheckedDay<'a> {
    pub table: &'a Table,
    pub harvest: &'a [u8],
    pub ghost good: { GoodDay (day_of table.now harvest.now) },
}

impl<'a> CheckedDay<'a> {
    ghost use Rattle.sheet.specs.HandedIn.{on_table};
    ghost use Rattle.sheet.specs.Checked.{Checks};

    // The day of this table and this harvest; it refuses what `check` refuses.
    pub fn new(table: &'a Table, harvest: &'a [u8]) -> Result<CheckedDay<'a>, Refusal>
        ensures { Checks (on_table table.now harvest.now) result }
    {
        check_table(table, harvest)?;
        Ok(CheckedDay { table, harvest })
    }
}
