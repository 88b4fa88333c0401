// A sheet that was read, for the calls that go on with its day.
ghost use Rattle.std.specs.Prelude.{◌≡◌, Ok};
ghost use Rattle.sheet.specs.Table.{day_of};
ghost use Rattle.sheet.specs.WellFormed.{GoodDay};

use super::{no_table, read_records, read_trailer, stretch};
use sheet::{CheckedDay, Refusal, Table};

// What `read` yields, and the harvest, which is that stretch of the sheet itself: an empty one where the
// sheet is refused. Where it is not, the table with this harvest is a good day.
#[derive(Clone, Copy)]
pub struct SheetRead<'a> {
    pub outcome: Result<(), Refusal>,
    pub table: Table,
    pub harvest: &'a [u8],
    pub ghost good: { outcome ≡ Ok tt → GoodDay (day_of table harvest.now) },
}

impl<'a> SheetRead<'a> {
    ghost use Rattle.sheet.specs.Checked.{the_day};
    ghost use Rattle.reader.specs.Promise.{ReadsSheet, HandsOn};

    // Reads a sheet, from any bytes at all. No byte of the harvest is copied.
    pub fn new(bytes: &'a [u8]) -> SheetRead<'a>
        ensures { ReadsSheet bytes.now result }
    {
        let trailer = match read_trailer(bytes) {
            Ok(trailer) => trailer,
            Err(why) => {
                return SheetRead {
                    outcome: Err(why),
                    table: no_table(),
                    harvest: &bytes[..0],
                };
            }
        };
        let mut table = no_table();
        let outcome = read_records(bytes, trailer, &mut table);
        let harvest = stretch(bytes, table.count, table.slots);
        SheetRead {
            outcome,
            table,
            harvest,
        }
    }

    // The day that was read, or the refusal.
    pub fn day(&self) -> Result<CheckedDay<'_>, Refusal>
        ensures { HandsOn self.now result }
    {
        self.outcome?;
        Ok(CheckedDay {
            table: &self.table,
            harvest: self.harvest,
        })
    }
}
