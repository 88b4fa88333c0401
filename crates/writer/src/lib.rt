// The sheet writer: a table and a harvest, as the bytes of a day sheet at the front of a lent buffer.
#![tactic(auto)]

ghost use Rattle.std.specs.Prelude.{◌≡◌, ◌+◌, ◌*◌, ◌≤◌, length};
ghost use Rattle.sheet.specs.Checked.{the_day};
ghost use Rattle.sheet.specs.HandedIn.{on_table};
ghost use Rattle.sheet.specs.Lists.{joined};
ghost use Rattle.sheet.specs.Table.{job_of};
ghost use Rattle.sheet.specs.Sheet.{u16, record_bytes, record_length, trailer_bytes, trailer_length, sheet_bytes};
ghost use Rattle.writer.specs.Laid.{Laid};
ghost use Rattle.writer.specs.Promise.{Writes, length_for};
ghost use Rattle.writer.specs.declared.WriteRefusal.TheVariants.{HandedIn};

use sheet::{CheckedDay, Job, Refusal, Table};
use std::error::Error;
use std::fmt;

// Why no sheet was written.
#[derive(Clone, Copy, Debug, PartialEq, Eq)]
pub enum WriteRefusal {
    // The table or the harvest is refused: 3, 4, 5 or 6.
    HandedIn(Refusal),
    // 8: the buffer is too short for the sheet.
    NoRoom,
}

impl From<Refusal> for WriteRefusal {
    ghost from_gives = { λ e r. r ≡ HandedIn e };

    fn from(refusal: Refusal) -> WriteRefusal {
        WriteRefusal::HandedIn(refusal)
    }
}

impl fmt::Display for WriteRefusal {
    // What is wrong, in words.
    fn fmt<W: fmt::Write>(&self, f: &mut fmt::Formatter<W>) -> fmt::Result {
        match self {
            WriteRefusal::HandedIn(refusal) => refusal.fmt(f),
            WriteRefusal::NoRoom => f.write_str("the buffer is too short for the sheet"),
        }
    }
}

impl Error for WriteRefusal {}

// The number in document 01 of the refusal `NoRoom`.
pub const NO_ROOM: u8 = 8;

// Puts a number as a u16, the lower byte first, at a place that has room for it.
fn put_u16(out: &mut [u8], at: usize, number: u16)
    requires { at + 2 ≤ length out.old }
    ensures { Laid out.old at (u16 number) out.new }
{
    let [low, high] = number.to_le_bytes();
    out[at] = low;
    out[at + 1] = high;
}

// Puts the record of a job, 8 bytes, at a place that has room for it. The energy and the zero behind
// it are one number below 256.
fn put_record(out: &mut [u8], at: usize, job: &Job)
    requires { at + record_length ≤ length out.old }
    ensures { Laid out.old at (record_bytes job.now) out.new }
{
    put_u16(out, at, job.release);
    put_u16(out, at + 2, job.deadline);
    put_u16(out, at + 4, job.wanted);
    put_u16(out, at + 6, u16::from(job.energy));
}

// Puts the records of a day's jobs, in order, at the front of a buffer that has room for them.
fn put_records(out: &mut [u8], day: CheckedDay)
    requires { record_length * day.table.now.count ≤ length out.old }
    ensures { Laid out.old 0 (joined (λ k. record_bytes (job_of day.entry.table.now k)) day.entry.table.now.count) out.new }
{
    for (k, job) in day.table.jobs[..day.table.count].iter().enumerate() {
        put_record(out, sheet::RECORD_LENGTH * k, job);
    }
}

// Puts the harvest, a byte for each slot, at a place that has room for it. One byte after the other:
// `copy_from_slice` calls `memmove`, which a host that links this library need not have.
fn put_harvest(out: &mut [u8], at: usize, harvest: &[u8])
    requires { at + length harvest.now ≤ length out.old }
    ensures { Laid out.old at harvest.now out.new }
{
    for (i, &byte) in harvest.iter().enumerate() {
        out[at + i] = byte;
    }
}

// Puts the trailer of a day, 12 bytes, at a place that has room for it: how far it is back to the
// harvest and to the first job, the jobs, the slots, the capacity, and the mark.
fn put_trailer(out: &mut [u8], at: usize, day: CheckedDay)
    requires { at + trailer_length ≤ length out.old }
    ensures { Laid out.old at (trailer_bytes day.entry.table.now) out.new }
{
    let t = day.table;
    let records = sheet::RECORD_LENGTH * t.count;
    let mark = u16::from_le_bytes([sheet::MARK_FIRST, sheet::MARK_SECOND]);
    put_u16(out, at, t.slots);
    put_u16(out, at + 2, t.slots + records as u16);
    put_u16(out, at + 4, t.count as u16);
    put_u16(out, at + 6, t.slots);
    put_u16(out, at + 8, t.capacity);
    put_u16(out, at + 10, mark);
}

// The length of a day's sheet: slots + 8 × jobs + 12.
fn sheet_length(day: CheckedDay) -> usize
    ensures { result ≡ length_for (the_day day.entry) }
{
    usize::from(day.table.slots) + sheet::RECORD_LENGTH * day.table.count + sheet::TRAILER_LENGTH
}

// Puts the whole sheet of a day at the front of a buffer that has room for it: the records, the
// harvest, the trailer.
fn put_sheet(out: &mut [u8], day: CheckedDay)
    requires { length_for (the_day day) ≤ length out.old }
    ensures { Laid out.old 0 (sheet_bytes day.entry.table.now day.entry.harvest.now) out.new }
{
    let harvest = sheet::RECORD_LENGTH * day.table.count;
    let trailer = harvest + day.harvest.len();
    put_records(out, day);
    put_harvest(out, harvest, day.harvest);
    put_trailer(out, trailer, day);
}

// Writes the sheet of a table and its harvest at the front of `out` and answers its length. The
// bytes behind the sheet stay as they were. It refuses 3, then 4 where the harvest is not of slots
// bytes, then by record 5 and 6, then 8 where the buffer is too short; after a refusal every byte of
// the buffer is what it was. It looks at no place of the table beyond its last job.
pub fn write(t: Table, harvest: &[u8], out: &mut [u8]) -> Result<usize, WriteRefusal>
    ensures { Writes (on_table t harvest.now) out.old result out.new }
{
    let day = CheckedDay::new(&t, harvest)?;
    let length = sheet_length(day);
    if out.len() < length {
        return Err(WriteRefusal::NoRoom);
    }
    put_sheet(out, day);
    Ok(length)
}
