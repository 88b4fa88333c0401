// The sheet reader: the table that stands in the bytes of a day sheet, or the refusal with its
// number, and the harvest as that stretch of the caller's own bytes.
#![tactic(auto)]

mod sheet_read;

ghost use Rattle.std.specs.Prelude.{◌≡◌, ◌+◌, ◌*◌, ◌-◌, ◌≤◌, ◌<◌, length, replicate, Ok};
ghost use Rattle.sheet.specs.Table.{most_jobs};
ghost use Rattle.sheet.specs.Sheet.{u16_at, job_in, jobs_in, slots_in, mark_fault, layout_fault, record_length, trailer_length};
ghost use Rattle.reader.specs.Steps.{ReadsTrailer, Fills, ReadsInto};
ghost use Rattle.reader.specs.Promise.{no_table, harvest_read, Reads, harvest_behind};

use sheet::{Job, Refusal, Table};
pub use sheet_read::SheetRead;

// What reading a sheet yields. Of a refused sheet the table has no jobs, slots 0 and capacity 0.
#[derive(Clone, Copy)]
pub struct Reading {
    pub outcome: Result<(), Refusal>,
    pub table: Table,
}

// The number in the two bytes from `at` on, the lower first.
fn u16_at(bytes: &[u8], at: usize) -> u16
    requires { at + 1 < length bytes.now }
    ensures { result ≡ u16_at bytes.now at }
{
    u16::from_le_bytes([bytes[at], bytes[at + 1]])
}

// The job in record k.
fn job_in(bytes: &[u8], k: usize) -> Job
    requires { record_length * k + record_length ≤ length bytes.now }
    ensures { result ≡ job_in bytes.now k }
{
    let at = sheet::RECORD_LENGTH * k;
    Job {
        release: u16_at(bytes, at),
        deadline: u16_at(bytes, at + 2),
        wanted: u16_at(bytes, at + 4),
        energy: bytes[at + 6],
    }
}

// 2 applies: the last two bytes are not the mark.
fn mark_fault(bytes: &[u8]) -> bool
    requires { 2 ≤ length bytes.now }
    ensures { result ≡ mark_fault bytes.now }
{
    let length = bytes.len();
    if bytes[length - 2] != sheet::MARK_FIRST {
        return true;
    }
    bytes[length - 1] != sheet::MARK_SECOND
}

// 4 applies: the back distances are not slots and slots + 8 × jobs, or the length does not fit them.
fn layout_fault(bytes: &[u8], count: usize, slots: u16) -> bool
    requires trailer_length_in_bounds { trailer_length ≤ length bytes.now }
    requires count_value { (count ≡ jobs_in bytes.now) × (slots ≡ slots_in bytes.now) × (count ≤ most_jobs) }
    ensures { result ≡ layout_fault bytes.now }
{
    let length = bytes.len();
    let trailer = length - sheet::TRAILER_LENGTH;
    let back = slots as usize + sheet::RECORD_LENGTH * count;
    if u16_at(bytes, trailer) != slots {
        return true;
    }
    if u16_at(bytes, trailer + 2) as usize != back {
        return true;
    }
    length != back + sheet::TRAILER_LENGTH
}

// The numbers that the trailer gives.
#[derive(Clone, Copy)]
struct Trailer {
    count: usize,
    slots: u16,
    capacity: u16,
}

// The trailer of a sheet, from any bytes at all, or the refusal, 1 to 4.
fn read_trailer(bytes: &[u8]) -> Result<Trailer, Refusal>
    ensures { ReadsTrailer bytes.now result }
{
    let length = bytes.len();
    if length < sheet::TRAILER_LENGTH {
        return Err(Refusal::Short);
    }
    if mark_fault(bytes) {
        return Err(Refusal::Mark);
    }
    let trailer = length - sheet::TRAILER_LENGTH;
    let count = u16_at(bytes, trailer + 4) as usize;
    let slots = u16_at(bytes, trailer + 6);
    if sheet::counts_fault(count, slots) {
        return Err(Refusal::Counts);
    }
    if layout_fault(bytes, count, slots) {
        return Err(Refusal::Layout);
    }
    Ok(Trailer {
        count,
        slots,
        capacity: u16_at(bytes, trailer + 8),
    })
}

// As many places as a table has, with this job in each. Handed over, a job is stored whole; written
// out here it would be stored field by field, 64 times.
fn places(job: Job) -> [Job; sheet::MOST_JOBS]
    ensures { result ≡ replicate most_jobs job }
{
    [job; sheet::MOST_JOBS]
}

// The table of a refused sheet.
fn no_table() -> Table
    ensures { result ≡ no_table }
{
    let none = Job::default();
    Table {
        jobs: places(none),
        count: 0,
        slots: 0,
        capacity: 0,
    }
}

// Fills a table that is empty yet with what a sheet with this trailer holds, up to the record that is
// refused, if one is.
fn fill(bytes: &[u8], trailer: Trailer, table: &mut Table) -> Result<(), Refusal>
    requires trailer_read { ReadsTrailer bytes.now (Ok trailer) }
    requires empty_yet { table.old ≡ no_table }
    ensures { Fills bytes.now result table.new }
{
    for k in 0..trailer.count {
        let job = job_in(bytes, k);
        sheet::check_record(trailer.slots, job, bytes[sheet::RECORD_LENGTH * k + 7], k)?;
        table.jobs[k] = job;
    }
    table.count = trailer.count;
    table.slots = trailer.slots;
    table.capacity = trailer.capacity;
    Ok(())
}

// Reads the records of a sheet with this trailer into a table that is empty yet, and leaves it empty
// where one is refused.
fn read_records(bytes: &[u8], trailer: Trailer, table: &mut Table) -> Result<(), Refusal>
    requires trailer_read { ReadsTrailer bytes.now (Ok trailer) }
    requires empty_yet { table.old ≡ no_table }
    ensures { ReadsInto bytes.now result table.new }
{
    let outcome = fill(bytes, trailer, table);
    if outcome.is_err() {
        *table = no_table();
    }
    outcome
}

// Reads a sheet into a table that is empty yet, and leaves it empty where the sheet is refused.
fn read_into(bytes: &[u8], table: &mut Table) -> Result<(), Refusal>
    requires { table.old ≡ no_table }
    ensures { ReadsInto bytes.now result table.new }
{
    let trailer = read_trailer(bytes)?;
    read_records(bytes, trailer, table)
}

// Reads a sheet, from any bytes at all: the table, or the refusal, 1 to 6. It keeps nothing of the
// harvest: `harvest` hands that back as a stretch of the sheet itself.
pub fn read(bytes: &[u8]) -> Reading
    ensures { Reads bytes.now result }
{
    let mut table = no_table();
    let outcome = read_into(bytes, &mut table);
    Reading { outcome, table }
}

// The stretch of `slots` bytes behind `count` records, which is the harvest where a sheet's own
// table has these counts; an empty stretch where the count is above 64 or the bytes do not hold so
// many. No byte is copied.
pub fn stretch(bytes: &[u8], count: usize, slots: u16) -> &[u8]
    ensures { result.now ≡ harvest_behind bytes.now count slots }
{
    if sheet::MOST_JOBS < count {
        return &bytes[..0];
    }
    let from = sheet::RECORD_LENGTH * count;
    let to = from + slots as usize;
    if bytes.len() < to {
        return &bytes[..0];
    }
    &bytes[from..to]
}

// The harvest of a sheet, as that stretch of the caller's own bytes; an empty stretch where the
// sheet is refused. Whoever has read the sheet already asks `stretch` instead, or keeps a `SheetRead`.
pub fn harvest(bytes: &[u8]) -> &[u8]
    ensures { result.now ≡ harvest_read bytes.now }
{
    SheetRead::new(bytes).harvest
}
