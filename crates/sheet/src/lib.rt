// The day sheet's table: its jobs, its slots and its capacity, and the check that every call makes
// of a table and a harvest that are handed to it in place of a sheet.
#![tactic(auto)]

mod day;

ghost use Rattle.std.specs.Prelude.{◌≡◌, min, ◌*◌, ◌≤◌};
ghost use Rattle.sheet.specs.Paper.{in_order};
ghost use Rattle.sheet.specs.Refusals.{refusal_number, refusal_place, outcome_says, record_says};
ghost use Rattle.sheet.specs.Sums.{most_cost};
ghost use Rattle.sheet.specs.Table.{most_jobs, job_of, counted_as, most_counted, day_of, counts_fault, window_fault, work_fault, table_says};

pub use day::CheckedDay;
use std::error::Error;
use std::fmt;

// The limits of document 01.
pub const MOST_JOBS: usize = 64;

pub const MOST_SLOTS: u16 = 1440;

// The lengths of a sheet's job record and of its trailer, and the two bytes of its mark.
pub const RECORD_LENGTH: usize = 8;

pub const TRAILER_LENGTH: usize = 12;

pub const MARK_FIRST: u8 = 0x45;

pub const MARK_SECOND: u8 = 0x48;

// The byte of a plan for an idle slot; any other byte is the number of the slot's job.
pub const IDLE: u8 = 255;

// A job may run in the slots from its release up to, not including, its deadline. It wants that
// many slots, and each slot that it is busy costs its energy.
#[derive(Clone, Copy, Debug, Default, PartialEq, Eq)]
pub struct Job {
    pub release: u16,
    pub deadline: u16,
    pub wanted: u16,
    pub energy: u8,
}

// A table: the first `count` places of `jobs` are its jobs, in order. What stands in the other
// places is no part of the table. `read` leaves zeros there, and no call looks.
#[derive(Clone, Copy)]
pub struct Table {
    pub jobs: [Job; MOST_JOBS],
    pub count: usize,
    pub slots: u16,
    pub capacity: u16,
}

// Why a sheet or a table is refused. `number` gives the refusal's number in document 01.
#[derive(Clone, Copy, Debug, PartialEq, Eq)]
pub enum Refusal {
    // 1: the sheet is under 12 bytes
    Short,
    // 2: its last two bytes are not 45 48
    Mark,
    // 3: more than 64 jobs, or slots 0 or above 1,440
    Counts,
    // 4: the lengths do not fit each other
    Layout,
    // 5: this record's release is not below its deadline, or its deadline is above slots
    Window(usize),
    // 6: this record's slots wanted are 0 or above 1,440, its energy is 0, or its last byte is not 0
    Work(usize),
}

// What a slot's harvest byte counts for, wherever a slot's harvest is used.
pub fn counted(byte: u8) -> u16
    ensures { (result ≡ counted_as byte) × (result ≤ most_counted) }
{
    u16::from(byte)
}

// A number of a table or a state, as wide as the sums of such numbers.
pub fn wide(number: u16) -> u32
    ensures { (result ≡ number) × (result ≤ 65535) }
{
    u32::from(number)
}

// The lesser of two numbers, the first of which fits a level: a level is cut at capacity.
pub fn cut(capacity: u16, level: u32) -> u16
    ensures { result ≡ min capacity level }
{
    u32::from(capacity).min(level) as u16
}

// What all the slots that a job wants cost: slots wanted × energy.
pub fn cost(wanted: u16, energy: u8) -> u32
    ensures { (result ≡ wanted * energy) × (result ≤ most_cost) }
{
    u32::from(wanted) * u32::from(energy)
}

// 3 applies: more than 64 jobs, or slots 0 or above 1,440.
pub fn counts_fault(count: usize, slots: u16) -> bool
    ensures { result ≡ counts_fault count slots }
{
    if MOST_JOBS < count {
        return true;
    }
    if slots == 0 {
        return true;
    }
    MOST_SLOTS < slots
}

// 5 applies: the release is not below the deadline, or the deadline is above slots.
fn window_fault(slots: u16, j: Job) -> bool
    ensures { result ≡ window_fault slots j }
{
    if j.deadline <= j.release {
        return true;
    }
    slots < j.deadline
}

// 6 applies: slots wanted 0 or above 1,440, energy 0, or a last byte that is not 0.
fn work_fault(j: Job, last: u8) -> bool
    ensures { result ≡ work_fault j last }
{
    if j.wanted == 0 {
        return true;
    }
    if MOST_SLOTS < j.wanted {
        return true;
    }
    if j.energy == 0 {
        return true;
    }
    last != 0
}

// Record k of a sheet or a table, by itself: 5 before 6. A table's record has no last byte: hand 0.
pub fn check_record(slots: u16, j: Job, last: u8, k: usize) -> Result<(), Refusal>
    ensures { outcome_says result ≡ record_says (window_fault slots j) (work_fault j last) k }
{
    if window_fault(slots, j) {
        return Err(Refusal::Window(k));
    }
    if work_fault(j, last) {
        return Err(Refusal::Work(k));
    }
    Ok(())
}

// The records of a table of at most 64 jobs, in order.
fn check_records(t: &Table) -> Result<(), Refusal>
    requires { t.now.count ≤ most_jobs }
    ensures { outcome_says result ≡ in_order (λ k. record_says (window_fault t.now.slots (job_of t.now k)) (work_fault (job_of t.now k) 0) k) t.now.count }
{
    for (k, job) in t.jobs[..t.count].iter().enumerate() {
        check_record(t.slots, *job, 0, k)?;
    }
    Ok(())
}

// The check, of a table that is lent.
fn check_table(t: &Table, harvest: &[u8]) -> Result<(), Refusal>
    ensures { outcome_says result ≡ table_says (day_of t.now harvest.now) }
{
    if counts_fault(t.count, t.slots) {
        return Err(Refusal::Counts);
    }
    if harvest.len() != t.slots as usize {
        return Err(Refusal::Layout);
    }
    check_records(t)
}

// The check of a table and a harvest that are handed in place of a sheet: 3, then 4 where the
// harvest is not of slots bytes, then the records in order with 5 before 6 in each. It takes any
// table and any harvest, and looks at no place of the table beyond its last job.
pub fn check(t: Table, harvest: &[u8]) -> Result<(), Refusal>
    ensures { outcome_says result ≡ table_says (day_of t harvest.now) }
{
    check_table(&t, harvest)
}

// The refusal's number in document 01.
pub fn number(r: Refusal) -> u8
    ensures { result ≡ refusal_number r }
{
    match r {
        Refusal::Short => 1,
        Refusal::Mark => 2,
        Refusal::Counts => 3,
        Refusal::Layout => 4,
        Refusal::Window(_) => 5,
        Refusal::Work(_) => 6,
    }
}

// The record that the refusal names; 0 where it names none.
pub fn place(r: Refusal) -> usize
    ensures { result ≡ refusal_place r }
{
    match r {
        Refusal::Short => 0,
        Refusal::Mark => 0,
        Refusal::Counts => 0,
        Refusal::Layout => 0,
        Refusal::Window(k) => k,
        Refusal::Work(k) => k,
    }
}

impl fmt::Display for Refusal {
    // What is wrong, in words; a record is spoken of as `it`.
    fn fmt<W: fmt::Write>(&self, f: &mut fmt::Formatter<W>) -> fmt::Result {
        f.write_str(match self {
            Refusal::Short => "the sheet is under 12 bytes",
            Refusal::Mark => "the sheet does not end in 45 48 (hex)",
            Refusal::Counts => "the sheet has more than 64 jobs, or slots 0 or above 1440",
            Refusal::Layout => {
                "the sheet's back distances or its length do not fit its jobs and slots"
            }
            Refusal::Window(_) => {
                "its release is not below its deadline, or its deadline is above slots"
            }
            Refusal::Work(_) => {
                "it wants 0 slots or above 1440, its energy is 0, or its last byte is not zero"
            }
        })
    }
}

impl Error for Refusal {}
