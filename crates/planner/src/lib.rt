// The planner: an overloaded interval, or the plan of the day's run and whether it meets every job.
#![tactic(auto)]

ghost use Rattle.std.specs.Prelude.{◌≡◌};
ghost use Rattle.sheet.specs.Checked.{Checks};
ghost use Rattle.sheet.specs.HandedIn.{HandedIn, on_sheet, on_table};
ghost use Rattle.planner.specs.Promise.{Plans};
ghost use Rattle.planner.specs.declared.PlannerRefusal.{PlannerRefusal};

use demand::Overload;
use reader::SheetRead;
use sheet::{CheckedDay, Refusal, Table};
use std::error::Error;
use std::fmt;

// What is planned for a day.
#[derive(Clone, Copy, Debug, PartialEq, Eq)]
pub enum Planned {
    // This interval is overloaded, so no plan exists. The plan buffer is untouched.
    Overloaded(Overload),
    // The plan is written, and every job gets its slots.
    Met,
    // The plan is written, and this job does not get all its slots.
    Undecided(usize),
}

impl fmt::Display for Planned {
    fn fmt<W: fmt::Write>(&self, f: &mut fmt::Formatter<W>) -> fmt::Result {
        match self {
            Planned::Overloaded(o) => o.fmt(f),
            Planned::Met => f.write_str("met"),
            Planned::Undecided(k) => write!(f, "undecided job {k}"),
        }
    }
}

// Why nothing is planned.
#[derive(Clone, Copy, Debug, PartialEq, Eq)]
pub enum PlannerRefusal {
    // The sheet, the table or the harvest is refused: 1 to 6.
    HandedIn(Refusal),
    // 7: the plan buffer is not of slots bytes.
    WrongPlan,
}

impl From<Refusal> for PlannerRefusal {
    ghost from_gives = { λ why r. r ≡ PlannerRefusal.HandedIn why };

    fn from(why: Refusal) -> PlannerRefusal {
        PlannerRefusal::HandedIn(why)
    }
}

impl fmt::Display for PlannerRefusal {
    // What is wrong, in words.
    fn fmt<W: fmt::Write>(&self, f: &mut fmt::Formatter<W>) -> fmt::Result {
        match self {
            PlannerRefusal::HandedIn(why) => why.fmt(f),
            PlannerRefusal::WrongPlan => f.write_str("the plan buffer is not of slots bytes"),
        }
    }
}

impl Error for PlannerRefusal {}

// The number in document 01 of the refusal `WrongPlan`.
pub const WRONG_PLAN: u8 = 7;

// The planner's answer, for whatever was handed in and checked: its refusal, or 7, and then the interval or
// the run. The running totals are made once, and lent to the search and to the run.
fn plan_day(
    checked: Result<CheckedDay, Refusal>,
    plan: &mut [u8],
) -> Result<Planned, PlannerRefusal>
    ensures { (h : HandedIn) → Checks h checked.entry → Plans h plan.old result plan.new }
{
    let day = checked?;
    if plan.len() != day.table.slots as usize {
        return Err(PlannerRefusal::WrongPlan);
    }
    let totals = totals::running(day.harvest);
    if let Some(o) = demand::first_overload(day.table, &totals) {
        return Ok(Planned::Overloaded(o));
    }
    match slot_run::whole_run(day, &totals, plan) {
        None => Ok(Planned::Met),
        Some(k) => Ok(Planned::Undecided(k)),
    }
}

// Plans a table with its harvest into a buffer of one byte a slot: the job's number, or 255 for idle.
// It takes any table, harvest and buffer, and refuses 3, 4, 5, 6 and then 7; after a refusal, and for
// an overloaded day, every byte of the buffer is what it was.
pub fn plan_table(t: Table, harvest: &[u8], plan: &mut [u8]) -> Result<Planned, PlannerRefusal>
    ensures { Plans (on_table t harvest.now) plan.old result plan.new }
{
    plan_day(CheckedDay::new(&t, harvest), plan)
}

// Plans a sheet, from any bytes: the same, with the sheet's own refusals 1 to 6 first.
pub fn plan_sheet(bytes: &[u8], plan: &mut [u8]) -> Result<Planned, PlannerRefusal>
    ensures { Plans (on_sheet bytes.now) plan.old result plan.new }
{
    let read = SheetRead::new(bytes);
    plan_day(read.day(), plan)
}
