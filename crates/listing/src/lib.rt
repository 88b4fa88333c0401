// The listing of a day, as the program `day` prints it.
#![tactic(auto)]

use planner::{Planned, PlannerRefusal};
use print::Output;
use reader::SheetRead;
use sheet::CheckedDay;
use slot_run::{Decision, StepResult};
use std::fmt;
use std::fmt::Write;

// A plan has a byte a slot.
const MOST_SLOTS: usize = sheet::MOST_SLOTS as usize;

// The planner's answer: the verdict, or the refusal's number.
#[derive(Clone, Copy)]
struct Verdict(Result<Planned, PlannerRefusal>);

impl fmt::Display for Verdict {
    fn fmt<W: fmt::Write>(&self, f: &mut fmt::Formatter<W>) -> fmt::Result {
        match self.0 {
            Ok(planned) => write!(f, "{planned}"),
            Err(PlannerRefusal::HandedIn(why)) => write!(f, "refused {}", sheet::number(why)),
            Err(PlannerRefusal::WrongPlan) => write!(f, "refused {}", planner::WRONG_PLAN),
        }
    }
}

// What a slot does: `idle` or the job, and the ground.
#[derive(Clone, Copy)]
struct Deed(Decision);

impl fmt::Display for Deed {
    fn fmt<W: fmt::Write>(&self, f: &mut fmt::Formatter<W>) -> fmt::Result {
        match self.0 {
            Decision::Busy(k, why) => write!(f, "job {k} {why}"),
            Decision::Idle(why) => write!(f, "idle {why}"),
        }
    }
}

// Prints the line of a slot that was taken: what it does, and the level after it.
fn print_slot(slot: u16, taken: StepResult) -> fmt::Result {
    if let Ok(Some(decision)) = taken.answer {
        let level = taken.state.level;
        return writeln!(Output, "slot {slot} {} level {level}", Deed(decision));
    }
    Ok(())
}

// Prints a line for each slot, from the first state of the day on, step by step.
fn print_slots(day: CheckedDay) -> fmt::Result {
    let t = *day.table;
    let mut s = slot_run::begin(t, day.harvest).state;
    for slot in 0..t.slots {
        let taken = slot_run::step(t, day.harvest, s);
        print_slot(slot, taken)?;
        s = taken.state;
    }
    Ok(())
}

// Prints the listing of a day that was read: the header; the slots, where no interval is overloaded;
// the verdict.
fn print_table(day: CheckedDay) -> fmt::Result {
    let mut space = [0u8; MOST_SLOTS];
    let t = *day.table;
    let slots = usize::from(t.slots);
    let answer = planner::plan_table(t, day.harvest, &mut space[..slots]);
    writeln!(
        Output,
        "day slots {slots} jobs {} capacity {}",
        t.count, t.capacity
    )?;
    if let Ok(Planned::Met | Planned::Undecided(_)) = answer {
        print_slots(day)?;
    }
    writeln!(Output, "verdict {}", Verdict(answer))
}

// Prints the listing of the day that stands in a sheet: of a sheet that is refused the refusal's number.
fn print_sheet(bytes: &[u8]) -> fmt::Result {
    let read = SheetRead::new(bytes);
    match read.day() {
        Ok(day) => print_table(day),
        Err(why) => writeln!(Output, "refused {}", sheet::number(why)),
    }
}

// Prints the listing of the day that stands in a sheet, from any bytes: of a sheet that is refused
// the refusal's number, of an overloaded day its header and verdict, of any other its slots between
// the two. Every line ends in a newline.
pub fn print_day(bytes: &[u8]) {
    let _ = print_sheet(bytes);
}
