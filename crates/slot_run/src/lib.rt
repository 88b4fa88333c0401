// The ED-H slot run: the first state of a day, one step from any state, and the run of a whole day.
#![tactic(auto)]

mod earliest;
mod slot;
mod sums;

ghost use Rattle.std.specs.Prelude.{◌≡◌, length};
ghost use Rattle.sheet.specs.Checked.{Checks, the_day};
ghost use Rattle.sheet.specs.HandedIn.{HandedIn, on_table};
ghost use Rattle.totals.specs.Totals.{TotalsOf};
ghost use Rattle.choice.specs.Choosing.{unfinished};
ghost use Rattle.slot_run.specs.Run.{first_state, state_at, plan_of};
ghost use Rattle.slot_run.specs.Promise.{Starts, Steps};

pub use choice::State;
pub use rules::{BusyWhy, Decision, IdleWhy};
use sheet::{CheckedDay, Refusal, Table};

// What a step yields: what the slot does, or nothing where the state's slot is past the last slot of the
// day, or the refusal, 3, 4, 5 or 6; and the state after it, which is the state that was handed in where the
// step was refused or the day is over.
#[derive(Clone, Copy)]
pub struct StepResult {
    pub answer: Result<Option<Decision>, Refusal>,
    pub state: State,
}

// What starting a day yields. Where the table or the harvest is refused the state is all zeros.
#[derive(Clone, Copy)]
pub struct Start {
    pub outcome: Result<(), Refusal>,
    pub state: State,
}

// The first state of a day.
fn first_state(day: CheckedDay) -> State
    ensures { result ≡ first_state (the_day day.entry) }
{
    let mut left = [0u16; sheet::MOST_JOBS];
    for k in 0..day.table.count {
        left[k] = day.table.jobs[k].wanted;
    }
    State {
        slot: 0,
        level: day.table.capacity,
        left,
    }
}

// The first state of a day, from any table and harvest: slot 0, the level at capacity, and every job
// wanting all its slots. It refuses what `sheet::check` refuses.
pub fn begin(t: Table, harvest: &[u8]) -> Start
    ensures { Starts (on_table t harvest.now) result }
{
    match CheckedDay::new(&t, harvest) {
        Ok(day) => Start {
            outcome: Ok(()),
            state: first_state(day),
        },
        Err(why) => Start {
            outcome: Err(why),
            state: State {
                slot: 0,
                level: 0,
                left: [0; sheet::MOST_JOBS],
            },
        },
    }
}

// One step from a state of a day that was checked: what the slot does, or nothing where the day is over; or
// the refusal of the check. The state is then the one after it.
fn take_step(
    checked: Result<CheckedDay, Refusal>,
    s: &mut State,
) -> Result<Option<Decision>, Refusal>
    ensures { (h : HandedIn) → Checks h checked.entry → Steps h s.old (record { answer = result; state = s.new }) }
{
    let day = checked?;
    if day.table.slots <= s.slot {
        return Ok(None);
    }
    let totals = totals::running(day.harvest);
    let jobs = columns::by_columns(day.table);
    let at = s.slot as usize;
    Ok(Some(slot::take_slot(day, &jobs, &totals, at, s)))
}

// One step of the run, by the six rules, from any state at all: it looks for no overload and takes
// the state's numbers as they stand. It refuses what `sheet::check` refuses, and past the last slot
// it answers that the day is over; then the state that it hands back is the one it was handed.
pub fn step(t: Table, harvest: &[u8], s: State) -> StepResult
    ensures { Steps (on_table t harvest.now) s result }
{
    let mut state = s;
    let answer = take_step(CheckedDay::new(&t, harvest), &mut state);
    StepResult { answer, state }
}

// The whole run of a day: its plan, a byte a slot, and the job that is left unfinished at the smallest
// deadline, ties the lowest number. Only with the running totals of the day's harvest and a plan of slots
// bytes; `planner` calls it so, and nobody else. (A type that holds a day and its totals would ask nothing
// here; but with it the totals stand on the stack twice.)
pub fn whole_run(day: CheckedDay, totals: &[u32; totals::ENTRIES], plan: &mut [u8]) -> Option<usize>
    requires totals { TotalsOf day.harvest.now totals.now }
    requires room { length plan.old ≡ day.table.now.slots }
    ensures unfinished { result ≡ unfinished (the_day day.entry) (state_at (the_day day.entry) day.entry.table.now.slots) }
    ensures plan { plan.new ≡ plan_of (the_day day.entry) }
{
    let jobs = columns::by_columns(day.table);
    let mut s = first_state(day);
    for n in 0..plan.len() {
        let decision = slot::take_slot(day, &jobs, totals, n, &mut s);
        plan[n] = slot::plan_byte(decision);
    }
    earliest::find_unfinished(day.table.count, &jobs, &s.left)
}
