// The calls that the benchmark times and measures: a sheet is read and written back, searched, planned,
// and stepped, and evidence is judged against it.
#![tactic(auto)]

ghost use Rattle.std.specs.Prelude.{◌≡◌, ◌+◌, ◌*◌, ◌%◌, ◌<◌};
ghost use Rattle.demand.specs.Search.{overload_says};
ghost use Rattle.bench.specs.Promise.{interval_number, sums_number, ThereAndBack, SearchesYielded, PlanNumbered, FirstSteps, JudgementNumbered, ClaimNumbered};

use demand::{Kind, Overload};
use judge::{ClaimRefusal, PlanRefusal, Sums};
use planner::Planned;
use reader::SheetRead;

// The numbers beside an interval's: a refusal's, and an undecided day's with its job 0.
const REFUSED: u64 = 1 << 40;

const UNDECIDED: u64 = 1 << 41;

// Reads the sheet in `bytes` and writes it at the front of `out`: its length, or 0 where the sheet is
// refused or `out` is too short for it, and then every byte of `out` is what it was. The harvest is a
// stretch of the sheet and is not copied on the way. The table of a refused sheet has no slots, so
// the writer refuses it too.
#[unsafe(no_mangle)]
pub extern "C" fn gishronek_there_and_back(bytes: &[u8], out: &mut [u8]) -> u64
    ensures { ThereAndBack bytes.now out.old result out.new }
{
    let read = SheetRead::new(bytes);
    let written = writer::write(read.table, read.harvest, out);
    written.map_or(0, |length| length as u64)
}

// An overloaded interval as one number, never 0: its kind, 1 for time and 2 for energy, its start and
// its end.
fn interval_number(o: Overload) -> u64
    ensures { result ≡ interval_number (overload_says o) }
{
    let kind = match o.kind {
        Kind::Time => 1,
        Kind::Energy => 2,
    };
    kind + 4 * u64::from(o.from) + 262144 * u64::from(o.to)
}

// Reads the sheet in `bytes` and searches it: 0 where no interval is overloaded, the interval's number
// where one is, 2^40 where the sheet is refused. The table of a refused sheet has no slots, so the
// search refuses it too.
#[unsafe(no_mangle)]
#[tactic(auto, unfolding(demand::specs::Search::found_says))]
pub extern "C" fn gishronek_search(bytes: &[u8]) -> u64
    ensures { SearchesYielded bytes.now result }
{
    let read = SheetRead::new(bytes);
    match demand::search(read.table, read.harvest) {
        Ok(Some(o)) => interval_number(o),
        Ok(None) => 0,
        Err(_) => REFUSED,
    }
}

// Plans the sheet in `bytes` into `plan`, a byte a slot: 0 where the day is met, 2^41 and the job's
// number where it is undecided, the interval's number where it is overloaded, 2^40 where the sheet or
// the length of `plan` is refused. In the last two cases every byte of `plan` is what it was.
#[unsafe(no_mangle)]
pub extern "C" fn gishronek_plan(bytes: &[u8], plan: &mut [u8]) -> u64
    ensures { PlanNumbered bytes.now plan.old result plan.new }
{
    match planner::plan_sheet(bytes, plan) {
        Ok(Planned::Overloaded(o)) => interval_number(o),
        Ok(Planned::Met) => 0,
        Ok(Planned::Undecided(k)) => UNDECIDED + k as u64,
        Err(_) => REFUSED,
    }
}

// Reads the sheet in `bytes`, starts its day and takes one step: the charge level after it, 0 where
// the sheet is refused. The table of a refused sheet has no slots, so the start is refused too, and
// its state, all zeros, is handed back by the step as it was.
#[unsafe(no_mangle)]
pub extern "C" fn gishronek_first_step(bytes: &[u8]) -> u64
    ensures { FirstSteps bytes.now result }
{
    let read = SheetRead::new(bytes);
    let start = slot_run::begin(read.table, read.harvest);
    let stepped = slot_run::step(read.table, read.harvest, start.state);
    u64::from(stepped.state.level)
}

// A judge's answer as one number: the refusal's own in the lowest five bits, 0 where the evidence is
// accepted, and the place that it names in the next eleven. A place is a job's number or a slot's, so
// it is below 1,440 and no bit of it is lost.
const PLACES: usize = 2048;

const A_PLACE: u64 = 32;

// A refusal's number, and the place that it names or 0, as one number.
fn number_at(number: u8, place: usize) -> u64
    ensures { result ≡ number + 32 * (place % 2048) }
{
    u64::from(number) + A_PLACE * ((place % PLACES) as u64)
}

// Judges the plan in `plan`, a byte a slot, against the sheet in `bytes`: 0 where it is accepted, else
// the refusal's number, and 32 times the place that it names. No byte is written.
#[unsafe(no_mangle)]
pub extern "C" fn gishronek_judge_plan(bytes: &[u8], plan: &[u8]) -> u64
    ensures { JudgementNumbered bytes.now plan.now result }
{
    match judge::plan_on_sheet(bytes, plan) {
        Ok(()) => 0,
        Err(PlanRefusal::HandedIn(why)) => number_at(sheet::number(why), sheet::place(why)),
        Err(PlanRefusal::Plan(fault)) => number_at(judge::number(fault), judge::place(fault)),
    }
}

// What a claim weighed stands above its answer: the demand in 26 bits, then the supply in 20. A demand
// is at most 64 × 1,440 × 255 and a supply at most 65,535 + 1,440 × 255, so no bit of them is lost.
const DEMANDS: u64 = 1 << 26;

const SUPPLIES: u64 = 1 << 20;

const A_DEMAND: u64 = 1 << 16;

const A_SUPPLY: u64 = 1 << 42;

// What was weighed as one number, which leaves room for the answer.
fn sums_number(sums: Sums) -> u64
    ensures { (result ≡ sums_number sums) × (result < 4611686018427387904) }
{
    A_DEMAND * (u64::from(sums.demand) % DEMANDS) + A_SUPPLY * (u64::from(sums.supply) % SUPPLIES)
}

// Judges a claim, that the slots from `start` up to, not including, `end` are overloaded in a kind, 0
// for time and 1 for energy, against the sheet in `bytes`: 0 where it is accepted, else the refusal's
// number, and 32 times the place that it names; to that are added 2^16 times the demand and 2^42 times
// the supply that were weighed, both 0 where nothing was.
#[unsafe(no_mangle)]
pub extern "C" fn gishronek_judge_claim(bytes: &[u8], kind: u64, start: u64, end: u64) -> u64
    ensures { ClaimNumbered bytes.now kind start end result }
{
    match judge::claim_on_sheet(bytes, kind, start, end) {
        Ok(sums) => sums_number(sums),
        Err(ClaimRefusal::HandedIn(why)) => number_at(sheet::number(why), sheet::place(why)),
        Err(ClaimRefusal::NoInterval) => u64::from(judge::NO_INTERVAL),
        Err(ClaimRefusal::NotOverloaded(sums)) => {
            u64::from(judge::NOT_OVERLOADED) + sums_number(sums)
        }
    }
}
