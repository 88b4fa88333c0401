// The judge of evidence, a plan or an interval, whoever brings it: a plan is accepted exactly when the
// day can be run by it, an interval exactly when its demand exceeds its supply. The judge knows the
// sheet and what demand is, and nothing of the search, the run or the planner.
#![tactic(auto)]

ghost use Rattle.std.specs.Prelude.{◌≡◌, length, ◌<◌, ◌≤◌};
ghost use Rattle.sheet.specs.Checked.{Checks, the_day};
ghost use Rattle.sheet.specs.HandedIn.{HandedIn, on_sheet, on_table};
ghost use Rattle.sheet.specs.Paper.{number_of};
ghost use Rattle.sheet.specs.Sums.{harvest_of, most_harvest, most_cost};
ghost use Rattle.sheet.specs.Table.{most_slots};
ghost use Rattle.interval.specs.Demand.{share_of, demand_of};
ghost use Rattle.judge.specs.Judge.{sums_of};
ghost use Rattle.judge.specs.Promise.{claim_answered, JudgesPlan, JudgesClaim};
ghost use Rattle.judge.specs.Steps.{Names};
ghost use Rattle.judge.specs.declared.PlanRefusal.{PlanRefusal};
ghost use Rattle.judge.specs.declared.ClaimRefusal.{ClaimRefusal};

pub use interval::{ENERGY, TIME};
use interval::{Kind, NoKind};
pub use plan_slots::{PlanFault, number, place};
use reader::SheetRead;
use sheet::{CheckedDay, Job, Refusal, Table};
use std::error::Error;
use std::fmt;

// Why a plan is not accepted. A plan is accepted where every job gets its slots inside its window, no more and
// no fewer, every slot is idle or names a job, and no busy slot lacks charge, the reservoir starting full.
#[derive(Clone, Copy, Debug, PartialEq, Eq)]
pub enum PlanRefusal {
    // The sheet, the table or the harvest is refused: 1 to 6.
    HandedIn(Refusal),
    // The plan is refused: 11 to 16.
    Plan(PlanFault),
}

impl From<Refusal> for PlanRefusal {
    ghost from_gives = { λ why r. r ≡ PlanRefusal.HandedIn why };

    fn from(why: Refusal) -> PlanRefusal {
        PlanRefusal::HandedIn(why)
    }
}

impl From<PlanFault> for PlanRefusal {
    ghost from_gives = { λ fault r. r ≡ PlanRefusal.Plan fault };

    fn from(fault: PlanFault) -> PlanRefusal {
        PlanRefusal::Plan(fault)
    }
}

// What was weighed: the demand and the supply of the claimed interval, in the claimed kind.
#[derive(Clone, Copy, Debug, PartialEq, Eq)]
pub struct Sums {
    pub demand: u32,
    pub supply: u32,
}

impl fmt::Display for Sums {
    fn fmt<W: fmt::Write>(&self, f: &mut fmt::Formatter<W>) -> fmt::Result {
        write!(f, "demand {} supply {}", self.demand, self.supply)
    }
}

// Why a claim is not accepted. It is accepted where the demand is above the supply.
#[derive(Clone, Copy, Debug, PartialEq, Eq)]
pub enum ClaimRefusal {
    // The sheet, the table or the harvest is refused: 1 to 6.
    HandedIn(Refusal),
    // 17: the kind is neither 0 nor 1, the start is not below the end, or the end is above slots.
    NoInterval,
    // 18: the demand is not above the supply.
    NotOverloaded(Sums),
}

impl From<Refusal> for ClaimRefusal {
    ghost from_gives = { λ why r. r ≡ ClaimRefusal.HandedIn why };

    fn from(why: Refusal) -> ClaimRefusal {
        ClaimRefusal::HandedIn(why)
    }
}

impl From<NoKind> for ClaimRefusal {
    ghost from_gives = { λ _ r. r ≡ ClaimRefusal.NoInterval };

    fn from(_number: NoKind) -> ClaimRefusal {
        ClaimRefusal::NoInterval
    }
}

// The numbers in document 01 of a claim's two refusals.
pub const NO_INTERVAL: u8 = 17;

pub const NOT_OVERLOADED: u8 = 18;

// The number in document 01 of the answer to a claim; 0 where it is accepted.
pub fn claim_number(answer: Result<Sums, ClaimRefusal>) -> u8
    ensures { result ≡ number_of (claim_answered answer) }
{
    match answer {
        Err(ClaimRefusal::HandedIn(why)) => sheet::number(why),
        Err(ClaimRefusal::NoInterval) => NO_INTERVAL,
        Err(ClaimRefusal::NotOverloaded(_)) => NOT_OVERLOADED,
        Ok(_) => 0,
    }
}

// The answer to a plan, for whatever was handed in and checked: its refusal, or 11 to 16.
fn judge_plan(checked: Result<CheckedDay, Refusal>, plan: &[u8]) -> Result<(), PlanRefusal>
    ensures { (h : HandedIn) → Checks h checked.entry → JudgesPlan h plan.now result }
{
    let day = checked?;
    if plan.len() != day.table.slots as usize {
        return Err(PlanRefusal::Plan(PlanFault::WrongLength));
    }
    let found = plan_slots::judge_slots(day, plan);
    found?;
    Ok(())
}

// Judges a plan, one byte a slot, the job's number or 255 for idle, against a table and its harvest.
// It takes any table, harvest and plan; it refuses 3, 4, 5 and 6 as every call does, then the plan by
// 11 to 16, and otherwise accepts it. It writes nothing.
pub fn plan_on_table(t: Table, harvest: &[u8], plan: &[u8]) -> Result<(), PlanRefusal>
    ensures { JudgesPlan (on_table t harvest.now) plan.now result }
{
    judge_plan(CheckedDay::new(&t, harvest), plan)
}

// Judges a plan against a sheet, from any bytes: the same, with the sheet's own refusals 1 to 6 first.
pub fn plan_on_sheet(bytes: &[u8], plan: &[u8]) -> Result<(), PlanRefusal>
    ensures { JudgesPlan (on_sheet bytes.now) plan.now result }
{
    let read = SheetRead::new(bytes);
    judge_plan(read.day(), plan)
}

// The interval that a claim is for: a kind, and the slots `from` up to, not including, `to`.
#[derive(Clone, Copy)]
struct Claimed {
    kind: Kind,
    from: u16,
    to: u16,
}

// The interval that a claim's numbers name on a day of so many slots; 17 where the kind is neither 0 nor 1,
// the start is not below the end, or the end is above slots.
fn interval_of(slots: u16, kind: u64, start: u64, end: u64) -> Result<Claimed, ClaimRefusal>
    ensures { Names slots kind start end result }
{
    let kind = Kind::try_from(kind)?;
    if end <= start {
        return Err(ClaimRefusal::NoInterval);
    }
    if u64::from(slots) < end {
        return Err(ClaimRefusal::NoInterval);
    }
    Ok(Claimed {
        kind,
        from: start as u16,
        to: end as u16,
    })
}

// What a job of an interval adds to its demand: its slots wanted, or what they cost.
fn share(kind: Kind, j: &Job) -> u32
    ensures { (result ≡ share_of kind j.now) × (result ≤ most_cost) }
{
    match kind {
        Kind::Time => u32::from(j.wanted),
        Kind::Energy => sheet::cost(j.wanted, j.energy),
    }
}

// The demand of an interval, in its kind.
fn demand_of(day: CheckedDay, claim: Claimed) -> u32
    ensures { result ≡ demand_of claim.kind (the_day day.entry) claim.from claim.to }
{
    let mut demand: u32 = 0;
    for job in &day.table.jobs[..day.table.count] {
        if interval::is_within(claim.from, claim.to, job.release, job.deadline) {
            demand += share(claim.kind, job);
        }
    }
    demand
}

// The harvest of the slots from .. to - 1, of a harvest of at most 1,440 bytes.
fn harvest_of(harvest: &[u8], from: usize, to: usize) -> u32
    requires { (from ≤ to) × (to ≤ length harvest.now) × (to ≤ most_slots) }
    ensures { (result ≡ harvest_of harvest.now from to) × (result ≤ most_harvest) }
{
    let mut sum: u32 = 0;
    for &byte in &harvest[from..to] {
        sum += u32::from(sheet::counted(byte));
    }
    sum
}

// The demand and the supply of an interval of the day, in its kind.
fn weigh(day: CheckedDay, claim: Claimed) -> Sums
    requires { (claim.from < claim.to) × (claim.to ≤ day.table.now.slots) }
    ensures { result ≡ sums_of claim.kind (the_day day.entry) claim.from claim.to }
{
    let demand = demand_of(day, claim);
    let supply = match claim.kind {
        Kind::Time => u32::from(claim.to - claim.from),
        Kind::Energy => {
            sheet::wide(day.table.capacity)
                + harvest_of(day.harvest, claim.from as usize, claim.to as usize)
        }
    };
    Sums { demand, supply }
}

// The answer to a claim, for whatever was handed in and checked: its refusal, or 17, or 18.
fn judge_claim(
    checked: Result<CheckedDay, Refusal>,
    kind: u64,
    start: u64,
    end: u64,
) -> Result<Sums, ClaimRefusal>
    ensures { (h : HandedIn) → Checks h checked.entry → JudgesClaim h kind start end result }
{
    let day = checked?;
    let claim = interval_of(day.table.slots, kind, start, end)?;
    let sums = weigh(day, claim);
    if sums.supply < sums.demand {
        Ok(sums)
    } else {
        Err(ClaimRefusal::NotOverloaded(sums))
    }
}

// Judges a claim, that the slots from `start` up to, not including, `end` are overloaded in a kind, 0
// for time and 1 for energy, against a table and its harvest. Any three numbers are taken; it refuses
// 3, 4, 5 and 6 as every call does, then 17 and 18, and otherwise accepts the claim. With 18 and with
// an accepted claim it tells the interval's demand and supply. It writes nothing.
pub fn claim_on_table(
    t: Table,
    harvest: &[u8],
    kind: u64,
    start: u64,
    end: u64,
) -> Result<Sums, ClaimRefusal>
    ensures { JudgesClaim (on_table t harvest.now) kind start end result }
{
    judge_claim(CheckedDay::new(&t, harvest), kind, start, end)
}

// Judges a claim against a sheet, from any bytes: the same, with the sheet's own refusals 1 to 6 first.
pub fn claim_on_sheet(bytes: &[u8], kind: u64, start: u64, end: u64) -> Result<Sums, ClaimRefusal>
    ensures { JudgesClaim (on_sheet bytes.now) kind start end result }
{
    let read = SheetRead::new(bytes);
    judge_claim(read.day(), kind, start, end)
}
