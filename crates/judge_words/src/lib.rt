// What the judge says of evidence, in words: the line of the program `evidence` for a plan and for a
// claim.
#![tactic(auto)]

ghost use Rattle.std.specs.Prelude.{◌≡◌, ◌≤◌, ◌<◌, length, get_or};
ghost use Rattle.judge_words.specs.Words.{GoodJobs, IsJobs, Stands};

use interval::Kind;
use judge::{ClaimRefusal, PlanFault, PlanRefusal, Sums};
use print::Output;
use sheet::{Job, Refusal, Table};
use std::fmt;
use std::fmt::Write;

// The numbers from .. to - 1, by the first and the last.
#[derive(Clone, Copy)]
struct Range {
    from: usize,
    to: usize,
    ghost some: { 0 < to },
}

impl fmt::Display for Range {
    fn fmt<W: fmt::Write>(&self, f: &mut fmt::Formatter<W>) -> fmt::Result {
        write!(f, "{} to {}", self.from, self.to - 1)
    }
}

// ---- a refused sheet

// The words for a refused sheet: 1 to 6, and the record that 5 and 6 name.
#[derive(Clone, Copy)]
struct Refused(Refusal);

impl fmt::Display for Refused {
    fn fmt<W: fmt::Write>(&self, f: &mut fmt::Formatter<W>) -> fmt::Result {
        let why = self.0;
        write!(f, "refused {}", sheet::number(why))?;
        if let Refusal::Window(_) | Refusal::Work(_) = why {
            write!(f, " at record {}", sheet::place(why))?;
        }
        write!(f, ": {why}")
    }
}

// ---- a plan

// The numbers of so many jobs.
#[derive(Clone, Copy)]
struct Numbers(usize);

impl fmt::Display for Numbers {
    fn fmt<W: fmt::Write>(&self, f: &mut fmt::Formatter<W>) -> fmt::Result {
        let count = self.0;
        if count == 0 {
            return f.write_str("there is no job");
        }
        write!(f, "{}", Range { from: 0, to: count })
    }
}

// A job with its number, of a table that was read.
#[derive(Clone, Copy)]
struct Numbered {
    number: usize,
    job: Job,
    ghost due: { 0 < job.deadline },
}

impl Numbered {
    // The slots in which it may run.
    fn window(&self) -> Range {
        Range {
            from: usize::from(self.job.release),
            to: usize::from(self.job.deadline),
        }
    }
}

// Job k of a table that was read.
fn job_of(t: Table, k: usize) -> Numbered
    requires { GoodJobs t × (k < t.count) }
{
    Numbered {
        number: k,
        job: t.jobs[k],
    }
}

// The byte of a slot of a plan.
fn byte_of(plan: &[u8], slot: usize) -> usize
    requires { slot < length plan.now }
    ensures { result ≡ get_or plan.now slot 0 }
{
    usize::from(plan[slot])
}

// The job of a slot that is a job's.
fn job_in(t: Table, plan: &[u8], slot: usize) -> Numbered
    requires { GoodJobs t × IsJobs t plan.now slot }
{
    job_of(t, byte_of(plan, slot))
}

// Prints the line for a refused plan: 11 to 16. What the refusal names stands in the plan and the table.
fn print_fault(t: Table, plan: &[u8], fault: PlanFault) -> fmt::Result
    requires { GoodJobs t × Stands t plan.now fault }
{
    let number = judge::number(fault);
    match fault {
        PlanFault::WrongLength => writeln!(
            Output,
            "refused {number}: the plan has {} bytes and the day has {} slots",
            plan.len(),
            t.slots
        ),
        PlanFault::NoJob(slot) => writeln!(
            Output,
            "refused {number} at slot {slot}: byte {} is neither 255 for idle nor a job's number ({})",
            byte_of(plan, slot),
            Numbers(t.count)
        ),
        PlanFault::OutsideWindow(slot) => {
            let j = job_in(t, plan, slot);
            writeln!(
                Output,
                "refused {number} at slot {slot}: job {} may run in slots {} only",
                j.number,
                j.window()
            )
        }
        PlanFault::HasAllSlots(slot) => {
            let j = job_in(t, plan, slot);
            writeln!(
                Output,
                "refused {number} at slot {slot}: job {} already has all its slots ({})",
                j.number, j.job.wanted
            )
        }
        PlanFault::LacksCharge(slot) => {
            let j = job_in(t, plan, slot);
            writeln!(
                Output,
                "refused {number} at slot {slot}: level plus harvest is below the charge that job {} \
                needs ({})",
                j.number, j.job.energy
            )
        }
        PlanFault::LacksSlots(k) => {
            let j = job_of(t, k);
            writeln!(
                Output,
                "refused {number}, job {k}: after the last slot it lacks some of its slots ({})",
                j.job.wanted
            )
        }
    }
}

// Prints what the judge says of a plan.
fn print_judged(bytes: &[u8], plan: &[u8]) -> fmt::Result {
    let reading = reader::read(bytes);
    match judge::plan_on_sheet(bytes, plan) {
        Ok(()) => writeln!(
            Output,
            "accepted: every job gets its slots inside its window, and no busy slot lacks charge"
        ),
        Err(PlanRefusal::HandedIn(why)) => writeln!(Output, "{}", Refused(why)),
        Err(PlanRefusal::Plan(fault)) => print_fault(reading.table, plan, fault),
    }
}

// Prints what the judge says of a plan for the day that stands in a sheet, from any bytes: one line.
pub fn print_plan(bytes: &[u8], plan: &[u8]) {
    let _ = print_judged(bytes, plan);
}

// ---- a claim

// A claimed interval, and its demand.
#[derive(Clone, Copy)]
struct Claimed {
    slots: Range,
    kind: Kind,
    demand: u32,
}

impl fmt::Display for Claimed {
    fn fmt<W: fmt::Write>(&self, f: &mut fmt::Formatter<W>) -> fmt::Result {
        write!(
            f,
            "in slots {} {} demand {}",
            self.slots, self.kind, self.demand
        )
    }
}

impl Claimed {
    // A claim that was weighed.
    fn weighed(kind: u64, start: u64, end: u64, sums: Sums) -> Claimed
        requires { (kind ≤ 1) × (0 < end) }
    {
        Claimed {
            slots: Range {
                from: start as usize,
                to: end as usize,
            },
            kind: Kind::try_from(kind).unwrap(),
            demand: sums.demand,
        }
    }
}

// Prints what the judge says of a claim.
fn print_weighed(bytes: &[u8], kind: u64, start: u64, end: u64) -> fmt::Result {
    let reading = reader::read(bytes);
    match judge::claim_on_sheet(bytes, kind, start, end) {
        Ok(sums) => writeln!(
            Output,
            "accepted: {} is above supply {}",
            Claimed::weighed(kind, start, end, sums),
            sums.supply
        ),
        Err(ClaimRefusal::HandedIn(why)) => writeln!(Output, "{}", Refused(why)),
        Err(ClaimRefusal::NoInterval) => writeln!(
            Output,
            "refused {}: the claim is no interval of the day: a kind is 0 (time) or 1 (energy), \
            the start is below the end, and the end is at most {}",
            judge::NO_INTERVAL,
            reading.table.slots
        ),
        Err(ClaimRefusal::NotOverloaded(sums)) => writeln!(
            Output,
            "refused {}: {} is not above supply {}",
            judge::NOT_OVERLOADED,
            Claimed::weighed(kind, start, end, sums),
            sums.supply
        ),
    }
}

// Prints what the judge says of a claim for the day that stands in a sheet, from any bytes: one line.
pub fn print_claim(bytes: &[u8], kind: u64, start: u64, end: u64) {
    let _ = print_weighed(bytes, kind, start, end);
}
