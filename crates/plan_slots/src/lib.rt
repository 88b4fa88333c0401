// The pass over a plan's slots: 12 to 16, for a day that was checked. It is the judge's, and knows the sheet
// alone.
#![tactic(auto)]

ghost use Rattle.std.specs.Prelude.{◌≡◌, ◌&&◌, ltb, leb, length, ◌<◌, ◌≤◌};
ghost use Rattle.sheet.specs.Paper.{number_of, place_of};
ghost use Rattle.sheet.specs.Checked.{the_day};
ghost use Rattle.plan_slots.specs.Numbers.{fault_says, finding_says};
ghost use Rattle.plan_slots.specs.Slots.{slots_say};
ghost use Rattle.plan_slots.specs.Steps.{JobLeaves, ends_by};

use sheet::{CheckedDay, Job};

// Why a plan is refused, with the slot, and for 16 the job, that document 01 names.
#[derive(Clone, Copy, Debug, PartialEq, Eq)]
pub enum PlanFault {
    // 11: the plan is not of slots bytes
    WrongLength,
    // 12: this slot's byte is neither 255 nor a job's number
    NoJob(usize),
    // 13: this slot's job may not run in it
    OutsideWindow(usize),
    // 14: this slot's job already has all its slots
    HasAllSlots(usize),
    // 15: level plus harvest of this slot is below its job's energy
    LacksCharge(usize),
    // 16: after the last slot this job lacks slots; it is the lowest such job
    LacksSlots(usize),
}

// The number in document 01 of a plan's refusal.
pub fn number(fault: PlanFault) -> u8
    ensures { result ≡ number_of (fault_says fault) }
{
    match fault {
        PlanFault::WrongLength => 11,
        PlanFault::NoJob(_) => 12,
        PlanFault::OutsideWindow(_) => 13,
        PlanFault::HasAllSlots(_) => 14,
        PlanFault::LacksCharge(_) => 15,
        PlanFault::LacksSlots(_) => 16,
    }
}

// The slot, or for 16 the job, that a plan's refusal names; 0 where it names none.
pub fn place(fault: PlanFault) -> usize
    ensures { result ≡ place_of (fault_says fault) }
{
    match fault {
        PlanFault::WrongLength => 0,
        PlanFault::NoJob(slot) => slot,
        PlanFault::OutsideWindow(slot) => slot,
        PlanFault::HasAllSlots(slot) => slot,
        PlanFault::LacksCharge(slot) => slot,
        PlanFault::LacksSlots(job) => job,
    }
}

// A job may run in the slots from its release up to, not including, its deadline.
fn may_run(j: Job, slot: usize) -> bool
    ensures { result ≡ (leb j.release slot && ltb slot j.deadline) }
{
    j.release as usize <= slot && slot < j.deadline as usize
}

// A slot of job j, which got that many slots before and finds that much charge: 13, 14 and 15, and where
// none of them applies the job gets the slot, and the answer is the level as the next slot begins.
fn judge_job(
    j: Job,
    slot: usize,
    capacity: u16,
    charge: u32,
    got: &mut u16,
) -> Result<u16, PlanFault>
    ensures { JobLeaves j slot capacity charge got.old got.new result }
{
    let had = *got;
    let wanted = j.wanted;
    let needed = u32::from(j.energy);
    if !may_run(j, slot) {
        return Err(PlanFault::OutsideWindow(slot));
    }
    if wanted <= had {
        return Err(PlanFault::HasAllSlots(slot));
    }
    if charge < needed {
        return Err(PlanFault::LacksCharge(slot));
    }
    *got = had + 1;
    Ok(sheet::cut(capacity, charge - needed))
}

// 16: the lowest job that got fewer slots than it wants.
fn judge_ends(day: CheckedDay, got: &[u16; sheet::MOST_JOBS]) -> Result<(), PlanFault>
    ensures { finding_says result ≡ ends_by day.entry.table.now got.now }
{
    for k in 0..day.table.count {
        if got[k] < day.table.jobs[k].wanted {
            return Err(PlanFault::LacksSlots(k));
        }
    }
    Ok(())
}

// 12 to 16, in one pass over a plan of slots bytes: the slots that each job got so far and the level are
// carried along. `judge` calls it so, and nobody else.
pub fn judge_slots(day: CheckedDay, plan: &[u8]) -> Result<(), PlanFault>
    requires { length plan.now ≡ day.table.now.slots }
    ensures { finding_says result ≡ slots_say (the_day day.entry) plan.now }
{
    let mut got = [0u16; sheet::MOST_JOBS];
    let table = day.table;
    let capacity = table.capacity;
    let mut level = capacity;
    for (i, &byte) in plan.iter().enumerate() {
        let charge = u32::from(level) + u32::from(sheet::counted(day.harvest[i]));
        if byte == sheet::IDLE {
            level = sheet::cut(capacity, charge);
            continue;
        }
        let k = byte as usize;
        if table.count <= k {
            return Err(PlanFault::NoJob(i));
        }
        level = judge_job(table.jobs[k], i, capacity, charge, &mut got[k])?;
    }
    judge_ends(day, &got)
}
