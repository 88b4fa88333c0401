// The two slacks, as rules 4 and 5 ask of them: without signs, of one job after the other. Each function
// takes the numbers of one job; who sums over the jobs reads them off its columns.
#![tactic(auto)]

ghost use Rattle.std.specs.Prelude.{◌≡◌, cond, ◌&&◌, ◌+◌, ◌≤◌, ltb, leb};

// ---- slack time

// What a job counts for in the work pending up to a deadline: the slots that it still wants, where
// its own deadline is after the slot and up to that one.
pub fn pending_part(slot: u16, end: u16, deadline: u16, left: u16) -> u32
    ensures { (result ≡ cond (ltb slot deadline && leb deadline end) left 0) × (result ≤ 65535) }
{
    if slot < deadline && deadline <= end {
        u32::from(left)
    } else {
        0
    }
}

// A job's deadline is after the slot and it still wants slots, so slack time is asked of it.
pub fn wants_slots(slot: u16, deadline: u16, left: u16) -> bool
    ensures { result ≡ (ltb slot deadline && ltb 0 left) }
{
    slot < deadline && 0 < left
}

// The work pending up to a deadline fills the time to it: that job leaves a slack time of 0 or less.
pub fn leaves_no_time(slot: u16, deadline: u16, pending: u32) -> bool
    ensures { result ≡ leb deadline (slot + pending) }
{
    u64::from(deadline) <= u64::from(slot) + u64::from(pending)
}

// ---- slack energy

// What a job counts for in the work that comes up to a deadline: what all its slots cost, where it is
// released after the slot and its own deadline is up to that one.
pub fn coming_part(slot: u16, end: u16, release: u16, deadline: u16, cost: u32) -> u32
    ensures { (result ≡ cond (ltb slot release && leb deadline end) cost 0) × (result ≤ cost) }
{
    if slot < release && deadline <= end {
        cost
    } else {
        0
    }
}

// A job comes with a deadline below the chosen job's own, so slack energy is asked of it.
pub fn comes_before(slot: u16, release: u16, deadline: u16, own: u16) -> bool
    ensures { result ≡ (ltb slot release && ltb deadline own) }
{
    slot < release && deadline < own
}

// The level and the harvest up to a job's deadline do not cover the work that comes up to there and the
// chosen job's energy: that job leaves a slack energy below this energy.
pub fn leaves_too_little(level: u16, harvest: u32, coming: u32, energy: u16) -> bool
    ensures { result ≡ ltb (level + harvest) (coming + energy) }
{
    u64::from(level) + u64::from(harvest) < u64::from(coming) + u64::from(energy)
}
