// The six rules of the slot run, and what a slot leaves.
#![tactic(auto)]

ghost use Rattle.std.specs.Prelude.{◌≡◌, ◌||◌, ◌+◌, ltb};
ghost use Rattle.sheet.specs.Table.{counted_as};
ghost use Rattle.rules.specs.Rules.{decision_says, first_rule};

use std::fmt;

// Why a slot is busy.
#[derive(Clone, Copy, Debug, PartialEq, Eq)]
pub enum BusyWhy {
    // Rule 3: what is at hand is above capacity, and would spill.
    Full,
    // Rule 4: slack time is 0 or less.
    NoSlack,
    // Rule 6: neither time nor coming work forbids it.
    Free,
}

impl fmt::Display for BusyWhy {
    fn fmt<W: fmt::Write>(&self, f: &mut fmt::Formatter<W>) -> fmt::Result {
        match self {
            BusyWhy::Full => f.write_str("full"),
            BusyWhy::NoSlack => f.write_str("noslack"),
            BusyWhy::Free => f.write_str("free"),
        }
    }
}

// Why a slot is idle.
#[derive(Clone, Copy, Debug, PartialEq, Eq)]
pub enum IdleWhy {
    // Rule 1: no job is ready.
    None,
    // Rule 2: the chosen job costs more than is at hand.
    Empty,
    // Rule 5: coming work needs the charge.
    Saving,
}

impl fmt::Display for IdleWhy {
    fn fmt<W: fmt::Write>(&self, f: &mut fmt::Formatter<W>) -> fmt::Result {
        match self {
            IdleWhy::None => f.write_str("none"),
            IdleWhy::Empty => f.write_str("empty"),
            IdleWhy::Saving => f.write_str("saving"),
        }
    }
}

// What a slot does: busy with a job, or idle, and why.
#[derive(Clone, Copy, Debug, PartialEq, Eq)]
pub enum Decision {
    Busy(usize, BusyWhy),
    Idle(IdleWhy),
}

// The charge at hand in a slot: the level and what its harvest byte counts for.
pub fn at_hand(level: u16, byte: u8) -> u32
    ensures { result ≡ level + counted_as byte }
{
    u32::from(level) + u32::from(sheet::counted(byte))
}

// Rule 2 or rule 3 applies, so that nothing hangs on the slacks.
pub fn settles(charge: u32, energy: u16, capacity: u16) -> bool
    ensures { result ≡ (ltb charge energy || ltb capacity charge) }
{
    if charge < energy as u32 {
        return true;
    }
    (capacity as u32) < charge
}

// The first of rules 2 to 6 that applies to the chosen job: from the charge at hand, the job's energy
// and the capacity, whether slack time is 0 or less, and whether slack energy is below that energy.
// Where rule 2 or rule 3 applies, nothing hangs on the last two.
pub fn first_rule(
    chosen: usize,
    charge: u32,
    energy: u16,
    capacity: u16,
    no_slack: bool,
    saves: bool,
) -> Decision
    ensures { decision_says result ≡ first_rule charge energy capacity no_slack saves chosen }
{
    if charge < energy as u32 {
        return Decision::Idle(IdleWhy::Empty);
    }
    if (capacity as u32) < charge {
        return Decision::Busy(chosen, BusyWhy::Full);
    }
    if no_slack {
        return Decision::Busy(chosen, BusyWhy::NoSlack);
    }
    if saves {
        return Decision::Idle(IdleWhy::Saving);
    }
    Decision::Busy(chosen, BusyWhy::Free)
}
