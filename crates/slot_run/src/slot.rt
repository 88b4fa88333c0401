// A slot of the day: the rules in it, what it does, and the state that it leaves.
ghost use Rattle.std.specs.Prelude.{◌≡◌, ◌+◌, ◌-◌, ◌<◌, ◌≤◌, get_or, set};
ghost use Rattle.sheet.specs.Checked.{the_day};
ghost use Rattle.sheet.specs.Table.{most_jobs, idle_byte, Day};
ghost use Rattle.totals.specs.Totals.{TotalsOf};
ghost use Rattle.columns.specs.Columns.{energies_from, ColumnsOf};
ghost use Rattle.rules.specs.Rules.{decision_says, rule_for, decided, next_state};
ghost use Rattle.slot_run.specs.Run.{plan_byte};
ghost use Rattle.slot_run.specs.Steps.{Shows};

use choice::State;
use rules::{Decision, IdleWhy};
use sheet::CheckedDay;

// A slot of a day, as its rules look at it: how many jobs there are, the capacity, the charge at hand in
// it, what the slots before it harvested, the state as it begins, and the columns and totals of its day.
// Nothing is looked up by the state's slot: one that is itself an index in the loop over the day is compared
// with releases and deadlines at an index's width, and the sums over the jobs take twice as long.
#[derive(Clone, Copy)]
pub struct Slot<'a> {
    pub count: usize,
    pub capacity: u16,
    pub charge: u32,
    pub harvested: u32,
    pub state: &'a State,
    pub jobs: &'a [u16; columns::LENGTH],
    pub totals: &'a [u32; totals::ENTRIES],
    ghost few: { count ≤ most_jobs },
    ghost of_a_day: { ∥ ((d : Day) × Shows d count capacity charge harvested state.now jobs.now totals.now) ∥₁ },
}

impl Slot<'_> {
    ghost use Rattle.slot_run.specs.Slots.{IsOf};

    // Rules 2 to 6 for the chosen job. The slacks are asked only where they decide, each only where it does.
    fn rule_for(&self, chosen: usize) -> Decision
        requires { chosen < self.now.count }
        ensures { (d : Day) → IsOf d self.now → decision_says result ≡ rule_for d self.now.state.now chosen }
    {
        let energy = self.jobs[columns::ENERGY + chosen];
        if rules::settles(self.charge, energy, self.capacity) {
            return rules::first_rule(chosen, self.charge, energy, self.capacity, false, false);
        }
        if self.no_slack() {
            return rules::first_rule(chosen, self.charge, energy, self.capacity, true, false);
        }
        let saves = self.needs_charge(chosen);
        rules::first_rule(chosen, self.charge, energy, self.capacity, false, saves)
    }

    // What the slot does: the first of the six rules that applies.
    pub fn decide(&self) -> Decision
        ensures { (d : Day) → IsOf d self.now → decision_says result ≡ decided d self.now.state.now }
    {
        match self.choose() {
            None => Decision::Idle(IdleWhy::None),
            Some(chosen) => self.rule_for(chosen),
        }
    }
}

// A busy slot goes to job k: one less is left of it. The answer is the energy that this costs.
fn spend(jobs: &[u16; columns::LENGTH], left: &mut [u16; sheet::MOST_JOBS], k: usize) -> u32
    requires { (k < most_jobs) × (1 ≤ get_or left.old k 0) }
    ensures cost { result ≡ get_or jobs.now (energies_from + k) 0 }
    ensures taken { left.new ≡ set left.old k (get_or left.old k 0 - 1) }
{
    left[k] -= 1;
    sheet::wide(jobs[columns::ENERGY + k])
}

// One slot of a day, for the run and for a single step, with the slot also as an index: what it does. The
// state is then as the next slot begins.
pub fn take_slot(
    day: CheckedDay,
    jobs: &[u16; columns::LENGTH],
    totals: &[u32; totals::ENTRIES],
    at: usize,
    s: &mut State,
) -> Decision
    requires columns { ColumnsOf day.table.now jobs.now }
    requires totals { TotalsOf day.harvest.now totals.now }
    requires in_day { (at ≡ s.old.slot) × (at < day.table.now.slots) }
    ensures decides { decision_says result ≡ decided (the_day day.entry) s.old }
    ensures next { s.new ≡ next_state (the_day day.entry) s.old }
{
    let charge = rules::at_hand(s.level, day.harvest[at]);
    let slot = Slot {
        count: day.table.count,
        capacity: day.table.capacity,
        charge,
        harvested: totals[at],
        state: s,
        jobs,
        totals,
    };
    let decision = slot.decide();
    let spent = match decision {
        Decision::Idle(_) => 0,
        Decision::Busy(k, _) => spend(jobs, &mut s.left, k),
    };
    s.slot += 1;
    s.level = sheet::cut(day.table.capacity, charge - spent);
    decision
}

// The plan's byte for a slot: the job's number, or 255 for idle.
pub fn plan_byte(decision: Decision) -> u8
    requires { plan_byte (decision_says decision) ≤ idle_byte }
    ensures { result ≡ plan_byte (decision_says decision) }
{
    match decision {
        Decision::Idle(_) => sheet::IDLE,
        Decision::Busy(k, _) => k as u8,
    }
}
