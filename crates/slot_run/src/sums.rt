// The two slacks over the columns, of one job after the other. The two inner sums read every number
// before it is known to count, so that several jobs are added at once.
ghost use Rattle.std.specs.Prelude.{◌≡◌, ◌&&◌, ℕ, Bool, cond, ◌<◌, ◌≤◌};
ghost use Rattle.sheet.specs.Sums.{total, some, most_cost};
ghost use Rattle.sheet.specs.Table.{most_jobs, job_of, cost_of, Day};
ghost use Rattle.choice.specs.Choosing.{deadline_of, left_of};
ghost use Rattle.slacks.specs.Slack.{exactly, zero_or_less, is_below, wants, is_pending, pending, slack_time_at, slack_time, comes_before, is_coming, coming, slack_energy_at, slack_energy};
ghost use Rattle.slot_run.specs.Slots.{IsOf};
ghost use Rattle.slot_run.specs.Steps.{Callable, Answers};

use super::slot::Slot;

// The sum over the jobs of what each counts for.
fn sum_over<F: Fn(usize) -> u32>(count: usize, part: F) -> u32
    requires few { count ≤ most_jobs }
    requires callable { Callable (F.pre part) count }
    requires small { (k r : ℕ) → k < count → F.post part k r → r ≤ most_cost }
    ensures { (f : ℕ → ℕ) → Answers (F.post part) f count → result ≡ total f count }
{
    let mut sum = 0;
    for k in 0..count {
        sum += part(k);
    }
    sum
}

// Some job passes a test.
fn some_job<F: Fn(usize) -> bool>(count: usize, test: F) -> bool
    requires { Callable (F.pre test) count }
    ensures { (f : ℕ → Bool) → Answers (F.post test) f count → result ≡ some f count }
{
    for k in 0..count {
        if test(k) {
            return true;
        }
    }
    false
}

impl Slot<'_> {
    // ---- slack time

    // What job i counts for in the work pending up to a deadline.
    fn pending_part(&self, end: u16, i: usize) -> u32
        requires { i < self.now.count }
        ensures is { (d : Day) → IsOf d self.now → result ≡ cond (is_pending d self.now.state.now end i) (left_of self.now.state.now i) 0 }
        ensures small { result ≤ most_cost }
    {
        slacks::pending_part(
            self.state.slot,
            end,
            self.jobs[columns::DEADLINE + i],
            self.state.left[i],
        )
    }

    // The work pending up to a deadline.
    fn pending_up_to(&self, end: u16) -> u32
        ensures { (d : Day) → IsOf d self.now → result ≡ pending d self.now.state.now end }
    {
        sum_over(self.count, |i| self.pending_part(end, i))
    }

    // Job k still wants slots, and by itself leaves a slack time of 0 or less: the work pending up to its
    // deadline fills the time to it.
    fn lacks_time(&self, k: usize) -> bool
        requires { k < self.now.count }
        ensures { (d : Day) → IsOf d self.now → result ≡ (wants d self.now.state.now k && zero_or_less (exactly (slack_time_at d self.now.state.now k))) }
    {
        let slot = self.state.slot;
        let end = self.jobs[columns::DEADLINE + k];
        slacks::wants_slots(slot, end, self.state.left[k])
            && slacks::leaves_no_time(slot, end, self.pending_up_to(end))
    }

    // Slack time is 0 or less: some job lacks the time.
    pub fn no_slack(&self) -> bool
        ensures { (d : Day) → IsOf d self.now → result ≡ zero_or_less (slack_time d self.now.state.now) }
    {
        some_job(self.count, |k| self.lacks_time(k))
    }

    // ---- slack energy, in which what is left of the jobs plays no part

    // What job i counts for in the cost of the work that comes up to a deadline.
    fn coming_part(&self, end: u16, i: usize) -> u32
        requires { i < self.now.count }
        ensures is { (d : Day) → IsOf d self.now → result ≡ cond (is_coming d self.now.state.now end i) (cost_of (job_of d.table i)) 0 }
        ensures small { result ≤ most_cost }
    {
        let cost = sheet::cost(
            self.jobs[columns::WANTED + i],
            self.jobs[columns::ENERGY + i] as u8,
        );
        slacks::coming_part(
            self.state.slot,
            end,
            self.jobs[i],
            self.jobs[columns::DEADLINE + i],
            cost,
        )
    }

    // The cost of the work that comes up to a deadline.
    fn coming_up_to(&self, end: u16) -> u32
        ensures { (d : Day) → IsOf d self.now → result ≡ coming d self.now.state.now end }
    {
        sum_over(self.count, |i| self.coming_part(end, i))
    }

    // Job k comes with a deadline below the chosen job's, and by itself leaves a slack energy below the
    // chosen job's energy: the level and the harvest up to its deadline do not cover the work coming up to
    // there and this energy.
    fn lacks_charge(&self, chosen: usize, k: usize) -> bool
        requires { (chosen < self.now.count) × (k < self.now.count) }
        ensures { (d : Day) → IsOf d self.now → result ≡ (comes_before d self.now.state.now (deadline_of d chosen) k && is_below (exactly (slack_energy_at d self.now.state.now k)) (job_of d.table chosen).energy) }
    {
        let slot = self.state.slot;
        let end = self.jobs[columns::DEADLINE + k];
        let own = self.jobs[columns::DEADLINE + chosen];
        slacks::comes_before(slot, self.jobs[k], end, own)
            && slacks::leaves_too_little(
                self.state.level,
                self.totals[end as usize] - self.harvested,
                self.coming_up_to(end),
                self.jobs[columns::ENERGY + chosen],
            )
    }

    // Slack energy is below the chosen job's energy: some job lacks the charge.
    pub fn needs_charge(&self, chosen: usize) -> bool
        requires { chosen < self.now.count }
        ensures { (d : Day) → IsOf d self.now → result ≡ is_below (slack_energy d self.now.state.now (deadline_of d chosen)) (job_of d.table chosen).energy }
    {
        some_job(self.count, |k| self.lacks_charge(chosen, k))
    }
}
