// The choice over the columns: the smallest deadline, ties the lowest number.
ghost use Rattle.std.specs.Prelude.{◌≡◌, Bool, ℕ, ◌<◌, ◌≤◌, IfSome};
ghost use Rattle.sheet.specs.Table.{most_jobs, Day};
ghost use Rattle.columns.specs.Columns.{ColumnsOf};
ghost use Rattle.choice.specs.declared.State.{State};
ghost use Rattle.choice.specs.Choosing.{smaller, earliest, ready, chosen, unfinished};
ghost use Rattle.slot_run.specs.Slots.{IsOf};
ghost use Rattle.slot_run.specs.Steps.{Callable, Answers, deadline_in};

use super::slot::Slot;

// Job k beside the choice among lower numbers: k only where its deadline is smaller.
fn beside(jobs: &[u16; columns::LENGTH], so_far: Option<usize>, k: usize) -> Option<usize>
    requires { (k < most_jobs) × IfSome so_far (λ m. m < k) }
    ensures { result ≡ smaller (deadline_in jobs.now) so_far k }
{
    match so_far {
        None => Some(k),
        Some(m) => {
            if jobs[columns::DEADLINE + k] < jobs[columns::DEADLINE + m] {
                Some(k)
            } else {
                so_far
            }
        }
    }
}

// Of the jobs that pass a test, the one with the smallest deadline, ties the lowest number.
fn earliest_job<F: Fn(usize) -> bool>(
    count: usize,
    jobs: &[u16; columns::LENGTH],
    test: F,
) -> Option<usize>
    requires few { count ≤ most_jobs }
    requires callable { Callable (F.pre test) count }
    ensures { (passes : ℕ → Bool) → Answers (F.post test) passes count → result ≡ earliest passes (deadline_in jobs.now) count }
{
    let mut so_far = None;
    for k in 0..count {
        if test(k) {
            so_far = beside(jobs, so_far, k);
        }
    }
    so_far
}

impl Slot<'_> {
    // Job k is ready: released, its deadline after the slot, slots still wanted. What is left of it is read first, so
    // that the compiled test begins there: as the day goes on, most jobs have all their slots.
    fn is_ready(&self, k: usize) -> bool
        requires { k < self.now.count }
        ensures { (d : Day) → IsOf d self.now → result ≡ ready d self.now.state.now k }
    {
        let left = self.state.left[k];
        choice::passes_test(
            true,
            self.state.slot,
            self.jobs[k],
            self.jobs[columns::DEADLINE + k],
            left,
        )
    }

    // The chosen job: of the ready ones, the smallest deadline, ties the lowest number.
    pub fn choose(&self) -> Option<usize>
        ensures { (d : Day) → IsOf d self.now → result ≡ chosen d self.now.state.now }
    {
        earliest_job(self.count, self.jobs, |k| self.is_ready(k))
    }
}

// The job unfinished at the smallest deadline, ties the lowest number.
pub fn find_unfinished(
    count: usize,
    jobs: &[u16; columns::LENGTH],
    left: &[u16; sheet::MOST_JOBS],
) -> Option<usize>
    requires { count ≤ most_jobs }
    ensures { (d : Day) (s : State) → ColumnsOf d.table jobs.now → d.table.count ≡ count → s.left ≡ left.now → result ≡ unfinished d s }
{
    earliest_job(
        count,
        jobs,
        |k| choice::passes_test(false, 0, jobs[k], jobs[columns::DEADLINE + k], left[k]),
    )
}
