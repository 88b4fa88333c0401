// A state of the run, and the choice among its jobs: the smallest deadline, ties the lowest number.
#![tactic(auto)]

ghost use Rattle.std.specs.Prelude.{◌≡◌, not, ◌&&◌, ◌||◌, ltb, leb};

// A state of the run, as a slot begins: the slot, the charge level, and the slots that each job
// still wants. What stands beyond the table's last job is never looked at, and is handed on.
#[derive(Clone, Copy, Debug, PartialEq, Eq)]
pub struct State {
    pub slot: u16,
    pub level: u16,
    pub left: [u16; sheet::MOST_JOBS],
}

// A job is ready in the slot: released, its deadline after the slot, slots still wanted.
fn is_ready(slot: u16, release: u16, deadline: u16, left: u16) -> bool
    ensures { result ≡ (leb release slot && ltb slot deadline && ltb 0 left) }
{
    release <= slot && slot < deadline && 0 < left
}

// A job comes into question: it still wants slots, and where only ready jobs are asked for it is
// released and its deadline is after the slot.
pub fn passes_test(only_ready: bool, slot: u16, release: u16, deadline: u16, left: u16) -> bool
    ensures { result ≡ ((not only_ready || (leb release slot && ltb slot deadline)) && ltb 0 left) }
{
    if only_ready {
        is_ready(slot, release, deadline, left)
    } else {
        0 < left
    }
}
