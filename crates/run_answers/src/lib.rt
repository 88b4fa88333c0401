// The calls of `slot_run` that a request asks for, and the line of each (docs/TRIALS.md).
#![tactic(auto)]

use lines::{Checked, Line, Refused};
use sheet::Refusal;
use slot_run::{Decision, State};
use std::fmt;
use std::fmt::Write;

// In a state the level stands behind the slot.
const LEVEL_FROM: usize = 2;

// STATE.
#[derive(Clone, Copy)]
struct Left(State);

impl fmt::Display for Left {
    fn fmt<W: fmt::Write>(&self, f: &mut fmt::Formatter<W>) -> fmt::Result {
        let s = &self.0;
        write!(f, "slot {} level {} left ", s.slot, s.level)?;
        match s.left.iter().rposition(|left| *left != 0) {
            Some(last) => f.write_joined(s.left[..=last].iter(), ","),
            None => f.write_str("none"),
        }
    }
}

// `slot_run::begin`.
fn begin(payload: &[u8], out: &mut Line<'_>) -> fmt::Result {
    let start = slot_run::begin(requests::table_in(payload), requests::harvest_in(payload));
    write!(
        out,
        "begin {} {}",
        Checked(start.outcome),
        Left(start.state)
    )
}

// The state that stands behind a table and its harvest.
fn state_in(payload: &[u8]) -> State {
    let state = requests::behind(payload, requests::behind_harvest(payload));
    State {
        slot: requests::u16_at(state, 0),
        level: requests::u16_at(state, LEVEL_FROM),
        left: requests::left_in(state),
    }
}

// The step's answer: what a slot does, and why.
#[derive(Clone, Copy)]
struct Answer(Result<Option<Decision>, Refusal>);

impl fmt::Display for Answer {
    fn fmt<W: fmt::Write>(&self, f: &mut fmt::Formatter<W>) -> fmt::Result {
        match self.0 {
            Ok(Some(Decision::Busy(k, why))) => write!(f, "busy {k} {why}"),
            Ok(Some(Decision::Idle(why))) => write!(f, "idle {why}"),
            Ok(None) => f.write_str("over"),
            Err(why) => write!(f, "{}", Refused(why)),
        }
    }
}

// `slot_run::step`.
fn step(payload: &[u8], out: &mut Line<'_>) -> fmt::Result {
    let t = requests::table_in(payload);
    let taken = slot_run::step(t, requests::harvest_in(payload), state_in(payload));
    write!(out, "step {} {}", Answer(taken.answer), Left(taken.state))
}

// Makes the call of a request of these kinds, whose payload has its kind's parts, and puts its line into
// `out`. Nothing is made or put there where the kind is another. (A `Line` takes
// whatever is written to it.)
pub fn line(kind: u8, payload: &[u8], out: &mut Line<'_>) -> Option<()> {
    match kind {
        b'B' => begin(payload, out).ok(),
        b'N' => step(payload, out).ok(),
        _ => None,
    }
}
