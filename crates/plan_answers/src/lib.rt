// The calls of `demand` and `planner` that a request asks for, and the line of each (docs/TRIALS.md).
#![tactic(auto)]

use demand::Overload;
use lines::{Hex, Line, Refused};
use planner::{Planned, PlannerRefusal};
use sheet::Refusal;
use std::fmt;
use std::fmt::Write;

// The search's answer.
#[derive(Clone, Copy)]
struct Found(Result<Option<Overload>, Refusal>);

impl fmt::Display for Found {
    fn fmt<W: fmt::Write>(&self, f: &mut fmt::Formatter<W>) -> fmt::Result {
        match self.0 {
            Ok(Some(o)) => write!(f, "{o}"),
            Ok(None) => f.write_str("clear"),
            Err(why) => write!(f, "{}", Refused(why)),
        }
    }
}

// `demand::search`.
fn search(payload: &[u8], out: &mut Line<'_>) -> fmt::Result {
    let answer = demand::search(requests::table_in(payload), requests::harvest_in(payload));
    write!(out, "search {}", Found(answer))
}

// The planner's answer.
#[derive(Clone, Copy)]
struct Verdict(Result<Planned, PlannerRefusal>);

impl fmt::Display for Verdict {
    fn fmt<W: fmt::Write>(&self, f: &mut fmt::Formatter<W>) -> fmt::Result {
        match self.0 {
            Ok(planned) => write!(f, "{planned}"),
            Err(PlannerRefusal::HandedIn(why)) => write!(f, "{}", Refused(why)),
            Err(PlannerRefusal::WrongPlan) => write!(f, "refused {}", planner::WRONG_PLAN),
        }
    }
}

// `planner::plan_sheet`.
fn plan_sheet(payload: &[u8], space: &mut [u8], out: &mut Line<'_>) -> fmt::Result {
    let room = requests::lend(payload, requests::behind_bytes(payload, 0), space);
    let buffer = &mut space[..room];
    let answer = planner::plan_sheet(requests::bytes_at(payload, 0), buffer);
    write!(out, "plan {} buffer {}", Verdict(answer), Hex(buffer))
}

// `planner::plan_table`.
fn plan_table(payload: &[u8], space: &mut [u8], out: &mut Line<'_>) -> fmt::Result {
    let room = requests::lend(payload, requests::behind_harvest(payload), space);
    let buffer = &mut space[..room];
    let t = requests::table_in(payload);
    let answer = planner::plan_table(t, requests::harvest_in(payload), buffer);
    write!(out, "plan {} buffer {}", Verdict(answer), Hex(buffer))
}

// Makes the call of a request of these kinds, whose payload has its kind's parts, and puts its line into
// `out`; the bytes of a plan buffer that the call is lent stand in `space`. Nothing is made or put there
// where the kind is another. (A `Line` takes whatever is written to it.)
pub fn line(kind: u8, payload: &[u8], space: &mut [u8], out: &mut Line<'_>) -> Option<()> {
    match kind {
        b'S' => search(payload, out).ok(),
        b'P' => plan_sheet(payload, space, out).ok(),
        b'Q' => plan_table(payload, space, out).ok(),
        _ => None,
    }
}
