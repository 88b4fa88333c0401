// The judge's calls that a request asks for, and the line of each (docs/TRIALS.md).
#![tactic(auto)]

use judge::{ClaimRefusal, PlanFault, PlanRefusal, Sums};
use lines::{Line, Refused};
use std::fmt;
use std::fmt::Write;

// In a claim the start stands behind the kind, and the end behind the start.
const START_FROM: usize = 8;

const END_FROM: usize = 16;

// REFUSAL, 11 to 16.
#[derive(Clone, Copy)]
struct Fault(PlanFault);

impl fmt::Display for Fault {
    fn fmt<W: fmt::Write>(&self, f: &mut fmt::Formatter<W>) -> fmt::Result {
        let fault = self.0;
        write!(f, "refused {}", judge::number(fault))?;
        match fault {
            PlanFault::WrongLength => Ok(()),
            PlanFault::LacksSlots(k) => write!(f, " job {k}"),
            _ => write!(f, " slot {}", judge::place(fault)),
        }
    }
}

// The judge's answer to a plan.
#[derive(Clone, Copy)]
struct Judged(Result<(), PlanRefusal>);

impl fmt::Display for Judged {
    fn fmt<W: fmt::Write>(&self, f: &mut fmt::Formatter<W>) -> fmt::Result {
        match self.0 {
            Ok(()) => f.write_str("accepted"),
            Err(PlanRefusal::HandedIn(why)) => write!(f, "{}", Refused(why)),
            Err(PlanRefusal::Plan(fault)) => write!(f, "{}", Fault(fault)),
        }
    }
}

// `judge::plan_on_sheet`.
fn plan_on_sheet(payload: &[u8], out: &mut Line<'_>) -> fmt::Result {
    let plan = requests::behind(payload, requests::behind_bytes(payload, 0));
    let answer = judge::plan_on_sheet(requests::bytes_at(payload, 0), requests::bytes_at(plan, 0));
    write!(out, "judge {}", Judged(answer))
}

// `judge::plan_on_table`.
fn plan_on_table(payload: &[u8], out: &mut Line<'_>) -> fmt::Result {
    let plan = requests::behind(payload, requests::behind_harvest(payload));
    let answer = judge::plan_on_table(
        requests::table_in(payload),
        requests::harvest_in(payload),
        requests::bytes_at(plan, 0),
    );
    write!(out, "judge {}", Judged(answer))
}

// The judge's answer to a claim: behind `accepted` and 18 stands what was weighed.
#[derive(Clone, Copy)]
struct Claimed(Result<Sums, ClaimRefusal>);

impl fmt::Display for Claimed {
    fn fmt<W: fmt::Write>(&self, f: &mut fmt::Formatter<W>) -> fmt::Result {
        let number = judge::claim_number(self.0);
        match self.0 {
            Ok(sums) => write!(f, "accepted {sums}"),
            Err(ClaimRefusal::HandedIn(why)) => write!(f, "{}", Refused(why)),
            Err(ClaimRefusal::NoInterval) => write!(f, "refused {number}"),
            Err(ClaimRefusal::NotOverloaded(sums)) => write!(f, "refused {number} {sums}"),
        }
    }
}

// `judge::claim_on_sheet`.
fn claim_on_sheet(payload: &[u8], out: &mut Line<'_>) -> fmt::Result {
    let claim = requests::behind(payload, requests::behind_bytes(payload, 0));
    let answer = judge::claim_on_sheet(
        requests::bytes_at(payload, 0),
        requests::u64_at(claim, 0),
        requests::u64_at(claim, START_FROM),
        requests::u64_at(claim, END_FROM),
    );
    write!(out, "claim {}", Claimed(answer))
}

// `judge::claim_on_table`.
fn claim_on_table(payload: &[u8], out: &mut Line<'_>) -> fmt::Result {
    let claim = requests::behind(payload, requests::behind_harvest(payload));
    let answer = judge::claim_on_table(
        requests::table_in(payload),
        requests::harvest_in(payload),
        requests::u64_at(claim, 0),
        requests::u64_at(claim, START_FROM),
        requests::u64_at(claim, END_FROM),
    );
    write!(out, "claim {}", Claimed(answer))
}

// Makes the call of a request of these kinds, whose payload has its kind's parts, and puts its line into
// `out`. Nothing is made or put there where the kind is another. (A `Line` takes
// whatever is written to it.)
pub fn line(kind: u8, payload: &[u8], out: &mut Line<'_>) -> Option<()> {
    match kind {
        b'J' => plan_on_sheet(payload, out).ok(),
        b'K' => plan_on_table(payload, out).ok(),
        b'I' => claim_on_sheet(payload, out).ok(),
        b'L' => claim_on_table(payload, out).ok(),
        _ => None,
    }
}
