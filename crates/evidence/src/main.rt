// Judges a plan or a claim for the day that stands in a sheet, from files, and prints in one line what
// the judge says:
//
//     evidence SHEET plan PLAN
//     evidence SHEET claim KIND START END
//
// The arguments are looked at first, then the sheet's file, then the plan's; only then is judged.
#![tactic(auto)]

mod argument;
mod file;

use std::env::Env;
use std::fs::Files;

// The places of the arguments; the program's own name stands at 0.
const SHEET: usize = 1;

const EVIDENCE: usize = 2;

const PLAN: usize = 3;

const KIND: usize = 3;

const START: usize = 4;

const END: usize = 5;

// How many arguments there are with a plan, and with a claim.
const WITH_PLAN: usize = 4;

const WITH_CLAIM: usize = 6;

fn print_usage() {
    print::word(b"usage: evidence SHEET plan PLAN, or evidence SHEET claim KIND START END\n");
}

// Judges a plan.
fn judge_plan<R: Env + Files>(rt: &R) {
    let mut sheet = [0u8; file::ROOM];
    let Some(sheet) = file::read(rt, SHEET, &mut sheet) else {
        return;
    };
    let mut plan = [0u8; file::ROOM];
    let Some(plan) = file::read(rt, PLAN, &mut plan) else {
        return;
    };
    judge_words::print_plan(sheet, plan);
}

// What a claim says: a kind, and the slots from `start` up to, not including, `end`.
#[derive(Clone, Copy)]
struct Claim {
    kind: u64,
    start: u64,
    end: u64,
}

// The claim in the arguments, where they are a kind and two numbers.
fn claimed(rt: &impl Env) -> Option<Claim> {
    Some(Claim {
        kind: argument::kind_at(rt, KIND)?,
        start: argument::number_at(rt, START)?,
        end: argument::number_at(rt, END)?,
    })
}

// Judges a claim where the arguments make one.
fn judge_claim<R: Env + Files>(rt: &R) {
    let Some(claim) = claimed(rt) else {
        print_usage();
        return;
    };
    let mut sheet = [0u8; file::ROOM];
    let Some(sheet) = file::read(rt, SHEET, &mut sheet) else {
        return;
    };
    judge_words::print_claim(sheet, claim.kind, claim.start, claim.end);
}

fn main(rt: HostRuntime) {
    let count = argument::count(&rt);
    if count == WITH_PLAN && argument::is_word(&rt, EVIDENCE, b"plan") {
        judge_plan(&rt);
    } else if count == WITH_CLAIM && argument::is_word(&rt, EVIDENCE, b"claim") {
        judge_claim(&rt);
    } else {
        print_usage();
    }
}
