// The calls of `sheet`, `reader` and `writer` that a request asks for, and the line of each
// (docs/TRIALS.md).
#![tactic(auto)]

use lines::{Checked, Hex, Line, Places, Refused};
use std::fmt;
use std::fmt::Write;
use writer::WriteRefusal;

// Behind the sheet of a stretch stand its count and then its slots.
const SLOTS_FROM: usize = 8;

// `sheet::check`.
fn check(payload: &[u8], out: &mut Line<'_>) -> fmt::Result {
    let answer = sheet::check(requests::table_in(payload), requests::harvest_in(payload));
    write!(out, "check {}", Checked(answer))
}

// `reader::read`.
fn read(payload: &[u8], out: &mut Line<'_>) -> fmt::Result {
    let reading = reader::read(requests::bytes_at(payload, 0));
    write!(
        out,
        "read {} {}",
        Checked(reading.outcome),
        Places(reading.table)
    )
}

// `reader::harvest`.
fn harvest(payload: &[u8], out: &mut Line<'_>) -> fmt::Result {
    let bytes = reader::harvest(requests::bytes_at(payload, 0));
    write!(out, "harvest {}", Hex(bytes))
}

// `reader::stretch`.
fn stretch(payload: &[u8], out: &mut Line<'_>) -> fmt::Result {
    let bytes = requests::bytes_at(payload, 0);
    let counts = requests::behind(payload, requests::behind_bytes(payload, 0));
    let count = requests::u64_at(counts, 0) as usize;
    let slots = requests::u16_at(counts, SLOTS_FROM);
    write!(out, "stretch {}", Hex(reader::stretch(bytes, count, slots)))
}

// The writer's answer.
#[derive(Clone, Copy)]
struct Answer(Result<usize, WriteRefusal>);

impl fmt::Display for Answer {
    fn fmt<W: fmt::Write>(&self, f: &mut fmt::Formatter<W>) -> fmt::Result {
        match self.0 {
            Ok(length) => write!(f, "length {length}"),
            Err(WriteRefusal::HandedIn(why)) => write!(f, "{}", Refused(why)),
            Err(WriteRefusal::NoRoom) => write!(f, "refused {}", writer::NO_ROOM),
        }
    }
}

// `writer::write`.
fn write(payload: &[u8], space: &mut [u8], out: &mut Line<'_>) -> fmt::Result {
    let room = requests::lend(payload, requests::behind_harvest(payload), space);
    let buffer = &mut space[..room];
    let t = requests::table_in(payload);
    let answer = writer::write(t, requests::harvest_in(payload), buffer);
    write!(out, "write {} buffer {}", Answer(answer), Hex(buffer))
}

// Makes the call of a request of these kinds, whose payload has its kind's parts, and puts its line into
// `out`; the bytes of a buffer that the call is lent stand in `space`. Nothing is made or put there where
// the kind is another. (A `Line` takes whatever is written to it.)
pub fn line(kind: u8, payload: &[u8], space: &mut [u8], out: &mut Line<'_>) -> Option<()> {
    match kind {
        b'C' => check(payload, out).ok(),
        b'R' => read(payload, out).ok(),
        b'H' => harvest(payload, out).ok(),
        b'X' => stretch(payload, out).ok(),
        b'W' => write(payload, space, out).ok(),
        _ => None,
    }
}
