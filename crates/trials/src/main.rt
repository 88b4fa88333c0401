// Reads requests from standard input, makes the call of each, and prints a line with the answer and
// every buffer that was lent (docs/TRIALS.md has the requests and the lines).
#![tactic(auto)]

ghost use Rattle.std.specs.Prelude.{◌≤◌};

use lines::Line;
use std::fmt::Write;

const STANDARD_INPUT: i32 = 0;

// A request starts with its kind and the length of its payload.
const HEAD: usize = 5;

const LENGTH_FROM: usize = 1;

// The longest payload that is taken, in bytes.
const MOST_PAYLOAD: usize = 262144;

// What of a line is printed at a time.
const LINE: usize = 65536;

// Makes the call of a request whose payload has its kind's parts, and puts its line into `out`. Each of
// the four that answer puts nothing there for a kind of another.
fn line(kind: u8, payload: &[u8], space: &mut [u8], out: &mut Line<'_>) -> Option<()> {
    sheet_answers::line(kind, payload, space, out)
        .or_else(|| run_answers::line(kind, payload, out))
        .or_else(|| plan_answers::line(kind, payload, space, out))
        .or_else(|| judge_answers::line(kind, payload, out))
        .or_else(|| write!(out, "unknown").ok())
}

// Answers a request.
fn answer(kind: u8, payload: &[u8], space: &mut [u8], out: &mut [u8]) {
    if requests::end(kind, payload) != Some(payload.len()) {
        print::word(b"malformed\n");
        return;
    }
    if kind == b'D' {
        listing::print_day(requests::bytes_at(payload, 0));
        return;
    }
    let mut out = Line::new(out);
    line(kind, payload, space, &mut out);
    out.print();
}

// Reads at most so many bytes of the input, into the space, and answers how many.
fn read_some(most: usize, space: &mut [u8]) -> usize
    ensures { result ≤ most }
{
    let room = most.min(space.len());
    io::read_full(STANDARD_INPUT, &mut space[..room])
}

// Reads past so many bytes of the input; false where it ends before.
fn read_past(count: usize, space: &mut [u8]) -> bool {
    let mut left = count;
    while 0 < left {
        let got = read_some(left, space);
        if got == 0 {
            return false;
        }
        left -= got;
    }
    true
}

// Prints the line of a request that the input does not hold whole, and answers that it is the last.
fn cut_off() -> bool {
    print::word(b"cut off\n");
    false
}

// Reads the payload of that length behind a head, and answers the request; false where the input ends
// before the payload does.
fn answer_next(kind: u8, length: usize, room: &mut [u8], space: &mut [u8], out: &mut [u8]) -> bool {
    if room.len() < length {
        if !read_past(length, room) {
            return cut_off();
        }
        print::word(b"too long\n");
        return true;
    }
    let payload = &mut room[..length];
    if io::read_full(STANDARD_INPUT, payload) < length {
        return cut_off();
    }
    answer(kind, payload, space, out);
    true
}

// Answers the next request of the input; false where there is none, or not all of one.
fn next(room: &mut [u8], space: &mut [u8], out: &mut [u8]) -> bool {
    let mut head = [0u8; HEAD];
    let got = io::read_full(STANDARD_INPUT, &mut head);
    if got == 0 {
        return false;
    }
    if got < HEAD {
        return cut_off();
    }
    let length = requests::u32_at(&head, LENGTH_FROM) as usize;
    answer_next(head[0], length, room, space, out)
}

// A proved loop has to end, and nothing says that the input does. So its turns are counted, up to a
// number that no run reaches.
fn answer_all(room: &mut [u8], space: &mut [u8], out: &mut [u8]) {
    for _ in 0..u64::MAX {
        if !next(room, space, out) {
            return;
        }
    }
}

fn main() {
    let mut room = [0u8; MOST_PAYLOAD];
    let mut space = [0u8; MOST_PAYLOAD];
    let mut out = [0u8; LINE];
    answer_all(&mut room, &mut space, &mut out);
}
