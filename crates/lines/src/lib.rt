// A line of docs/TRIALS.md in the space that is lent for it, and what the lines have in common.
#![tactic(auto)]

ghost use Rattle.std.specs.Prelude.{◌≡◌, ◌<◌, ◌≤◌, length};

use sheet::{Job, Refusal, Table};
use std::{fmt, mem};

// A line: the first `end` bytes of the space. Where the space is full, what stands there is printed and
// the line goes on at its front.
#[derive(Drop)]
pub struct Line<'a> {
    space: &'a mut [u8],
    end: usize,
}

impl Line<'_> {
    // A line on which nothing stands yet.
    pub fn new(space: &mut [u8]) -> Line<'_>
        ensures { result.end ≡ 0 }
    {
        Line { space, end: 0 }
    }

    // A byte behind what stands there.
    fn push(&mut self, byte: u8)
        ensures { self.new.end ≤ length self.new.space.now }
    {
        if self.space.len() <= self.end {
            print::word(self.space);
            self.end = 0;
        }
        if self.end < self.space.len() {
            self.space[self.end] = byte;
            self.end += 1;
        }
    }

    // Bytes behind what stands there, one after the other.
    #[cold]
    #[inline(never)]
    fn push_all(&mut self, bytes: &[u8]) {
        for byte in bytes {
            self.push(*byte);
        }
    }

    // Bytes behind what stands there, at once; false, and no change, where they do not all have room.
    fn put(&mut self, bytes: &[u8]) -> bool {
        let Some(rest) = self.space.get_mut(self.end..) else {
            return false;
        };
        let Some(room) = rest.get_mut(..bytes.len()) else {
            return false;
        };
        // A word or a number of few bytes is put more quickly by itself than by a call that copies it.
        match bytes {
            [a] => room[0] = *a,
            [a, b] => {
                room[0] = *a;
                room[1] = *b;
            }
            [a, b, c] => {
                room[0] = *a;
                room[1] = *b;
                room[2] = *c;
            }
            [a, b, c, d] => {
                room[0] = *a;
                room[1] = *b;
                room[2] = *c;
                room[3] = *d;
            }
            _ => room.copy_from_slice(bytes),
        }
        self.end += bytes.len();
        true
    }

    // Ends the line, and prints what stands there. Then nothing does.
    pub fn print(&mut self)
        ensures { self.new.end ≡ 0 }
    {
        self.push(b'\n');
        let end = mem::replace(&mut self.end, 0);
        print::word(&self.space[..end]);
    }
}

impl fmt::Write for Line<'_> {
    fn write_str(&mut self, text: &str) -> fmt::Result {
        let bytes = text.as_bytes();
        if !self.put(bytes) {
            self.push_all(bytes);
        }
        Ok(())
    }
}

// So many bytes of HEX are written at a time.
const PART: usize = 32;

// Their digits, two for each.
const DIGITS: usize = 2 * PART;

// The hexadecimal digit of a number's lowest four bits.
fn digit(number: u8) -> u8
    ensures { result < 128 }
{
    let low = number % 16;
    if low < 10 {
        b'0' + low
    } else {
        b'a' + (low - 10)
    }
}

// Two digits for each of these bytes, in the space that is lent for them.
fn digits<'a>(bytes: &[u8], space: &'a mut [u8; DIGITS]) -> &'a str
    requires { length bytes.now ≤ PART }
{
    *space = [b'0'; DIGITS];
    for k in 0..bytes.len() {
        space[2 * k] = digit(bytes[k] / 16);
        space[2 * k + 1] = digit(bytes[k]);
    }
    unsafe { str::from_utf8_unchecked(&space[..2 * bytes.len()]) }
}

// HEX.
#[derive(Clone, Copy)]
pub struct Hex<'a>(pub &'a [u8]);

impl fmt::Display for Hex<'_> {
    fn fmt<W: fmt::Write>(&self, f: &mut fmt::Formatter<W>) -> fmt::Result {
        if self.0.is_empty() {
            return f.write_str("none");
        }
        let mut space = [0u8; DIGITS];
        for part in self.0.chunks(PART) {
            f.write_str(digits(part, &mut space))?;
        }
        Ok(())
    }
}

// REFUSAL, 1 to 6.
#[derive(Clone, Copy)]
pub struct Refused(pub Refusal);

impl fmt::Display for Refused {
    fn fmt<W: fmt::Write>(&self, f: &mut fmt::Formatter<W>) -> fmt::Result {
        let why = self.0;
        write!(f, "refused {}", sheet::number(why))?;
        match why {
            Refusal::Window(_) | Refusal::Work(_) => write!(f, " record {}", sheet::place(why)),
            _ => Ok(()),
        }
    }
}

// `accepted`, or REFUSAL.
#[derive(Clone, Copy)]
pub struct Checked(pub Result<(), Refusal>);

impl fmt::Display for Checked {
    fn fmt<W: fmt::Write>(&self, f: &mut fmt::Formatter<W>) -> fmt::Result {
        match self.0 {
            Ok(()) => f.write_str("accepted"),
            Err(why) => write!(f, "{}", Refused(why)),
        }
    }
}

// A place of a table.
#[derive(Clone, Copy)]
struct Place(Job);

impl fmt::Display for Place {
    fn fmt<W: fmt::Write>(&self, f: &mut fmt::Formatter<W>) -> fmt::Result {
        let j = self.0;
        write!(f, "{},{},{},{}", j.release, j.deadline, j.wanted, j.energy)
    }
}

// TABLE.
#[derive(Clone, Copy)]
pub struct Places(pub Table);

impl fmt::Display for Places {
    fn fmt<W: fmt::Write>(&self, f: &mut fmt::Formatter<W>) -> fmt::Result {
        let t = &self.0;
        write!(
            f,
            "count {} slots {} capacity {} places",
            t.count, t.slots, t.capacity
        )?;
        let Some(last) = t.jobs.iter().rposition(|j| *j != Job::default()) else {
            return f.write_str(" none");
        };
        for j in &t.jobs[..=last] {
            write!(f, " {}", Place(*j))?;
        }
        Ok(())
    }
}
