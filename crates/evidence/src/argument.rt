// The program's arguments: words, kinds and numbers.
ghost use Rattle.std.specs.Prelude.{◌≡◌, ◌≤◌, length, min, ◌+◌, ◌*◌};
ghost use Rattle.evidence.specs.Decimal.{largest, number_in};

use std::env::{Env, FillError};

// The longest argument that Linux hands to a program, in bytes.
pub const LONGEST: usize = 131072;

// More arguments than any use of the program has.
const TOO_MANY: usize = 7;

// Whether there is an argument at a place.
fn is_there(rt: &impl Env, place: usize) -> bool {
    let mut text = [0u8; 1];
    !matches!(rt.arg(place, &mut text), Err(FillError::NotPresent))
}

// How many arguments the program was started with, its own name among them; 7 where there are more.
pub fn count(rt: &impl Env) -> usize {
    (0..TOO_MANY)
        .take_while(|&place| is_there(rt, place))
        .count()
}

// The argument at a place, in the room that is lent for it; empty where there is none.
pub fn read<'a>(rt: &impl Env, place: usize, room: &'a mut [u8]) -> &'a [u8]
    ensures { length result.now ≤ length room.old }
{
    match rt.arg(place, room) {
        Ok(length) => &room[..length],
        Err(_) => &room[..0],
    }
}

// Whether the argument at a place is this word.
pub fn is_word(rt: &impl Env, place: usize, word: &[u8]) -> bool {
    let mut room = [0u8; LONGEST];
    read(rt, place, &mut room) == word
}

// A number with one more decimal digit behind it; 2^64 - 1 where that is above it.
fn with_digit(number: u64, digit: u8) -> u64
    ensures { result ≡ min largest (10 * number + digit) }
{
    number.saturating_mul(10).saturating_add(u64::from(digit))
}

// The number that a text of decimal digits writes, where it is one; above 2^64 - 1 it is taken as 2^64 - 1.
fn decimal(text: &[u8]) -> Option<u64>
    ensures { result ≡ number_in text.now }
{
    if text.is_empty() {
        return None;
    }
    let mut number: u64 = 0;
    for &byte in text {
        if !byte.is_ascii_digit() {
            return None;
        }
        number = with_digit(number, byte - b'0');
    }
    Some(number)
}

// The number in the argument at a place.
pub fn number_at(rt: &impl Env, place: usize) -> Option<u64> {
    let mut room = [0u8; LONGEST];
    decimal(read(rt, place, &mut room))
}

// The number of the kind in the argument at a place: `time`, `energy` or a number.
pub fn kind_at(rt: &impl Env, place: usize) -> Option<u64> {
    let mut room = [0u8; LONGEST];
    match read(rt, place, &mut room) {
        b"time" => Some(judge::TIME),
        b"energy" => Some(judge::ENERGY),
        text => decimal(text),
    }
}
