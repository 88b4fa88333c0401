// The parts of a request's payload, as docs/TRIALS.md lays them out: where each ends, and what
// stands in it. Every function takes any bytes.
#![tactic(auto)]

ghost use Rattle.std.specs.Prelude.{◌≤◌, ◌<◌, length};

use sheet::{Job, Table};
use std::array;

// The bytes of a u16, a u32 and a u64.
const SHORT: usize = 2;

const MIDDLE: usize = 4;

const LONG: usize = 8;

// The jobs of a table stand behind its count, its slots, its capacity and the number of jobs given,
// and each has 7 bytes.
const SLOTS_FROM: usize = 8;

const CAPACITY_FROM: usize = 10;

const GIVEN_FROM: usize = 12;

const JOBS_FROM: usize = 13;

const JOB: usize = 7;

// The bytes of a state: the slot, the level and what each of 64 places has left.
const LEFT_FROM: usize = 4;

const STATE: usize = LEFT_FROM + SHORT * sheet::MOST_JOBS;

// The bytes of a claim: its kind, its start and its end.
const CLAIM: usize = 3 * LONG;

// So many bytes from a place on; zeros where the bytes do not hold them all.
fn array_at<const N: usize>(bytes: &[u8], at: usize) -> [u8; N] {
    bytes
        .get(at..)
        .and_then(|part| part.first_chunk())
        .copied()
        .unwrap_or([0; N])
}

// The number in the two bytes from a place on, the lower first; 0 where the bytes do not hold both.
pub fn u16_at(bytes: &[u8], at: usize) -> u16 {
    u16::from_le_bytes(array_at(bytes, at))
}

// The number in the four bytes from a place on, the lowest first; 0 where the bytes do not hold all.
pub fn u32_at(bytes: &[u8], at: usize) -> u64
    ensures { result < 4294967296 }
{
    u64::from(u32::from_le_bytes(array_at(bytes, at)))
}

// The number in the eight bytes from a place on, the lowest first; 0 where the bytes do not hold all.
pub fn u64_at(bytes: &[u8], at: usize) -> u64 {
    u64::from_le_bytes(array_at(bytes, at))
}

// The bytes from a place on; none where there is no such place.
pub fn behind(bytes: &[u8], from: Option<usize>) -> &[u8] {
    from.and_then(|place| bytes.get(place..)).unwrap_or(&[])
}

// The place behind so many bytes from a place on; None where the payload does not hold them.
fn place_behind(payload: &[u8], at: usize, count: usize) -> Option<usize> {
    let place = at.checked_add(count)?;
    (place <= payload.len()).then_some(place)
}

// The length that `bytes` start with, at a place.
fn length_at(payload: &[u8], at: usize) -> usize {
    u32_at(payload, at) as usize
}

// The place behind the `bytes` that start at a place: a length and that many bytes.
pub fn behind_bytes(payload: &[u8], at: usize) -> Option<usize> {
    let from = place_behind(payload, at, MIDDLE)?;
    place_behind(payload, from, length_at(payload, at))
}

// The `bytes` that start at a place.
fn held_at(payload: &[u8], at: usize) -> Option<&[u8]> {
    let length = length_at(payload, at);
    payload.get(at..)?.get(MIDDLE..)?.get(..length)
}

// The `bytes` that start at a place; none where the payload does not hold them.
pub fn bytes_at(payload: &[u8], at: usize) -> &[u8] {
    held_at(payload, at).unwrap_or(&[])
}

// How many jobs the table gives that a payload starts with.
fn given_in(payload: &[u8]) -> usize
    ensures { result ≤ 255 }
{
    usize::from(payload.get(GIVEN_FROM).copied().unwrap_or(0))
}

// The place behind the table that a payload starts with; None too where it gives more than 64 jobs.
fn behind_table(payload: &[u8]) -> Option<usize> {
    let given = given_in(payload);
    if sheet::MOST_JOBS < given {
        return None;
    }
    place_behind(payload, 0, JOBS_FROM + JOB * given)
}

// The place behind the table and the harvest that a payload starts with.
pub fn behind_harvest(payload: &[u8]) -> Option<usize> {
    behind_bytes(payload, behind_table(payload)?)
}

// A job of a table, in the 7 bytes from a place on; zeros where the bytes do not hold it.
fn job_at(bytes: &[u8], at: usize) -> Job {
    let job: [u8; JOB] = array_at(bytes, at);
    Job {
        release: u16_at(&job, 0),
        deadline: u16_at(&job, 2),
        wanted: u16_at(&job, 4),
        energy: job[6],
    }
}

// The first `given` places hold the jobs of a table, and the others zeros.
fn jobs_in(payload: &[u8], given: usize) -> [Job; sheet::MOST_JOBS] {
    array::from_fn(|k| {
        if k < given {
            job_at(payload, JOBS_FROM + JOB * k)
        } else {
            Job::default()
        }
    })
}

// The table that a payload starts with.
pub fn table_in(payload: &[u8]) -> Table {
    Table {
        jobs: jobs_in(payload, given_in(payload)),
        count: u64_at(payload, 0) as usize,
        slots: u16_at(payload, SLOTS_FROM),
        capacity: u16_at(payload, CAPACITY_FROM),
    }
}

// The harvest behind that table.
pub fn harvest_in(payload: &[u8]) -> &[u8] {
    bytes_at(behind(payload, behind_table(payload)), 0)
}

// What each of 64 places has left, in the bytes of a state.
pub fn left_in(state: &[u8]) -> [u16; sheet::MOST_JOBS] {
    array::from_fn(|k| u16_at(state, LEFT_FROM + SHORT * k))
}

// The place behind the last part of a payload of that kind; None where a part is missing. A kind that has
// no name has no parts that could be missing: there it is the payload's end.
pub fn end(kind: u8, payload: &[u8]) -> Option<usize> {
    match kind {
        b'R' | b'H' | b'D' => behind_bytes(payload, 0),
        b'X' => place_behind(payload, behind_bytes(payload, 0)?, LONG + SHORT),
        b'P' | b'J' => behind_bytes(payload, behind_bytes(payload, 0)?),
        b'I' => place_behind(payload, behind_bytes(payload, 0)?, CLAIM),
        b'C' | b'S' | b'B' => behind_harvest(payload),
        b'W' | b'Q' | b'K' => behind_bytes(payload, behind_harvest(payload)?),
        b'N' => place_behind(payload, behind_harvest(payload)?, STATE),
        b'L' => place_behind(payload, behind_harvest(payload)?, CLAIM),
        _ => Some(payload.len()),
    }
}

// Copies the `bytes` that start at a place of a payload to the front of a space that is lent, as many as
// it has room for, and answers how many; none where there is no such place.
pub fn lend(payload: &[u8], at: Option<usize>, space: &mut [u8]) -> usize
    ensures { result ≤ length space.new }
{
    let bytes = bytes_at(behind(payload, at), 0);
    let count = bytes.len().min(space.len());
    space[..count].copy_from_slice(&bytes[..count]);
    count
}
