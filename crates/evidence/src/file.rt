// The files that the arguments name.
ghost use Rattle.std.specs.Prelude.{◌≤◌, length, IfOk, IfSome};

use crate::argument;
use std::env::Env;
use std::fs::{File, Files};
use std::io::Read;
use std::str::Utf8Error;
use std::{io, str};

// The longest file that is taken for a sheet or a plan, in bytes.
const LONGEST: usize = 4096;

// A file is read into room for one byte more.
pub const ROOM: usize = LONGEST + 1;

// Why a file is not judged.
#[derive(Clone, Copy)]
enum Unread {
    // Its name is not UTF-8, or it cannot be opened or read.
    CannotRead,
    // It has more than 4,096 bytes.
    TooLong,
}

impl Unread {
    // What is said before the file's name.
    fn words(self) -> &'static [u8] {
        match self {
            Unread::CannotRead => b"cannot read ",
            Unread::TooLong => b"too long: ",
        }
    }
}

impl From<Utf8Error> for Unread {
    fn from(_why: Utf8Error) -> Unread {
        Unread::CannotRead
    }
}

impl From<io::Error> for Unread {
    fn from(_why: io::Error) -> Unread {
        Unread::CannotRead
    }
}

// Reads until the room is full or the file ends, and answers how many bytes it read.
fn read_on(file: &mut impl Read, room: &mut [u8]) -> io::Result<usize>
    ensures { IfOk result (λ count. count ≤ length room.new) }
{
    let mut count = 0;
    while count < room.len() {
        let more = file.read(&mut room[count..])?;
        if more == 0 {
            break;
        }
        count += more;
    }
    Ok(count)
}

// The content of the file of that name, in the room that is lent for it.
fn read_named<'a>(
    rt: &impl Files,
    name: &[u8],
    room: &'a mut [u8; ROOM],
) -> Result<&'a [u8], Unread>
    ensures { IfOk result (λ content. length content.now ≤ length room.old) }
{
    let mut file = File::open(rt, str::from_utf8(name)?)?;
    let count = read_on(&mut file, room)?;
    if LONGEST < count {
        return Err(Unread::TooLong);
    }
    Ok(&room[..count])
}

// The content of the file that the argument at a place names, in the room that is lent for it. Where there
// is none a line says why.
pub fn read<'a, R: Env + Files>(rt: &R, place: usize, room: &'a mut [u8; ROOM]) -> Option<&'a [u8]>
    ensures { IfSome result (λ content. length content.now ≤ length room.old) }
{
    let mut longest = [0u8; argument::LONGEST];
    let name = argument::read(rt, place, &mut longest);
    match read_named(rt, name, room) {
        Ok(content) => Some(content),
        Err(why) => {
            print::word(why.words());
            print::word(name);
            print::word(b"\n");
            None
        }
    }
}
