// An interval of the day: its kinds of demand, and which jobs are its own.
#![tactic(auto)]

ghost use Rattle.std.specs.Prelude.{◌≡◌, ◌&&◌, leb};
ghost use Rattle.interval.specs.Kinds.{IsOfKind};

use std::fmt;

// The two kinds of demand: slots of time, and charge.
#[derive(Clone, Copy, Debug, PartialEq, Eq)]
pub enum Kind {
    Time,
    Energy,
}

impl fmt::Display for Kind {
    fn fmt<W: fmt::Write>(&self, f: &mut fmt::Formatter<W>) -> fmt::Result {
        match self {
            Kind::Time => f.write_str("time"),
            Kind::Energy => f.write_str("energy"),
        }
    }
}

// Their numbers in document 01.
pub const TIME: u64 = 0;

pub const ENERGY: u64 = 1;

// A number that no kind has.
#[derive(Clone, Copy, Debug, PartialEq, Eq)]
pub struct NoKind(pub u64);

impl TryFrom<u64> for Kind {
    type Error = NoKind;

    ghost try_from_gives = { IsOfKind };

    // The kind of that number.
    fn try_from(number: u64) -> Result<Kind, NoKind> {
        match number {
            TIME => Ok(Kind::Time),
            ENERGY => Ok(Kind::Energy),
            _ => Err(NoKind(number)),
        }
    }
}

// A job with this release and deadline is one of the interval's: released at or after its start, and
// its deadline at or before its end.
pub fn is_within(from: u16, to: u16, release: u16, deadline: u16) -> bool
    ensures { result ≡ (leb from release && leb deadline to) }
{
    from <= release && deadline <= to
}
