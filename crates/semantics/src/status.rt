// How a player stands, and why it stopped.
ghost use Rattle.std.specs.Prelude.{◌≡◌};
ghost use Rattle.semantics.specs.Refusals.{number_of};

use shelf::Refusal;
use std::error::Error;
use std::fmt;

// Why a player stopped.
#[derive(Clone, Copy, PartialEq, Eq, Debug)]
pub enum Cause {
    // A sum above the largest number.
    SumTooLarge,
    // A text above the longest.
    TextTooLong,
    // The shelf had no room for a text; with what it answered.
    NoRoom(Refusal),
    // The shelf has fewer slots than the sheet has variables.
    TooFewSlots,
}

// The client's stand: ready for a beat, at the end, or stopped at a statement's node.
#[derive(Clone, Copy, PartialEq, Eq, Debug)]
pub enum Status {
    Ready,
    Ended,
    Stopped { cause: Cause, node: u16 },
}

impl Cause {
    // The number by which people know the cause.
    // Stays: a match, since one case carries a refusal, and an enum with fields is not turned into a number by `as`.
    pub fn number(self) -> u8
        ensures { result ≡ number_of self }
    {
        match self {
            Cause::SumTooLarge => 70,
            Cause::TextTooLong => 71,
            Cause::NoRoom(_) => 72,
            Cause::TooFewSlots => 73,
        }
    }
}

impl From<Cause> for u8 {
    ghost from_gives = { λ cause number. number ≡ number_of cause };

    fn from(cause: Cause) -> u8 {
        cause.number()
    }
}

impl fmt::Display for Cause {
    fn fmt<W: fmt::Write>(&self, f: &mut fmt::Formatter<W>) -> fmt::Result {
        f.write_str(match self {
            Cause::SumTooLarge => "a sum is above 4294967295",
            Cause::TextTooLong => "a text is longer than 80 bytes",
            Cause::NoRoom(_) => "there is no room for the text on the shelf",
            Cause::TooFewSlots => "the shelf has too few slots for the sheet's variables",
        })
    }
}

impl Error for Cause {}

impl fmt::Display for Status {
    fn fmt<W: fmt::Write>(&self, f: &mut fmt::Formatter<W>) -> fmt::Result {
        match self {
            Status::Ready => f.write_str("ready"),
            Status::Ended => f.write_str("ended"),
            Status::Stopped { cause, node } => {
                write!(f, "stopped with {} at node {node}", cause.number())
            }
        }
    }
}
