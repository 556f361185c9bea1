// The calls that a player takes between its start and its eject, and their answers.
ghost use Rattle.std.specs.Prelude.{◌≡◌};
ghost use Rattle.semantics.specs.Refusals.{look_number};

use crate::status::Status;
use shelf::{LONGEST, Refusal};
use std::error::Error;
use std::fmt;

#[derive(Clone, Copy, PartialEq, Eq, Debug)]
pub enum Call {
    // So many beats are granted.
    Play(u16),
    Rewind,
    // Variable `of` is looked at; the line is there for a text.
    Look { of: usize, line: [u8; LONGEST] },
}

// How far a Play came.
#[derive(Clone, Copy, PartialEq, Eq, Debug)]
pub struct Progress {
    pub beats: u16,
    pub status: Status,
}

// A number, or a text of so many bytes that stands in a line.
// Stays: the length here and the line beside it, since a look fills the line of its caller; and beside a shelf's `Entry`, which is a part to build a make from.
#[derive(Clone, Copy, PartialEq, Eq, Debug)]
pub enum Outcome {
    Number(u32),
    Text(usize),
}

// Why a Look is refused.
#[derive(Clone, Copy, PartialEq, Eq, Debug)]
pub enum LookRefusal {
    // The shelf has fewer slots than the sheet has variables.
    TooFewSlots,
    // The shelf refused.
    Shelf(Refusal),
}

#[derive(Clone, Copy, PartialEq, Eq, Debug)]
pub enum Answer {
    Played(Progress),
    Rewound(Status),
    // What was seen, and the line after it.
    Looked {
        seen: Result<Outcome, LookRefusal>,
        line: [u8; LONGEST],
    },
}

impl LookRefusal {
    // The number by which people know the refusal.
    // Stays: a match, since one case carries a refusal, and an enum with fields is not turned into a number by `as`.
    pub fn number(self) -> u8
        ensures { result ≡ look_number self }
    {
        match self {
            LookRefusal::TooFewSlots => 73,
            LookRefusal::Shelf(why) => why.number(),
        }
    }
}

impl From<LookRefusal> for u8 {
    ghost from_gives = { λ refusal number. number ≡ look_number refusal };

    fn from(refusal: LookRefusal) -> u8 {
        refusal.number()
    }
}

impl fmt::Display for LookRefusal {
    fn fmt<W: fmt::Write>(&self, f: &mut fmt::Formatter<W>) -> fmt::Result {
        match self {
            LookRefusal::TooFewSlots => {
                f.write_str("the shelf has too few slots for the sheet's variables")
            }
            LookRefusal::Shelf(why) => write!(f, "{why}"),
        }
    }
}

impl Error for LookRefusal {}
