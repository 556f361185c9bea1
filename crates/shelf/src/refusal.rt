ghost use Rattle.std.specs.Prelude.{◌≡◌};
ghost use Rattle.shelf.specs.Refusals.{number_of};

use std::error::Error;
use std::fmt;

// Why a shelf refuses a call.
#[derive(Clone, Copy, PartialEq, Eq, Hash, Debug)]
pub enum Refusal {
    // No kinds, or more kinds than slots.
    WrongCount = 60,
    // A kind that is neither number nor text.
    UnknownKind = 61,
    // No entry at this index.
    NoEntry = 62,
    // The entry is of the other kind.
    OtherKind = 63,
    // A text of more than `LONGEST` bytes.
    TextTooLong = 64,
    // All texts together would pass the capacity.
    NoCapacity = 65,
}

impl Refusal {
    // The number by which people know the refusal.
    pub fn number(self) -> u8
        ensures { result ≡ number_of self }
    {
        self as u8
    }
}

impl From<Refusal> for u8 {
    ghost from_gives = { λ refusal number. number ≡ number_of refusal };

    fn from(refusal: Refusal) -> u8 {
        refusal.number()
    }
}

impl fmt::Display for Refusal {
    fn fmt<W: fmt::Write>(&self, f: &mut fmt::Formatter<W>) -> fmt::Result {
        f.write_str(match self {
            Refusal::WrongCount => "there are no variables, or more than the shelf has slots",
            Refusal::UnknownKind => "the kind of a variable is neither 1, a number, nor 2, a text",
            Refusal::NoEntry => "the shelf has no entry with this number",
            Refusal::OtherKind => "this entry is of the other kind",
            Refusal::TextTooLong => "the text is longer than 80 bytes",
            Refusal::NoCapacity => "there is no room for the text on the shelf",
        })
    }
}

impl Error for Refusal {}
