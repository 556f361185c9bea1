// Why a card, or the memory for it, is refused.
ghost use Rattle.std.specs.Prelude.{◌≡◌};
ghost use Rattle.card.specs.Refusals.{number_of};

use std::error::Error;
use std::fmt;

// A refusal, with the number by which it is known.
#[derive(Clone, Copy, PartialEq, Eq, Hash, Debug)]
pub enum CardRefusal {
    // A card has fewer bytes than its sizes take.
    NoSizes = 30,
    // Its sizes are out of range.
    Sizes = 31,
    // Its length is not that of its sizes.
    Length = 32,
    // Fewer nodes or letters are given than the card has.
    FewPlaces = 33,
    // The buffer is shorter than the card.
    ShortBuffer = 34,
}

impl From<CardRefusal> for u8 {
    ghost from_gives = { λ refusal result. result ≡ number_of refusal };

    fn from(refusal: CardRefusal) -> u8 {
        refusal as u8
    }
}

impl CardRefusal {
    // The number by which a refusal is known.
    pub fn number(self) -> u8
        ensures { result ≡ number_of self }
    {
        self.into()
    }
}

// What a refusal means, for a person.
impl fmt::Display for CardRefusal {
    fn fmt<W: fmt::Write>(&self, f: &mut fmt::Formatter<W>) -> fmt::Result {
        f.write_str(match self {
            CardRefusal::NoSizes => "the card is too short to have sizes",
            CardRefusal::Sizes => "the card's sizes are out of bounds",
            CardRefusal::Length => "the card has another length than its sizes ask for",
            CardRefusal::FewPlaces => "there are too few places for the card's nodes or letters",
            CardRefusal::ShortBuffer => "there is too little place for the card",
        })
    }
}

impl Error for CardRefusal {}
