// What is wrong with the bytes of a card.
ghost use Rattle.std.specs.Prelude.{◌≡◌};
ghost use Rattle.card.specs.Refusals.{flaw_number};
ghost use Rattle.card.specs.declared.flaw.Flaw.TheVariants.{Card, Sheet};

use crate::refusal::CardRefusal;
use deck::fault::{Fault, Refusal};
use std::error::Error;
use std::fmt;

#[derive(Clone, Copy, PartialEq, Eq, Hash, Debug)]
pub enum Flaw {
    // They are no card.
    Card(CardRefusal),
    // They are one, and Load refuses its sheet.
    Sheet(Refusal),
}

impl From<CardRefusal> for Flaw {
    ghost from_gives = { λ refusal result. result ≡ Card refusal };

    fn from(refusal: CardRefusal) -> Flaw {
        Flaw::Card(refusal)
    }
}

impl From<Fault> for Flaw {
    ghost from_gives = { λ fault result. result ≡ Sheet fault.refusal };

    fn from(fault: Fault) -> Flaw {
        Flaw::Sheet(fault.refusal)
    }
}

impl From<Flaw> for u8 {
    ghost from_gives = { λ flaw result. result ≡ flaw_number flaw };

    fn from(flaw: Flaw) -> u8 {
        match flaw {
            Flaw::Card(refusal) => refusal.number(),
            Flaw::Sheet(refusal) => refusal.number(),
        }
    }
}

impl fmt::Display for Flaw {
    fn fmt<W: fmt::Write>(&self, f: &mut fmt::Formatter<W>) -> fmt::Result {
        match self {
            Flaw::Card(refusal) => refusal.fmt(f),
            Flaw::Sheet(refusal) => refusal.fmt(f),
        }
    }
}

impl Error for Flaw {}
