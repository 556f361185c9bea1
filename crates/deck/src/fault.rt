// Why a sheet is refused.
ghost use Rattle.std.specs.Prelude.{◌≡◌};
ghost use Rattle.deck.specs.Refusals.{number_of};

use std::error::Error;
use std::fmt;

// A refusal, with the number by which it is known.
#[derive(Clone, Copy, PartialEq, Eq, Hash, Debug)]
pub enum Refusal {
    // The counts or the number of letters are out of range.
    Sizes = 40,
    // A kind that there is not, or a declaration among the others or the other way round.
    Misplaced = 41,
    // Fields that the kind does not allow.
    Malformed = 42,
    // An arrow to no lower node, or to one of another sort.
    Astray = 43,
    // An arrow to a node that has one already.
    SecondArrow = 44,
    Redeclared = 45,
    Undeclared = 46,
    // A variable's number is not that of its declaration.
    Misnumbered = 47,
    // Types that do not agree.
    Disagreeing = 48,
    TooDeep = 49,
    // The last node is no series, or a node has no arrow to it.
    NotOneTree = 50,
}

impl From<Refusal> for u8 {
    ghost from_gives = { λ refusal result. result ≡ number_of refusal };

    fn from(refusal: Refusal) -> u8 {
        refusal as u8
    }
}

impl Refusal {
    // The number by which a refusal is known.
    pub fn number(self) -> u8
        ensures { result ≡ number_of self }
    {
        self.into()
    }
}

// What a refusal means, for a person.
impl fmt::Display for Refusal {
    fn fmt<W: fmt::Write>(&self, f: &mut fmt::Formatter<W>) -> fmt::Result {
        f.write_str(match self {
            Refusal::Sizes =>
                "the sheet's sizes are out of bounds: at most 512 nodes, 64 variables and 4096 letters",
            Refusal::Misplaced => "a node of this kind may not stand here",
            Refusal::Malformed => "the fields of this node are not what its kind asks for",
            Refusal::Astray => "an arrow of this node leads to no lower node of the right sort",
            Refusal::SecondArrow => "an arrow leads to a node that already has one",
            Refusal::Redeclared => "this name is declared twice",
            Refusal::Undeclared => "this name is declared nowhere",
            Refusal::Misnumbered => "this variable has another number than its declaration",
            Refusal::Disagreeing =>
                "an integer stands where a string has to, or the other way round",
            Refusal::TooDeep => "this expression or statement is nested too deep",
            Refusal::NotOneTree => "the nodes are not one tree that ends in a series",
        })
    }
}

impl Error for Refusal {}

// A refusal and the node that it tells.
#[derive(Clone, Copy, PartialEq, Eq, Hash, Debug)]
pub struct Fault {
    pub refusal: Refusal,
    pub node: u16,
}
