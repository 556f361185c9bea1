ghost use Rattle.std.specs.Prelude.{◌≡◌};
ghost use Rattle.shelf.specs.Kinds.{code_of, kind_from};

use crate::Refusal;

// What a variable holds.
// Stays: beside the type of a declaration in `nodes`, since a shelf rests on no crate of sheets.
#[derive(Clone, Copy, PartialEq, Eq, Hash, Debug)]
pub enum Kind {
    Number = 1,
    Text = 2,
}

impl Kind {
    // The number by which people know the kind.
    pub fn number(self) -> u8
        ensures { result ≡ code_of self }
    {
        self as u8
    }
}

impl From<Kind> for u8 {
    ghost from_gives = { λ kind number. number ≡ code_of kind };

    fn from(kind: Kind) -> u8 {
        kind.number()
    }
}

impl TryFrom<u8> for Kind {
    type Error = Refusal;

    ghost try_from_gives = { λ number result. result ≡ kind_from number };

    fn try_from(number: u8) -> Result<Kind, Refusal> {
        match number {
            1 => Ok(Kind::Number),
            2 => Ok(Kind::Text),
            _ => Err(Refusal::UnknownKind),
        }
    }
}
