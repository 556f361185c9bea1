// How the word in hand begins a statement.
ghost use Rattle.std.specs.Prelude.{◌≡◌};
ghost use Rattle.cursor.specs.Reading.{in_hand};
ghost use Rattle.cursor.specs.Starts.{start_of};

use crate::cursor::Cursor;
use words::word::{Fixed, Word};

// What a statement begins with.
#[derive(Clone, Copy, PartialEq, Eq, Debug)]
pub enum Start {
    Assignment,
    Choice,
    Repeat,
}

impl Cursor<'_> {
    // The statement that the word in hand begins, if it begins one.
    pub fn start(&self) -> Option<Start>
        ensures { result ≡ start_of (in_hand self.now) }
    {
        match self.token.word {
            Word::Name(_) => Some(Start::Assignment),
            Word::Fixed(Fixed::If) => Some(Start::Choice),
            Word::Fixed(Fixed::While) => Some(Start::Repeat),
            _ => None,
        }
    }
}
