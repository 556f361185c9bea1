// What the scanner hands out.
ghost use Rattle.std.specs.Prelude.{◌≡◌};
ghost use Rattle.words.specs.Numbers.{number_of};

use std::error::Error;
use std::fmt;

// A word that is always spelled alike: the twelve keywords, then the nine marks.
#[derive(Clone, Copy, PartialEq, Eq, Debug)]
pub enum Fixed {
    Begin,
    End,
    Declare,
    Integer,
    String,
    If,
    Then,
    Else,
    Fi,
    While,
    Do,
    Od,
    Open,
    Close,
    Plus,
    Minus,
    Semicolon,
    Comma,
    Join,
    Colon,
    Becomes,
}

// A word, as the part of the text that spells it: a name, a number with its value, what stands between the quotes of a text constant.
#[derive(Clone, Copy, PartialEq, Eq, Debug)]
pub enum Word<'a> {
    Name(&'a [u8]),
    Number(&'a [u8], u32),
    Text(&'a [u8]),
    Fixed(Fixed),
    End,
}

// A word with its place, and the place after it, in bytes from 0.
#[derive(Clone, Copy, PartialEq, Eq, Debug)]
pub struct Token<'a> {
    pub word: Word<'a>,
    pub place: usize,
    pub next: usize,
}

// Why a text is refused. The scanner tells of words; the reader also of the text's length, the grammar and the nodes.
#[derive(Clone, Copy, PartialEq, Eq, Hash, Debug)]
pub enum Refusal {
    LongSheet = 10,
    NoWord = 11,
    Unclosed = 12,
    NotAllowed = 13,
    LongText = 14,
    LargeNumber = 15,
    Unexpected = 20,
    EndsEarly = 21,
    AfterEnd = 22,
    ManyNodes = 23,
}

// The number by which a refusal is known.
impl From<Refusal> for u8 {
    ghost from_gives = { λ refusal number. number ≡ number_of refusal };

    fn from(refusal: Refusal) -> u8 {
        refusal as u8
    }
}

impl Refusal {
    pub fn number(self) -> u8
        ensures { result ≡ number_of self }
    {
        self.into()
    }
}

// What a refusal means, for a person.
impl fmt::Display for Refusal {
    fn fmt<W: fmt::Write>(&self, f: &mut fmt::Formatter<W>) -> fmt::Result {
        f.write_str(match self {
            Refusal::LongSheet => "the sheet is longer than 4096 bytes",
            Refusal::NoWord => "no word begins here",
            Refusal::Unclosed => "this text constant is not closed",
            Refusal::NotAllowed => "this byte may not stand in a text constant",
            Refusal::LongText => "this text constant is longer than 80 bytes",
            Refusal::LargeNumber => "this number is above 4294967295",
            Refusal::Unexpected => "this word may not stand here",
            Refusal::EndsEarly => "the sheet ends too early",
            Refusal::AfterEnd => "something follows the closing end",
            Refusal::ManyNodes => "the sheet has more than 512 nodes",
        })
    }
}

impl Error for Refusal {}

// A refusal and its place.
#[derive(Clone, Copy, PartialEq, Eq, Debug)]
pub struct Fault {
    pub refusal: Refusal,
    pub place: usize,
}
