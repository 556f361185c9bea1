// The words of a text, one after another.
ghost use Rattle.std.specs.Prelude.{◌+◌, ◌-◌, length, Some, None};
ghost use Rattle.std.specs.Iterator.{at_most};
ghost use Rattle.pico.specs.Tokens.{most_left};

use words::next_word;
use words::word::{Fault, Token, Word};

// The words up to the end of the text or the first fault, which is the last item.
#[derive(Drop)]
pub struct Tokens<'a> {
    text: &'a [u8],
    // Where to go on, unless a fault came.
    at: Option<usize>,
}

impl<'a> Tokens<'a> {
    pub fn new(text: &'a [u8]) -> Tokens<'a> {
        Tokens { text, at: Some(0) }
    }
}

impl<'a> Iterator for Tokens<'a> {
    type Item = Result<Token<'a>, Fault>;

    ghost remaining = { λ t. at_most (most_left t.at (length t.text.now)) };

    fn next(&mut self) -> Option<Result<Token<'a>, Fault>> {
        match next_word(self.text, self.at?) {
            Ok(
                Token {
                    word: Word::End,
                    ..
                },
            ) => None,
            Ok(token) => {
                self.at = Some(token.next);
                Some(Ok(token))
            }
            Err(fault) => {
                self.at = None;
                Some(Err(fault))
            }
        }
    }
}
