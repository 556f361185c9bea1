// Judge: what Unpack and Load say of a card. The crate `card_c` offers it to C.
ghost use Rattle.std.specs.Prelude.{◌≡◌};
ghost use Rattle.card.specs.Calls.{verdict_of, judge_says};
ghost use Rattle.card.specs.Card.{sheet_in};

use crate::flaw::Flaw;
use crate::unpack::{Sizes, unpack};
use deck::check::check;
use nodes::limits::{LETTERS, NODES};
use nodes::node::BLANK;

// What is wrong with a card, if anything is.
fn assess(card: &[u8]) -> Result<(), Flaw>
    ensures { result ≡ verdict_of (sheet_in card.now) }
{
    // Stays: arrays, since Unpack fills slices of its caller.
    let mut nodes = [BLANK; NODES];
    let mut letters = [0; LETTERS];
    let Sizes { n, v, t } = unpack(card, &mut nodes, &mut letters)?;
    check(&letters[..t], &nodes, n, v)?;
    Ok(())
}

// Judge: 0, or the number of the refusal of Unpack or Load.
// Stays: a number, since C takes the answer.
pub fn judge(card: &[u8]) -> u32
    ensures { result ≡ judge_says card.now }
{
    match assess(card) {
        Ok(()) => 0,
        Err(flaw) => u8::from(flaw).into(),
    }
}
