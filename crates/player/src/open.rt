// Opening a shelf for a deck.
ghost use Rattle.std.specs.Prelude.{◌≡◌};
ghost use Rattle.nodes.specs.Nodes.{kinds};
ghost use Rattle.deck.specs.Sheets.{sheet_of};
ghost use Rattle.player.specs.Opening.{open_answer, opened};

use arrayvec::ArrayVec;
use deck::deck::Deck;
use shelf::{Refusal, SLOTS, Shelf};

// The kinds that the deck declares.
fn declared(deck: &Deck) -> ArrayVec<u8, SLOTS>
    ensures { result.items ≡ kinds (sheet_of deck.now) }
{
    let mut kinds = ArrayVec::new();
    for node in &deck.nodes()[..deck.variables()] {
        kinds.push(node.c as u8);
    }
    kinds
}

// Opens the shelf with the kinds that the deck declares.
#[tactic(auto, using(crate::proofs::Opening::opens_told, crate::proofs::Opening::opens_list))]
pub(crate) fn open<S: Shelf>(shelf: &mut S, deck: &Deck) -> Result<(), Refusal>
    ensures answer { result ≡ open_answer (S.Shelf.slots shelf.old) (sheet_of deck.now) }
    ensures list { S.Shelf.values shelf.new ≡ opened (S.Shelf.slots shelf.old) (sheet_of deck.now) (S.Shelf.values shelf.old) }
    ensures slots_stay { S.Shelf.slots shelf.new ≡ S.Shelf.slots shelf.old }
    ensures capacity_stays { S.Shelf.capacity shelf.new ≡ S.Shelf.capacity shelf.old }
{
    shelf.open(&declared(deck))
}
