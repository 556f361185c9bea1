// A whole succession of calls.
ghost use Rattle.std.specs.Prelude.{◌≡◌, ◌<◌, ◌≤◌, length, take, drop, slice_get};
ghost use Rattle.nodes.specs.Nodes.{kinds};
ghost use Rattle.deck.specs.Sheets.{sheet_of};
ghost use Rattle.semantics.specs.Calls.{all_after, all_answers};
ghost use Rattle.player.specs.Of.{enough, started_on};
ghost use Rattle.player.specs.Performed.{Performed, Unplayed};

use crate::player::Player;
use deck::deck::Deck;
use semantics::call::{Answer, Call};
use shelf::Shelf;

// Call i, if there is one.
fn call_at(calls: &[Call], i: usize) -> Option<Call>
    ensures { result ≡ slice_get calls.now i }
{
    calls.get(i).copied()
}

// A player of the deck on the shelf, from its start to its eject: the calls in order, as many as have a place for their answer.
pub fn perform<S: Shelf>(deck: Deck, shelf: S, calls: &[Call], answers: &mut [Answer]) -> (Deck, S)
    ensures deck { result.0 ≡ deck }
    ensures capacity { S.Shelf.capacity result.1 ≡ S.Shelf.capacity shelf }
    ensures slots { S.Shelf.slots result.1 ≡ S.Shelf.slots shelf }
    ensures values { S.Shelf.values result.1 ≡ (all_after (enough S.Shelf deck shelf) (sheet_of deck) (S.Shelf.capacity shelf) (take (length answers.old) calls.now) (started_on S.Shelf deck shelf)).values }
    ensures says { take (length calls.now) answers.new ≡ all_answers (enough S.Shelf deck shelf) (sheet_of deck) (S.Shelf.capacity shelf) (take (length answers.old) calls.now) (started_on S.Shelf deck shelf) }
    ensures beyond { drop (length calls.now) answers.new ≡ drop (length calls.now) answers.old }
    ensures law { length (kinds (sheet_of deck)) ≤ S.Shelf.slots shelf → Performed (sheet_of deck) (S.Shelf.capacity shelf) (take (length answers.old) calls.now) answers.new (S.Shelf.values result.1) }
    ensures too_few { S.Shelf.slots shelf < length (kinds (sheet_of deck)) → Unplayed (take (length answers.old) calls.now) answers.new (S.Shelf.values shelf) (S.Shelf.values result.1) }
{
    let mut player = Player::start(deck, shelf);
    // Stays: by `enumerate` and not `zip`, since of what an adapter of `iter_mut` lends nothing is known afterwards.
    for (i, answer) in answers.iter_mut().enumerate() {
        let Some(call) = call_at(calls, i) else { break };
        *answer = player.call(call);
    }
    player.eject()
}
