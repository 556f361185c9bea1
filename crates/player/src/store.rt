// Putting a value on a shelf.
ghost use Rattle.std.specs.Prelude.{◌≡◌, ℕ, ◌≤◌, length, slice_set};
ghost use Rattle.shelf.specs.Limits.{longest};
ghost use Rattle.shelf.specs.Value.{number, text};
ghost use Rattle.semantics.specs.declared.call.Outcome.TheVariants.{Text};
ghost use Rattle.player.specs.Evaluation.{meant, store_answer, stored};

use semantics::call::Outcome;
use shelf::{LONGEST, Refusal, Shelf};

// Puts a number at `to`; where there is no such entry, nothing.
// Stays: the two clauses that slots and capacity stay, here and below, since they are those of the trait, under its names.
#[tactic(auto, using(crate::proofs::Storing::number_stored))]
fn put_number<S: Shelf>(shelf: &mut S, to: usize, x: u32)
    ensures list { S.Shelf.values shelf.new ≡ slice_set (S.Shelf.values shelf.old) to (number x) }
    ensures slots_stay { S.Shelf.slots shelf.new ≡ S.Shelf.slots shelf.old }
    ensures capacity_stays { S.Shelf.capacity shelf.new ≡ S.Shelf.capacity shelf.old }
{
    let _ = shelf.put_number(to, x);
}

// Puts a text at `to`, or refuses for want of capacity; where there is no such entry, nothing.
// Stays: asked in two steps, since in one nested pattern the check does not know at `_` that the refusal is another, and the answer is not proved.
fn put_text<S: Shelf>(shelf: &mut S, to: usize, bytes: &[u8]) -> Result<(), Refusal>
    requires { length bytes.now ≤ longest }
    ensures answer { result ≡ store_answer (S.Shelf.capacity shelf.old) (S.Shelf.values shelf.old) to (text bytes.now) }
    ensures list { S.Shelf.values shelf.new ≡ stored (S.Shelf.capacity shelf.old) (S.Shelf.values shelf.old) to (text bytes.now) }
    ensures slots_stay { S.Shelf.slots shelf.new ≡ S.Shelf.slots shelf.old }
    ensures capacity_stays { S.Shelf.capacity shelf.new ≡ S.Shelf.capacity shelf.old }
{
    let Err(why) = shelf.put_text(to, bytes) else {
        return Ok(());
    };
    match why {
        Refusal::NoCapacity => Err(why),
        _ => Ok(()),
    }
}

// Puts a value at `to`; a text stands in the line.
pub(crate) fn store<S: Shelf>(
    shelf: &mut S,
    to: usize,
    value: Outcome,
    line: &[u8; LONGEST],
) -> Result<(), Refusal>
    requires { (n : ℕ) → value ≡ Text n → n ≤ longest }
    ensures answer { result ≡ store_answer (S.Shelf.capacity shelf.old) (S.Shelf.values shelf.old) to (meant value line.now) }
    ensures list { S.Shelf.values shelf.new ≡ stored (S.Shelf.capacity shelf.old) (S.Shelf.values shelf.old) to (meant value line.now) }
    ensures slots_stay { S.Shelf.slots shelf.new ≡ S.Shelf.slots shelf.old }
    ensures capacity_stays { S.Shelf.capacity shelf.new ≡ S.Shelf.capacity shelf.old }
{
    match value {
        Outcome::Number(x) => {
            put_number(shelf, to, x);
            Ok(())
        }
        Outcome::Text(n) => put_text(shelf, to, &line[0..n]),
    }
}
