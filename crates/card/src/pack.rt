// Pack: a deck's sheet as a card.
ghost use Rattle.std.specs.Prelude.{◌≡◌, ◌*◌, ◌≤◌, ◌++◌, map, length, drop};
ghost use Rattle.std.specs.List.{flat_map};
ghost use Rattle.deck.specs.Sheets.{sheet_of};
ghost use Rattle.card.specs.Calls.{pack_says, packed};
ghost use Rattle.card.specs.Card.{triple as triple_of, fields_of, card_of};

use crate::refusal::CardRefusal;
use deck::deck::Deck;
use nodes::node::Node;

// Three numbers, low byte first.
fn triple(a: u16, b: u16, c: u16) -> [u8; 6]
    ensures { result ≡ triple_of a b c }
{
    let [a0, a1] = a.to_le_bytes();
    let [b0, b1] = b.to_le_bytes();
    let [c0, c1] = c.to_le_bytes();
    [a0, a1, b0, b1, c0, c1]
}

// Stays: beside `fill_fields`, since a kind is a byte and the fields are six; one function for both would be longer than the two.
// Stays: by place, here and in `fill_fields`, since a proof knows nothing of what is written by a `zip` of `iter_mut` or by `chunks_exact_mut`.
fn fill_kinds(out: &mut [u8], nodes: &[Node])
    requires { length out.old ≡ length nodes.now }
    ensures { out.new ≡ map (λ x. x.kind) nodes.now }
{
    for (i, x) in nodes.iter().enumerate() {
        out[i] = x.kind;
    }
}

fn fill_fields(out: &mut [u8], nodes: &[Node])
    requires { length out.old ≡ 6 * length nodes.now }
    ensures { out.new ≡ flat_map fields_of nodes.now }
{
    for (i, x) in nodes.iter().enumerate() {
        out[6 * i..6 * i + 6].copy_from_slice(&triple(x.a, x.b, x.c));
    }
}

// How many bytes the card of a deck has.
fn size_of(deck: &Deck) -> usize
    ensures { result ≡ length (card_of (sheet_of deck.now)) }
{
    6 + 7 * deck.count() + deck.letters().len()
}

// Writes the card to the front of a buffer that is long enough.
fn write(deck: &Deck, out: &mut [u8])
    requires { length (card_of (sheet_of deck.now)) ≤ length out.old }
    ensures { out.new ≡ card_of (sheet_of deck.now) ++ drop (length (card_of (sheet_of deck.now))) out.old }
{
    let nodes = deck.nodes();
    let letters = deck.letters();
    let n = nodes.len();
    let (sizes, rest) = out.split_at_mut(6);
    let (kinds, rest) = rest.split_at_mut(n);
    let (fields, rest) = rest.split_at_mut(6 * n);
    sizes.copy_from_slice(&triple(n as u16, deck.variables() as u16, letters.len() as u16));
    fill_kinds(kinds, nodes);
    fill_fields(fields, nodes);
    rest[..letters.len()].copy_from_slice(letters);
}

// Pack: writes the deck's card and answers its length. What stands behind it stays, and a buffer that is too short stays as it was.
pub fn pack(deck: &Deck, out: &mut [u8]) -> Result<usize, CardRefusal>
    ensures says { result ≡ pack_says (sheet_of deck.now) (length out.old) }
    ensures out { out.new ≡ packed (sheet_of deck.now) out.old }
{
    let size = size_of(deck);
    if out.len() < size {
        return Err(CardRefusal::ShortBuffer);
    }
    write(deck, out);
    Ok(size)
}
