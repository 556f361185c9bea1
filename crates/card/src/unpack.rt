// Unpack: the parts of a card.
ghost use Rattle.std.specs.Prelude.{◌≡◌, ◌≤◌, ◌&&◌, length, IfOk, nat_le};
ghost use Rattle.std.specs.List.{between};
ghost use Rattle.card.specs.Calls.{unpacked, sizes_told, nodes_left, letters_left, opened_told, parts_told};
ghost use Rattle.card.specs.Card.{sizes_in};

use crate::parts::Parts;
use crate::refusal::CardRefusal;
use deck::check::sizes_fit;
use deck::rules::ensure;
use nodes::node::{BLANK, Node};

// How many nodes and variables and letters a card has.
// Stays: beside the sizes that Read answers, which are those of a text and fit 16 bits.
#[derive(Clone, Copy, PartialEq, Eq, Debug)]
pub struct Sizes {
    pub n: usize,
    pub v: usize,
    pub t: usize,
}

// A card whose sizes are read, and what stands behind them.
#[derive(Clone, Copy, PartialEq, Eq, Debug)]
pub struct Opened<'a> {
    pub sizes: Sizes,
    pub body: &'a [u8],
}

fn open<'a>(card: &'a [u8]) -> Result<Opened<'a>, CardRefusal>
    ensures is { opened_told result ≡ sizes_in card.now }
    ensures body { IfOk result (λ o. o.body.now ≡ between 6 (length card.now) card.now) }
{
    let [n0, n1, v0, v1, t0, t1, body @ ..] = card else {
        return Err(CardRefusal::NoSizes);
    };
    let n = u16::from_le_bytes([*n0, *n1]) as usize;
    let v = u16::from_le_bytes([*v0, *v1]) as usize;
    let t = u16::from_le_bytes([*t0, *t1]) as usize;
    ensure(sizes_fit(t, n, n, v), CardRefusal::Sizes)?;
    ensure(body.len() == 7 * n + t, CardRefusal::Length)?;
    Ok(Opened {
        sizes: Sizes { n, v, t },
        body,
    })
}

fn has_room(m: usize, l: usize, s: Sizes) -> bool
    ensures { result ≡ (nat_le s.n m && nat_le s.t l) }
{
    s.n <= m && s.t <= l
}

// The arrays of a card, for which m nodes and l letters are given.
fn cut<'a>(card: &'a [u8], m: usize, l: usize) -> Result<Parts<'a>, CardRefusal>
    ensures is { parts_told result ≡ unpacked card.now m l }
    ensures fit { IfOk result (λ p. (length p.kinds.now ≤ m) × (length p.letters.now ≤ l)) }
{
    let Opened { sizes, body } = open(card)?;
    ensure(has_room(m, l, sizes), CardRefusal::FewPlaces)?;
    let (kinds, rest) = body.split_at(sizes.n);
    let (fields, letters) = rest.split_at(6 * sizes.n);
    Ok(Parts {
        kinds,
        fields,
        letters,
        v: sizes.v,
    })
}

// Unpack: fills nodes and letters from a card and answers how many of each there are; what is not filled becomes zeros, after a refusal everything.
pub fn unpack(card: &[u8], nodes: &mut [Node], letters: &mut [u8]) -> Result<Sizes, CardRefusal>
    ensures says { result ≡ sizes_told (unpacked card.now (length nodes.old) (length letters.old)) }
    ensures nodes { nodes.new ≡ nodes_left (length nodes.old) (unpacked card.now (length nodes.old) (length letters.old)) }
    ensures letters { letters.new ≡ letters_left (length letters.old) (unpacked card.now (length nodes.old) (length letters.old)) }
{
    let parts = cut(card, nodes.len(), letters.len());
    nodes.fill(BLANK);
    letters.fill(0);
    Ok(parts?.lay_out(nodes, letters))
}
