// pack LENGTH N V LETTERS BOXES; unpack BOXES LETTERS CARD; judge CARD
use crate::decks::{loaded, refuse};
use crate::failure::Failure;
use crate::request::Request;
use crate::written::{Hex, Listed, ONES, clean, only};
use deck::deck::Deck;
use nodes::node::BLANK;
use std::fmt::Write;

// What buffers are filled with before Pack.
const BEFORE: u8 = 85;

fn kept(yes: bool) -> &'static str {
    if yes { "kept" } else { "lost" }
}

// Packs into a buffer of this length, and tells whether what stands behind the card is kept.
fn packed(request: &mut Request<'_>, deck: &Deck, length: usize) -> Result<(), Failure> {
    let mut all = vec![in request.heap; BEFORE; length]?;
    let answer = card::pack::pack(deck, all.as_mut_slice());
    let card = all.as_slice();
    match answer {
        Ok(n) => {
            let bytes = Hex(&card[..n.min(card.len())]);
            let state = kept(only(card, n, BEFORE));
            write!(request.out, "ok {n} {bytes} {state}")?;
        }
        Err(refusal) => {
            let number = refusal.number();
            let state = kept(only(card, 0, BEFORE));
            write!(request.out, "no {number} {state}")?;
        }
    }
    Ok(())
}

pub fn pack(request: &mut Request<'_>) -> Result<(), Failure> {
    let length = request.number()?;
    match loaded(request)? {
        Ok(deck) => packed(request, &deck, length),
        Err(fault) => refuse(request.out, fault),
    }
}

pub fn unpack(request: &mut Request<'_>) -> Result<(), Failure> {
    let places = request.number()?;
    let bytes_given = request.number()?;
    let card = request.bytes()?;
    // Stays: buffers with the answered sizes, here, in `texts` and in `plays`, since Read and Unpack fill what their caller lends.
    let mut all = vec![in request.heap; ONES; places]?;
    let mut text = vec![in request.heap; 255; bytes_given]?;
    let answer = card::unpack::unpack(card.as_slice(), all.as_mut_slice(), text.as_mut_slice());
    let nodes = all.as_slice();
    let letters = text.as_slice();
    match answer {
        Ok(sizes) => {
            let n = sizes.n;
            let v = sizes.v;
            let t = sizes.t;
            let listed = Listed(&nodes[..n.min(nodes.len())]);
            let bytes = Hex(&letters[..t.min(letters.len())]);
            let state = clean(only(nodes, n, BLANK) && only(letters, t, 0));
            write!(request.out, "ok {n} {v} {t} {listed} {bytes} {state}")?;
        }
        Err(refusal) => {
            let number = refusal.number();
            let state = clean(only(nodes, 0, BLANK) && only(letters, 0, 0));
            write!(request.out, "no {number} {state}")?;
        }
    }
    Ok(())
}

pub fn judge(request: &mut Request<'_>) -> Result<(), Failure> {
    let card = request.bytes()?;
    let number = card::judge::judge(card.as_slice());
    write!(request.out, "{number}")?;
    Ok(())
}
