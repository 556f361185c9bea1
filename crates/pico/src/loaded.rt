// A deck from a text or from a card.
use crate::failure::Failure;
use crate::fault::{refuse_card, refuse_node, refuse_text};
use crate::input;
use card::unpack::unpack;
use deck::deck::Deck;
use nodes::limits::{LETTERS, NODES};
use nodes::node::{BLANK, Node};
use reader::read::read;

// Whether a file is a card, by its name or because it was said.
pub fn is_card(file: &str, said: bool) -> bool {
    said || file.ends_with(".card")
}

// Loads nodes into a deck, or shows why not.
// Stays: parameters, as Load has them.
fn load(
    rt: &HostRuntime,
    file: &str,
    letters: &[u8],
    nodes: &[Node],
    n: usize,
    v: usize,
) -> Result<Deck, Failure> {
    let mut deck = Deck::new();
    deck.load(letters, nodes, n, v)
        .map_err(|fault| refuse_node(rt, file, letters, nodes, fault))?;
    Ok(deck)
}

pub fn from_text(rt: &HostRuntime, file: &str, text: &[u8]) -> Result<Deck, Failure> {
    let mut all = [BLANK; NODES];
    let sizes = read(text, &mut all).map_err(|fault| refuse_text(rt, file, text, fault))?;
    load(
        rt,
        file,
        text,
        &all,
        sizes.nodes as usize,
        sizes.variables as usize,
    )
}

pub fn from_card(rt: &HostRuntime, file: &str, bytes: &[u8]) -> Result<Deck, Failure> {
    // Stays: arrays with the sizes beside them, here, in `from_text`, `tree`, `cards` and `play`, since Unpack, Read, Pack and Look fill what their caller lends.
    let mut all = [BLANK; NODES];
    let mut letters = [0; LETTERS];
    let sizes = unpack(bytes, &mut all, &mut letters).map_err(|refusal| refuse_card(
        rt, file, refusal,
    ))?;
    let text = &letters[..sizes.t.min(LETTERS)];
    load(rt, file, text, &all, sizes.n, sizes.v)
}

pub fn from_file(rt: &HostRuntime, file: &str, card: bool) -> Result<Deck, Failure> {
    let bytes = input::bytes(rt, file)?;
    if is_card(file, card) {
        from_card(rt, file, bytes.as_slice())
    } else {
        from_text(rt, file, bytes.as_slice())
    }
}
