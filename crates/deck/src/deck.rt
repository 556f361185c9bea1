// The deck: a sheet that Load's rules accept, and nothing else.
ghost use Rattle.std.specs.Prelude.{◌≡◌, true, length, is_ok};
ghost use Rattle.deck.specs.Load.{load_says};

use arrayvec::ArrayVec;
use nodes::limits::{LETTERS, NODES};
use nodes::node::Node;

#[derive(Drop)]
pub struct Deck {
    pub(crate) nodes: ArrayVec<Node, NODES>,
    pub(crate) letters: ArrayVec<u8, LETTERS>,
    // How many of the nodes declare a variable.
    pub(crate) declared: usize,
    ghost loaded: { is_ok (load_says letters.items nodes.items (length nodes.items) declared) ≡ true },
}
