// The questions on a deck.
ghost use Rattle.std.specs.Prelude.{◌≡◌, ◌<◌, length};
ghost use Rattle.std.specs.Option.{option_map};
ghost use Rattle.nodes.specs.Nodes.{node_at, node_told, kind_told};
ghost use Rattle.nodes.specs.Kinds.{kind_number};
ghost use Rattle.deck.specs.Sheets.{sheet_of};

use crate::deck::Deck;
use nodes::kind::Kind;
use nodes::node::Node;
use nodes::view::node_at;

impl Deck {
    // The nodes of the sheet.
    pub fn nodes(&self) -> &[Node]
        ensures { result.now ≡ (sheet_of self.now).nodes }
    {
        self.nodes.as_slice()
    }

    // The letters of the sheet.
    pub fn letters(&self) -> &[u8]
        ensures { result.now ≡ (sheet_of self.now).letters }
    {
        self.letters.as_slice()
    }

    // How many nodes there are.
    pub fn count(&self) -> usize
        ensures { result ≡ length (sheet_of self.now).nodes }
    {
        self.nodes.len()
    }

    // How many variables are declared.
    pub fn variables(&self) -> usize
        ensures { result ≡ (sheet_of self.now).variables }
    {
        self.declared
    }

    // Node i, where there is one.
    pub fn node(&self, i: usize) -> Option<Node>
        ensures { result ≡ node_told (sheet_of self.now) i }
    {
        self.nodes().get(i).copied()
    }

    // Node i, the blank one where there is none.
    pub fn node_at(&self, i: u16) -> Node
        ensures { result ≡ node_at (sheet_of self.now).nodes i }
    {
        node_at(self.nodes(), i as usize)
    }

    // The type of a variable that there is.
    fn kind_at(&self, i: usize) -> Option<Kind>
        requires { i < (sheet_of self.now).variables }
        ensures { option_map kind_number result ≡ kind_told (sheet_of self.now) i }
    {
        Kind::try_from(node_at(self.nodes(), i).c).ok()
    }

    // The type of variable i, where there is one.
    pub fn kind_of(&self, i: usize) -> Option<Kind>
        ensures { option_map kind_number result ≡ kind_told (sheet_of self.now) i }
    {
        if i < self.variables() {
            self.kind_at(i)
        } else {
            None
        }
    }
}
