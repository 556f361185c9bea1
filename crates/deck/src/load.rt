// A new deck, and Load.
ghost use Rattle.std.specs.Prelude.{◌≡◌, Ok};
ghost use Rattle.deck.specs.Load.{load_says};
ghost use Rattle.deck.specs.Sheets.{sheet_of, given, blank_sheet, loaded_to};

use crate::check::check;
use crate::deck::Deck;
use crate::fault::Fault;
use arrayvec::ArrayVec;
use nodes::kind::Kind;
use nodes::node::Node;
use nodes::view::View;

impl Deck {
    // A deck with the blank sheet: the letter `a`, declared integer, and no statement.
    #[tactic(auto, using(crate::proofs::Accepted::blank_loads))]
    pub fn new() -> Deck
        ensures { sheet_of result ≡ blank_sheet }
    {
        let mut letters = ArrayVec::new();
        letters.push(b'a');
        let declaration = View::Declaration {
            place: 0,
            size: 1,
            kind: Kind::Integer.into(),
        };
        let mut nodes = ArrayVec::new();
        nodes.push(declaration.into());
        nodes.push(View::Empty.into());
        Deck {
            nodes,
            letters,
            declared: 1,
        }
    }

    // Takes over a sheet that the rules accept.
    fn hold(&mut self, letters: &[u8], nodes: &[Node], n: usize, v: usize)
        requires { Ok tt ≡ load_says letters.now nodes.now n v }
        ensures { sheet_of self.new ≡ given letters.now nodes.now n v }
    {
        self.nodes.clear();
        self.nodes.try_extend_from_slice(&nodes[..n]).unwrap();
        self.letters.clear();
        self.letters.try_extend_from_slice(letters).unwrap();
        self.declared = v;
    }

    // Stays: four parameters, here, in `hold` and in `check`, since that is the form of Load that is asked for.
    // Load: the sheet of the first `n` nodes, `v` of them declarations, or the first fault; then the deck stays as it was.
    pub fn load(&mut self, letters: &[u8], nodes: &[Node], n: usize, v: usize) -> Result<(), Fault>
        ensures says { result ≡ load_says letters.now nodes.now n v }
        ensures holds { sheet_of self.new ≡ loaded_to (load_says letters.now nodes.now n v) (given letters.now nodes.now n v) (sheet_of self.old) }
    {
        check(letters, nodes, n, v)?;
        self.hold(letters, nodes, n, v);
        Ok(())
    }
}
