// The words that are terms by themselves, and those that join terms.
ghost use Rattle.std.specs.Prelude.{◌≡◌, ◌-◌};
ghost use Rattle.nodes.specs.Nodes.{node};
ghost use Rattle.cursor.specs.InHand.{leaf_of, joint_of, joined};
ghost use Rattle.cursor.specs.Reading.{in_hand, numbers};

use crate::cursor::Cursor;
use nodes::node::Node;
use nodes::view::View;
use spelling::find;
use words::word::{Fixed, Word};

// The number of a variable that is not declared.
// Stays: a number, since a node's field holds nothing else, and what Read writes for such a name is fixed.
const UNDECLARED: u16 = 65535;

// How two terms are joined.
#[derive(Clone, Copy, PartialEq, Eq, Debug)]
pub enum Joint {
    Sum,
    Chain,
}

impl Joint {
    // What is said of two terms that are joined so, by the numbers of their nodes.
    pub fn view(self, left: u16, right: u16) -> View
        ensures { result ≡ joined self left right }
    {
        match self {
            Joint::Sum => View::Plus { left, right },
            Joint::Chain => View::Conc { left, right },
        }
    }
}

impl Cursor<'_> {
    // The node of the variable that the word in hand spells.
    pub fn variable(&self) -> Node
        ensures { result ≡ node 2 self.now.token.place (self.now.token.next - self.now.token.place) (numbers self.now (record { place = self.now.token.place; size = self.now.token.next - self.now.token.place })) }
    {
        let (place, next) = (self.token.place, self.token.next);
        let number = find(self.text, self.names, &self.text[place..next]).map_or(
            UNDECLARED,
            |declared| declared.number,
        );
        View::Variable {
            place: place as u16,
            size: (next - place) as u16,
            number,
        }
        .into()
    }

    // The node of the word in hand, where that is a term by itself.
    pub fn leaf(&self) -> Option<Node>
        ensures { result ≡ leaf_of (numbers self.now) (in_hand self.now) }
    {
        match self.token.word {
            Word::Name(_) => Some(self.variable()),
            Word::Number(_, value) => Some(View::Number { value }.into()),
            Word::Text(_) => {
                let place = self.token.place + 1;
                let size = (self.token.next - self.token.place).saturating_sub(2);
                Some(View::Text {
                    place: place as u16,
                    size: size as u16,
                }
                .into())
            }
            _ => None,
        }
    }

    // How the word in hand joins two terms.
    pub fn joint(&self) -> Option<Joint>
        ensures { result ≡ joint_of (in_hand self.now) }
    {
        match self.token.word {
            Word::Fixed(Fixed::Plus) => Some(Joint::Sum),
            Word::Fixed(Fixed::Join) => Some(Joint::Chain),
            _ => None,
        }
    }
}
