// Where reading has come to, and how it goes on.
ghost use Rattle.std.specs.Prelude.{◌≡◌, ◌+◌, ◌-◌, ◌<◌, ◌≤◌, [], ◌∷◌, length, IfOk, OnOk, OnErr};
ghost use Rattle.words.specs.Words.{Stands};
ghost use Rattle.nodes.specs.Limits.{most_letters};

use crate::put::put;
use nodes::binding::Binding;
use nodes::node::Node;
use spelling::Entry;
use words::next_word;
use words::scan::scan;
use words::word::{Fault, Fixed, Refusal, Token, Word};

// A text, the names declared in it, the word in hand, and how many nodes there are.
#[derive(Clone, Copy, PartialEq, Eq, Debug)]
pub struct Cursor<'a> {
    pub text: &'a [u8],
    pub names: &'a [Entry<Binding>],
    pub token: Token<'a>,
    pub count: u16,
    pub ghost short: { length text.now ≤ most_letters },
    pub ghost stands: { Stands text.now 0 token },
}

impl<'a> Cursor<'a> {
    ghost use Rattle.grammar.specs.Scan.{wrong};
    ghost use Rattle.cursor.specs.Text.{found};
    ghost use Rattle.cursor.specs.Layout.{write};
    ghost use Rattle.cursor.specs.InHand.{is_word, unexpected as unexpected_at, expected};
    ghost use Rattle.cursor.specs.Reading.{in_hand, Begins, Comes, SameSheet, Stays};

    // The first word of a text is in hand; no names are known yet, and there are no nodes.
    pub fn new(text: &'a [u8]) -> Result<Self, Fault>
        requires { length text.now ≤ most_letters }
        ensures { Begins text.now result }
    {
        let token = next_word(text, 0)?;
        Ok(Cursor {
            text,
            names: &[],
            token,
            count: 0,
        })
    }

    // Whether the word in hand is this fixed one.
    pub fn is(&self, wanted: Fixed) -> bool
        ensures { result ≡ is_word wanted (in_hand self.now) }
    {
        matches!(self.token.word, Word::Fixed(word) if word == wanted)
    }

    // Takes the word after the one in hand. Where that is refused, the cursor stays.
    pub fn step(&mut self) -> Result<(), Fault>
        ensures is { Comes (found self.old.text.now self.old.token.next) result self.old self.new }
        ensures on { OnOk result (self.old.token.next ≤ self.new.token.place) }
        ensures stays { OnErr result (Stays self.old self.new) }
    {
        scan(self.text, self.token.next, &mut self.token)?;
        Ok(())
    }

    // Refused at the word in hand: it is not allowed, or the text ends early.
    pub fn unexpected(&self) -> Fault
        ensures { wrong result.refusal result.place ≡ unexpected_at (in_hand self.now) }
    {
        let refusal = match self.token.word {
            Word::End => Refusal::EndsEarly,
            _ => Refusal::Unexpected,
        };
        Fault {
            refusal,
            place: self.token.place,
        }
    }

    // Takes the word after this fixed one, which has to be in hand. Where that is refused, the cursor stays.
    pub fn expect(&mut self, wanted: Fixed) -> Result<(), Fault>
        ensures is { Comes (expected self.old.text.now wanted (in_hand self.old)) result self.old self.new }
        ensures on { OnOk result (self.old.token.place + 1 ≤ self.new.token.place) }
        ensures stays { OnErr result (Stays self.old self.new) }
    {
        if self.is(wanted) {
            self.step()
        } else {
            Err(self.unexpected())
        }
    }

    // The number of the last node that there is.
    pub fn last(&self) -> u16
        requires { 0 < self.now.count }
        ensures { result ≡ self.now.count - 1 }
    {
        self.count - 1
    }

    // Writes the node behind those that there are, if there is a place, and counts it.
    // Stays: the count beside the caller's slice, since nodes are counted even where it has no place for them.
    pub fn push(&mut self, out: &mut [Node], node: Node)
        requires { self.old.count < 65535 }
        ensures nodes { out.new ≡ write out.old self.old.count (node ∷ []) }
        ensures count { self.new.count ≡ self.old.count + 1 }
        ensures token { self.new.token ≡ self.old.token }
        ensures sheet { SameSheet self.old self.new }
    {
        put(out, self.count, node);
        self.count += 1;
    }
}
