// Expressions: terms joined from left to right.
ghost use Rattle.std.specs.Prelude.{◌≡◌, ℕ, ◌+◌, ◌≤◌, List, OnOk};
ghost use Rattle.nodes.specs.declared.node.Node.{Node};
ghost use Rattle.grammar.specs.Grammar.{Tree};
ghost use Rattle.grammar.specs.Machine.{Before, For, term as open_term, tail, leaving, start, with};
ghost use Rattle.cursor.specs.Layout.{size, lay, write};
ghost use Rattle.cursor.specs.Reading.{numbers};
ghost use Rattle.parser.specs.Parts.{Room, MovesOn, PastMore, ReadAs};

use cursor::cursor::Cursor;
use nodes::node::Node;
use words::word::{Fault, Fixed};

// Stays: `Room` here, and `Space` in statements and declarations, are asked of each call, since what may still be counted shrinks with each node, so it is no fact of every cursor.
#[cycle(expression_more_operand_term)]
pub fn expression(cursor: &mut Cursor<'_>, out: &mut [Node]) -> Result<(), Fault>
    requires { Room cursor.old }
    ensures on { OnOk result (MovesOn cursor.old cursor.new) }
    ensures is { ReadAs (open_term start) leaving cursor.old.count out.old out.new result cursor.old cursor.new }
{
    term(cursor, out)?;
    more(cursor, out)
}

// What may follow a term: another, joined to all before it.
#[cycle(expression_more_operand_term)]
fn more(cursor: &mut Cursor<'_>, out: &mut [Node]) -> Result<(), Fault>
    requires { Room cursor.old × (1 ≤ cursor.old.count) }
    ensures on { OnOk result (PastMore cursor.old cursor.new) }
    ensures is { (e : Tree) (n : ℕ) (xs : List Node) → cursor.old.count ≡ n + size e → out.old ≡ write xs n (lay (numbers cursor.old) n e) → ReadAs (λ f. tail f e) leaving n xs out.new result cursor.old cursor.new }
{
    match cursor.joint() {
        None => Ok(()),
        Some(joint) => {
            let left = cursor.last();
            cursor.step()?;
            operand(cursor, out)?;
            let right = cursor.last();
            cursor.push(out, joint.view(left, right).into());
            more(cursor, out)
        }
    }
}

// The right operand: one term, so that terms are joined from left to right.
// Stays: beside `term`, so that one line says which of the two stands on the right.
#[cycle(expression_more_operand_term)]
fn operand(cursor: &mut Cursor<'_>, out: &mut [Node]) -> Result<(), Fault>
    requires { Room cursor.old }
    ensures on { OnOk result (MovesOn cursor.old cursor.new) }
    ensures is { ReadAs {C = Before × For} (λ c. open_term c.0 c.1) (λ c e. tail c.1 (with c.0 e)) cursor.old.count out.old out.new result cursor.old cursor.new }
{
    term(cursor, out)
}

// A name, a number, a text constant, or an expression in parentheses.
#[cycle(expression_more_operand_term)]
fn term(cursor: &mut Cursor<'_>, out: &mut [Node]) -> Result<(), Fault>
    requires { Room cursor.old }
    ensures on { OnOk result (MovesOn cursor.old cursor.new) }
    ensures is { ReadAs {C = Before × For} (λ c. open_term c.0 c.1) (λ c e. tail c.1 (with c.0 e)) cursor.old.count out.old out.new result cursor.old cursor.new }
{
    match cursor.leaf() {
        Some(node) => {
            cursor.push(out, node);
            cursor.step()
        }
        None => {
            cursor.expect(Fixed::Open)?;
            expression(cursor, out)?;
            cursor.expect(Fixed::Close)
        }
    }
}
