// Declarations: names with their types, into nodes and into the names.
ghost use Rattle.std.specs.Prelude.{◌≡◌, List, OnOk};
ghost use Rattle.nodes.specs.declared.node.Node.{Node};
ghost use Rattle.grammar.specs.Grammar.{Tree};
ghost use Rattle.parser.specs.Parts.{noted, Space, PastWords, TypedAs, PastDeclaration, DeclaredAs, Listed, PastOthers, ListedAs};

use arrayvec::ArrayVec;
use cursor::cursor::Cursor;
use nodes::binding::Binding;
use nodes::kind::Kind;
use nodes::limits::NODES;
use nodes::node::Node;
use nodes::view::View;
use spelling::Entry;
use words::word::{Fault, Fixed, Word};

// The type of a declaration.
fn kind(cursor: &mut Cursor<'_>) -> Result<Kind, Fault>
    ensures on { OnOk result (PastWords cursor.old cursor.new) }
    ensures is { TypedAs result cursor.old cursor.new }
{
    if cursor.is(Fixed::Integer) {
        cursor.step()?;
        Ok(Kind::Integer)
    } else {
        cursor.expect(Fixed::String)?;
        Ok(Kind::String)
    }
}

// Notes a name, if there is a place for it.
fn note(names: &mut ArrayVec<Entry<Binding>, NODES>, entry: Entry<Binding>)
    ensures { names.new.items ≡ noted names.old.items entry }
{
    if !names.is_full() {
        names.push(entry);
    }
}

// Name, `:` and type: the node at the count, and the name, if there is a place for it.
// Stays: the nodes beside the cursor, here and in expressions and statements, since Read fills a slice of its caller.
pub fn declaration(
    cursor: &mut Cursor<'_>,
    out: &mut [Node],
    names: &mut ArrayVec<Entry<Binding>, NODES>,
) -> Result<(), Fault>
    requires { Space cursor.old }
    ensures on { OnOk result (PastDeclaration cursor.old cursor.new) }
    ensures is { DeclaredAs out.old out.new names.old.items names.new.items result cursor.old cursor.new }
{
    match cursor.token.word {
        Word::Name(_) => {
            let place = cursor.token.place;
            let size = cursor.token.next - place;
            cursor.step()?;
            cursor.expect(Fixed::Colon)?;
            let kind = u16::from(kind(cursor)?);
            let number = cursor.count;
            note(
                names,
                Entry {
                    place,
                    size,
                    value: Binding { kind, number },
                },
            );
            let node = View::Declaration {
                place: place as u16,
                size: size as u16,
                kind,
            };
            cursor.push(out, node.into());
            Ok(())
        }
        _ => Err(cursor.unexpected()),
    }
}

// What follows a declaration: a comma and another, or `;`.
pub fn others(
    cursor: &mut Cursor<'_>,
    out: &mut [Node],
    names: &mut ArrayVec<Entry<Binding>, NODES>,
) -> Result<(), Fault>
    requires { Space cursor.old }
    ensures on { OnOk result (PastOthers cursor.old cursor.new) }
    ensures is { (d : Tree) (xs : List Node) → Listed d cursor.old.count xs out.old names.old.items → ListedAs d xs out.new names.new.items result cursor.old cursor.new }
{
    if cursor.is(Fixed::Comma) {
        cursor.step()?;
        declaration(cursor, out, names)?;
        others(cursor, out, names)
    } else {
        cursor.expect(Fixed::Semicolon)
    }
}
