// Read: fills the caller's nodes, or tells the first fault.
ghost use Rattle.std.specs.Prelude.{◌≡◌, ◌*◌, ◌≤◌, [], length, replicate, IfOk};
ghost use Rattle.nodes.specs.Limits.{most_letters};
ghost use Rattle.nodes.specs.Nodes.{blank};
ghost use Rattle.reader.specs.Sheet.{OpenedAs, SheetAs, FilledAs};
ghost use Rattle.reader.specs.Read.{read_says, read_nodes};

use arrayvec::ArrayVec;
use cursor::cursor::Cursor;
use nodes::binding::Binding;
use nodes::limits::{LETTERS, NODES};
use nodes::node::{BLANK, Node};
use parser::declarations::{declaration, others};
use parser::statement::block;
use spelling::Entry;
use words::word::{Fault, Fixed, Refusal, Word};

// How many nodes a sheet has, and how many of them, the first, declare variables.
#[derive(Clone, Copy, PartialEq, Eq, Debug)]
pub struct Sizes {
    pub nodes: u16,
    pub variables: u16,
}

// `begin`, `declare` and all declarations: their nodes, and their names.
fn opening<'a>(
    text: &'a [u8],
    out: &mut [Node],
    names: &mut ArrayVec<Entry<Binding>, NODES>,
) -> Result<Cursor<'a>, Fault>
    requires { (length text.now ≤ most_letters) × (names.old.items ≡ []) }
    ensures on { IfOk result (λ a. (a.text.now ≡ text.now) × (a.count ≤ 2 * a.token.place)) }
    ensures is { OpenedAs text.now out.old out.new names.new.items result }
{
    let mut cursor = Cursor::new(text)?;
    cursor.expect(Fixed::Begin)?;
    cursor.expect(Fixed::Declare)?;
    declaration(&mut cursor, out, names)?;
    others(&mut cursor, out, names)?;
    Ok(cursor)
}

// Reads a whole sheet into nodes that are as yet blank. After a fault the nodes hold anything.
fn sheet(text: &[u8], out: &mut [Node]) -> Result<Sizes, Fault>
    ensures { SheetAs text.now out.old out.new result }
{
    if text.len() > LETTERS {
        return Err(Fault {
            refusal: Refusal::LongSheet,
            place: LETTERS,
        });
    }
    let mut names = ArrayVec::new();
    let opened = opening(text, out, &mut names)?;
    let mut cursor = Cursor {
        text,
        names: names.as_slice(),
        token: opened.token,
        count: opened.count,
    };
    block(&mut cursor, out, Fixed::End)?;
    match cursor.token.word {
        Word::End => Ok(Sizes {
            nodes: cursor.count,
            variables: opened.count,
        }),
        _ => Err(Fault {
            refusal: Refusal::AfterEnd,
            place: cursor.token.place,
        }),
    }
}

fn wipe(nodes: &mut [Node])
    ensures { nodes.new ≡ replicate (length nodes.old) blank }
{
    nodes.fill(BLANK);
}

// Reads a whole sheet into the nodes, however many that takes.
fn fill(text: &[u8], nodes: &mut [Node]) -> Result<Sizes, Fault>
    ensures { FilledAs text.now (length nodes.old) nodes.new result }
{
    wipe(nodes);
    sheet(text, nodes)
}

// The client's Read: the sheet's nodes and then zeros, or the first fault and all zeros.
pub fn read(text: &[u8], nodes: &mut [Node]) -> Result<Sizes, Fault>
    ensures says { result ≡ read_says text.now (length nodes.old) }
    ensures nodes { nodes.new ≡ read_nodes text.now (length nodes.old) }
{
    // Stays: a match, since the nodes are wiped before a fault goes on; the one of the count has place 0, since it belongs to no word.
    match fill(text, nodes) {
        Ok(sizes) => {
            if usize::from(sizes.nodes) > NODES.min(nodes.len()) {
                wipe(nodes);
                return Err(Fault {
                    refusal: Refusal::ManyNodes,
                    place: 0,
                });
            }
            Ok(sizes)
        }
        Err(fault) => {
            wipe(nodes);
            Err(fault)
        }
    }
}
