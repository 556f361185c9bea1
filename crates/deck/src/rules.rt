// The rules of one node.
ghost use Rattle.std.specs.Prelude.{◌≡◌, ◌||◌, take, is_some, IfSome, ◌==◌};
ghost use Rattle.nodes.specs.Nodes.{leads, all_lead, targets, type_of, integer, string};
ghost use Rattle.nodes.specs.Kinds.{kind_number};
ghost use Rattle.deck.specs.Rules.{inside, spelled, placed as placed_at, named as named_at, worded as worded_at, formed as formed_by, again as again_at, looked as looked_up, same_number, agree as agreeing, shallow as shallow_at, ensured};
ghost use Rattle.deck.specs.Load.{after};
ghost use Rattle.deck.specs.Tied.{row_at};

use crate::fault::Refusal;
use crate::row::{Row, row_at};
use nodes::binding::Binding;
use nodes::kind::Kind;
use nodes::limits::{LEVEL, NEST};
use nodes::node::Node;
use nodes::view::{Arrow, Arrows, View, node_at, type_at};
use spelling::{Entry, find};
use words::byte::{Class, all};
use words::name::is_name;
use words::scan::LONGEST;

// Refused, unless the rule holds.
pub fn ensure<E: Copy>(holds: bool, refusal: E) -> Result<(), E>
    ensures { result ≡ ensured holds refusal }
{
    if holds { Ok(()) } else { Err(refusal) }
}

pub(crate) fn placed(v: usize, i: usize, x: Node) -> bool
    ensures { result ≡ placed_at v i x.kind }
{
    match x.view() {
        View::Declaration { .. } => i < v,
        View::Unknown => false,
        _ => v <= i,
    }
}

// The part of the letters, where it lies within them.
fn part<'a>(letters: &'a [u8], place: u16, size: u16) -> Option<&'a [u8]>
    ensures within { is_some result ≡ inside letters.now place size }
    ensures spelling { IfSome result (λ w. w.now ≡ spelled letters.now place size) }
{
    letters.get(place as usize..place as usize + size as usize)
}

fn named(letters: &[u8], place: u16, size: u16) -> bool
    ensures { result ≡ named_at letters.now place size }
{
    part(letters, place, size).is_some_and(is_name)
}

fn worded(letters: &[u8], place: u16, size: u16) -> bool
    ensures { result ≡ worded_at letters.now place size }
{
    part(letters, place, size).is_some_and(|word| word.len() <= LONGEST
        && all(word, Class::Allowed))
}

// Whether the number stands for a type.
fn is_kind(number: u16) -> bool
    ensures { result ≡ (number == integer || number == string) }
{
    Kind::try_from(number).is_ok()
}

pub(crate) fn formed(letters: &[u8], x: Node) -> bool
    ensures { result ≡ formed_by letters.now x }
{
    match x.view() {
        View::Declaration { place, size, kind } => { named(letters, place, size) && is_kind(kind) }
        View::Variable { place, size, .. } => named(letters, place, size),
        View::Text { place, size } => worded(letters, place, size) && x.c == 0,
        View::If { .. } => true,
        View::Empty => x.a == 0 && x.b == 0 && x.c == 0,
        _ => x.c == 0,
    }
}

fn lead(nodes: &[Node], i: usize, arrow: Arrow) -> bool
    ensures { result ≡ leads nodes.now i arrow }
{
    (arrow.to as usize) < i && arrow.sort.has(node_at(nodes, arrow.to as usize).kind)
}

// Stays: two or three arrows by cases, as the definitions have them.
pub(crate) fn led(nodes: &[Node], i: usize, arrows: Arrows) -> bool
    ensures { result ≡ all_lead nodes.now i arrows }
{
    match arrows {
        Arrows::Leaf => true,
        Arrows::Two(x, y) => lead(nodes, i, x) && lead(nodes, i, y),
        Arrows::Three(x, y, z) => lead(nodes, i, x) && lead(nodes, i, y) && lead(nodes, i, z),
    }
}

// Whether an arrow leads where one led before, or two of these lead to one node.
// Stays: two or three arrows by cases, as the definitions have them.
pub(crate) fn again(rows: &[Row], arrows: Arrows) -> bool
    ensures { result ≡ again_at (λ k. (row_at rows.now k).taken) (targets arrows) }
{
    match arrows {
        Arrows::Leaf => false,
        Arrows::Two(x, y) => row_at(rows, x.to).taken || x.to == y.to || row_at(rows, y.to).taken,
        Arrows::Three(x, y, z) => {
            row_at(rows, x.to).taken
                || x.to == y.to
                || x.to == z.to
                || row_at(rows, y.to).taken
                || y.to == z.to
                || row_at(rows, z.to).taken
        }
    }
}

// What the name of a node is declared as.
pub(crate) fn looked(letters: &[u8], names: &[Entry<Binding>], x: Node) -> Option<Binding>
    ensures { result ≡ looked_up letters.now names.now x }
{
    find(letters, names, part(letters, x.a, x.b).unwrap_or(&[]))
}

// What a variable of this number has against it, by what its name is declared as.
pub(crate) fn bound(found: Option<Binding>, number: u16) -> Result<(), Refusal>
    ensures { result ≡ after (ensured (is_some found) Refusal.Undeclared) (ensured (same_number number found) Refusal.Misnumbered) }
{
    let declared = found.ok_or(Refusal::Undeclared)?;
    ensure(number == declared.number, Refusal::Misnumbered)
}

// Whether node i is an expression of the type.
fn is_of(nodes: &[Node], i: u16, kind: Kind) -> bool
    ensures { result ≡ (type_of nodes.now i == kind_number kind) }
{
    type_at(nodes, i) == kind.into()
}

pub(crate) fn agree(nodes: &[Node], view: View) -> bool
    ensures { result ≡ agreeing nodes.now view }
{
    match view {
        View::Plus { left, right } => is_of(nodes, left, Kind::Integer)
            && is_of(nodes, right, Kind::Integer),
        View::Conc { left, right } => is_of(nodes, left, Kind::String)
            && is_of(nodes, right, Kind::String),
        View::Assign { target, value } => type_at(nodes, target) == type_at(nodes, value),
        View::If { test, .. } | View::While { test, .. } => is_of(nodes, test, Kind::Integer),
        _ => true,
    }
}

pub(crate) fn shallow(level: u16, nest: u16) -> bool
    ensures { result ≡ shallow_at level nest }
{
    level <= LEVEL && nest <= NEST
}

// The names that nodes below i declare.
pub(crate) fn lower<'a>(names: &'a [Entry<Binding>], i: usize) -> &'a [Entry<Binding>]
    ensures { result.now ≡ take i names.now }
{
    &names[..i.min(names.len())]
}
