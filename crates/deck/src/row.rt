// What is written down of the nodes that a judgement has passed.
ghost use Rattle.std.specs.Prelude.{◌≡◌, ◌-◌, ◌<◌, ◌≤◌, not, length};
ghost use Rattle.std.specs.List.{AllByRecursion, position};
ghost use Rattle.deck.specs.declared.row.Row.{Row};
ghost use Rattle.nodes.specs.Limits.{most_nodes};
ghost use Rattle.nodes.specs.Nodes.{targets};
ghost use Rattle.nodes.specs.Trees.{level_by, nest_by};
ghost use Rattle.deck.specs.Load.{first};
ghost use Rattle.deck.specs.Rules.{ensured};
ghost use Rattle.deck.specs.Tied.{row_at, marked, loose};

use crate::fault::Refusal;
use nodes::view::{Arrows, View, at};

#[derive(Clone, Copy, PartialEq, Eq, Default, Debug)]
pub struct Row {
    pub level: u8,
    pub nest: u8,
    // Whether an arrow leads to the node.
    pub taken: bool,
}

// The row of node i, a blank one past the end.
pub(crate) fn row_at(rows: &[Row], i: u16) -> Row
    ensures { result ≡ row_at rows.now i }
{
    at(rows, i as usize, Row::default())
}

// The level of a node, from the rows of lower ones.
pub(crate) fn level(rows: &[Row], view: View) -> u16
    ensures { result ≡ level_by (λ k. (row_at rows.now k).level) view }
{
    match view {
        View::Variable { .. } | View::Number { .. } | View::Text { .. } => 1,
        View::Plus { left, right } | View::Conc { left, right } => 1
            + row_at(rows, left).level.max(row_at(rows, right).level) as u16,
        _ => 0,
    }
}

// The nest of a node, from the rows of lower ones.
pub(crate) fn nest(rows: &[Row], view: View) -> u16
    ensures { result ≡ nest_by (λ k. (row_at rows.now k).nest) view }
{
    match view {
        View::If {
            then,
            otherwise,
            ..
        } => 1 + row_at(rows, then).nest.max(row_at(rows, otherwise).nest) as u16,
        View::While { body, .. } => 1 + row_at(rows, body).nest as u16,
        View::Series { statement, rest } => row_at(rows, statement)
            .nest
            .max(row_at(rows, rest).nest) as u16,
        _ => 0,
    }
}

// Marks the nodes that these arrows lead to.
// Stays: two or three arrows by cases, as the definitions have them.
pub(crate) fn mark(rows: &mut [Row], arrows: Arrows)
    requires { AllByRecursion (λ k. k < length rows.old) (targets arrows) }
    ensures { rows.new ≡ marked rows.old (targets arrows) }
{
    match arrows {
        Arrows::Leaf => {}
        Arrows::Two(x, y) => {
            rows[x.to as usize].taken = true;
            rows[y.to as usize].taken = true;
        }
        Arrows::Three(x, y, z) => {
            rows[x.to as usize].taken = true;
            rows[y.to as usize].taken = true;
            rows[z.to as usize].taken = true;
        }
    }
}

// The first row of a node that no arrow leads to.
fn first_loose(rows: &[Row]) -> Option<usize>
    ensures { result ≡ position (λ (r : Row). not r.taken) rows.now }
{
    rows.iter().position(|row| !row.taken)
}

// The lowest node from `from` on that no arrow leads to.
pub(crate) fn lowest_loose(rows: &[Row], from: usize) -> Option<u16>
    requires order { from ≤ length rows.now }
    requires few { length rows.now ≤ most_nodes }
    ensures { loose result ≡ first (λ k. ensured (row_at rows.now k).taken Refusal.NotOneTree) (length rows.now - from) from }
{
    let place = first_loose(&rows[from..])?;
    Some((from + place) as u16)
}
