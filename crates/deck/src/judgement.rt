// The judgement of a sheet, node by node.
ghost use Rattle.std.specs.Prelude.{◌≡◌, ◌+◌, ◌-◌, ◌<◌, ◌≤◌, true, [], List, length, OnOk};
ghost use Rattle.nodes.specs.Limits.{most_nodes, deepest_level, deepest_nest};
ghost use Rattle.nodes.specs.Nodes.{node_at, view_of, arrows_of, all_lead};
ghost use Rattle.nodes.specs.Trees.{tree, level as level_of, nest as nest_of, level_by, nest_by};
ghost use Rattle.deck.specs.Load.{first, shape as shape_of, naming as naming_of, fitting as fitting_of, said, judged, whole as whole_of};
ghost use Rattle.deck.specs.Rules.{names as names_by, taken as taken_by, ensured};
ghost use Rattle.deck.specs.Tied.{Tied, row_at, loose};

use crate::fault::{Fault, Refusal};
use crate::row::{Row, level, lowest_loose, mark, nest};
use crate::rules::{again, agree, bound, ensure, formed, led, looked, lower, placed, shallow};
use arrayvec::ArrayVec;
use nodes::binding::Binding;
use nodes::limits::NODES;
use nodes::node::Node;
use nodes::view::{Sort, View};
use spelling::Entry;

// A sheet, the names that it declares, and a row for each node that has passed: the next one is in hand.
#[derive(Drop)]
pub(crate) struct Judgement<'a> {
    letters: &'a [u8],
    nodes: &'a [Node],
    names: &'a [Entry<Binding>],
    rows: ArrayVec<Row, NODES>,
    ghost few: { length nodes.now ≤ most_nodes },
    ghost named: { names.now ≡ names_by (length names.now) nodes.now },
    ghost tied: { Tied nodes.now rows.items },
}

impl<'a> Judgement<'a> {
    ghost use Rattle.deck.specs.Judgement.{sheet_in};

    // Nothing is judged yet.
    pub(crate) fn new(letters: &'a [u8], nodes: &'a [Node], names: &'a [Entry<Binding>]) -> Self
        requires few { length nodes.now ≤ most_nodes }
        requires named { names.now ≡ names_by (length names.now) nodes.now }
        ensures sheet { sheet_in result ≡ record { letters = letters.now; nodes = nodes.now; variables = length names.now } }
        ensures none { result.rows.items ≡ [] }
    {
        Judgement {
            letters,
            nodes,
            names,
            rows: ArrayVec::new(),
        }
    }

    // What place, fields and arrows of the node x have against it.
    fn shape(&self, x: Node) -> Result<(), Refusal>
        ensures { result ≡ shape_of self.now.letters.now self.now.nodes.now (length self.now.names.now) (length self.now.rows.items) x (λ k. (row_at self.now.rows.items k).taken) }
    {
        let i = self.rows.len();
        ensure(placed(self.names.len(), i, x), Refusal::Misplaced)?;
        ensure(formed(self.letters, x), Refusal::Malformed)?;
        let arrows = x.view().arrows();
        ensure(led(self.nodes, i, arrows), Refusal::Astray)?;
        ensure(!again(&self.rows, arrows), Refusal::SecondArrow)
    }

    // What its name has against it.
    fn naming(&self, x: Node) -> Result<(), Refusal>
        ensures { result ≡ naming_of self.now.letters.now self.now.names.now (length self.now.rows.items) x }
    {
        match x.view() {
            View::Declaration { .. } => {
                let declared = lower(self.names, self.rows.len());
                ensure(
                    looked(self.letters, declared, x).is_none(),
                    Refusal::Redeclared,
                )
            }
            View::Variable { number, .. } => bound(looked(self.letters, self.names, x), number),
            _ => Ok(()),
        }
    }

    // What its types, level and nest have against it.
    fn fitting(&self, x: Node) -> Result<(), Refusal>
        ensures { result ≡ fitting_of self.now.nodes.now x (level_by (λ k. (row_at self.now.rows.items k).level) (view_of x)) (nest_by (λ k. (row_at self.now.rows.items k).nest) (view_of x)) }
    {
        let view = x.view();
        ensure(agree(self.nodes, view), Refusal::Disagreeing)?;
        ensure(
            shallow(level(&self.rows, view), nest(&self.rows, view)),
            Refusal::TooDeep,
        )
    }

    // What it has against it, as the rows tell.
    fn say(&self, x: Node) -> Result<(), Refusal>
        ensures { result ≡ said self.now.letters.now self.now.names.now self.now.nodes.now (length self.now.names.now) (length self.now.rows.items) x (λ k. (row_at self.now.rows.items k).taken) (level_by (λ k. (row_at self.now.rows.items k).level) (view_of x)) (nest_by (λ k. (row_at self.now.rows.items k).nest) (view_of x)) }
    {
        self.shape(x)?;
        self.naming(x)?;
        self.fitting(x)
    }

    // Writes down the node in hand, which is x and has nothing against it.
    fn pass(&mut self, x: Node)
        requires some { length self.old.rows.items < length self.old.nodes.now }
        requires here { x ≡ node_at self.old.nodes.now (length self.old.rows.items) }
        requires led { all_lead self.old.nodes.now (length self.old.rows.items) (arrows_of (view_of x)) ≡ true }
        requires level { level_of (tree self.old.nodes.now (length self.old.rows.items)) ≤ deepest_level }
        requires nest { nest_of (tree self.old.nodes.now (length self.old.rows.items)) ≤ deepest_nest }
        ensures sheet { sheet_in self.new ≡ sheet_in self.old }
        ensures next { length self.new.rows.items ≡ length self.old.rows.items + 1 }
    {
        let view = x.view();
        let row = Row {
            level: level(&self.rows, view) as u8,
            nest: nest(&self.rows, view) as u8,
            taken: false,
        };
        mark(&mut self.rows, view.arrows());
        self.rows.push(row);
    }

    // What the node in hand, which is x, has against it. If that is nothing, the next one is in hand.
    pub(crate) fn judge(&mut self, x: Node) -> Result<(), Refusal>
        requires some { length self.old.rows.items < length self.old.nodes.now }
        requires here { x ≡ node_at self.old.nodes.now (length self.old.rows.items) }
        ensures says { result ≡ judged self.old.letters.now self.old.nodes.now (length self.old.names.now) (length self.old.rows.items) }
        ensures sheet { sheet_in self.new ≡ sheet_in self.old }
        ensures next { OnOk result (length self.new.rows.items ≡ length self.old.rows.items + 1) }
    {
        self.say(x)?;
        self.pass(x);
        Ok(())
    }

    // The lowest node behind the declarations, but for the last, that no arrow leads to. All nodes have passed.
    fn lowest_loose(&self) -> Option<u16>
        requires all { length self.now.rows.items ≡ length self.now.nodes.now }
        requires some { length self.now.names.now < length self.now.nodes.now }
        ensures { loose result ≡ first (λ k. ensured (taken_by self.now.nodes.now (length self.now.nodes.now) k) Refusal.NotOneTree) (length self.now.nodes.now - 1 - length self.now.names.now) (length self.now.names.now) }
    {
        lowest_loose(&self.rows[..self.nodes.len() - 1], self.names.len())
    }

    // Whether the last node is a series, and every other behind the declarations has an arrow to it. All nodes have passed.
    pub(crate) fn whole(&self) -> Result<(), Fault>
        requires all { length self.now.rows.items ≡ length self.now.nodes.now }
        requires some { length self.now.names.now < length self.now.nodes.now }
        ensures { result ≡ whole_of self.now.nodes.now (taken_by self.now.nodes.now (length self.now.nodes.now)) (length self.now.nodes.now) (length self.now.names.now) }
    {
        let last = self.nodes.len() - 1;
        if !Sort::Series.has(self.nodes[last].kind) {
            return Err(not_one_tree(last as u16));
        }
        match self.lowest_loose() {
            Some(node) => Err(not_one_tree(node)),
            None => Ok(()),
        }
    }
}

fn not_one_tree(node: u16) -> Fault
    ensures { result ≡ record { refusal = Refusal.NotOneTree; node = node } }
{
    Fault {
        refusal: Refusal::NotOneTree,
        node,
    }
}
