// What a node says, by its kind.
ghost use Rattle.std.specs.Prelude.{◌≡◌, slice_index_or};
ghost use Rattle.nodes.specs.Nodes as N;
ghost use Rattle.nodes.specs.Nodes.{node_at, view_of, node_of, of_sort, arrows_of, type_of};

use crate::kind::Kind;
use crate::node::{
    ASSIGN, BLANK, CONC, DECLARATION, EMPTY, IF, NUMBER, Node, PLUS, SERIES, TEXT, VARIABLE, WHILE,
};

// A node with its fields named. `place` and `size` are a part of the letters; the other fields but `kind`, `number` and a number's `value` are arrows, numbers of lower nodes.
#[derive(Clone, Copy, PartialEq, Eq, Debug)]
pub enum View {
    Declaration {
        place: u16,
        size: u16,
        kind: u16,
    },
    Variable {
        place: u16,
        size: u16,
        number: u16,
    },
    Number {
        value: u32,
    },
    Text {
        place: u16,
        size: u16,
    },
    // Stays: arrows by number, here and below, since that is how a sheet and a card have them, in fixed memory.
    Plus {
        left: u16,
        right: u16,
    },
    Conc {
        left: u16,
        right: u16,
    },
    Assign {
        target: u16,
        value: u16,
    },
    If {
        test: u16,
        then: u16,
        otherwise: u16,
    },
    While {
        test: u16,
        body: u16,
    },
    Series {
        statement: u16,
        rest: u16,
    },
    Empty,
    // Stays: a card may bring a node of any kind, and with an Option each match over views, here, in `deck` and in the definitions, would have two layers for it.
    Unknown,
}

// The sort of node that an arrow asks for.
#[derive(Clone, Copy, PartialEq, Eq, Debug)]
pub enum Sort {
    Variable,
    Expression,
    Statement,
    Series,
}

#[derive(Clone, Copy, PartialEq, Eq, Debug)]
pub struct Arrow {
    pub sort: Sort,
    pub to: u16,
}

// The arrows of a node.
// Stays: none, two or three by cases, since the definitions have these cases, and a list would bring a vector into each node's judgement for this alone.
#[derive(Clone, Copy, PartialEq, Eq, Debug)]
pub enum Arrows {
    Leaf,
    Two(Arrow, Arrow),
    Three(Arrow, Arrow, Arrow),
}

fn node(kind: u8, a: u16, b: u16, c: u16) -> Node
    ensures { result ≡ N.node kind a b c }
{
    Node { kind, a, b, c }
}

impl Node {
    pub fn view(self) -> View
        ensures { result ≡ view_of self }
    {
        let Node { kind, a, b, c } = self;
        match kind {
            DECLARATION => View::Declaration {
                place: a,
                size: b,
                kind: c,
            },
            VARIABLE => View::Variable {
                place: a,
                size: b,
                number: c,
            },
            NUMBER => View::Number {
                value: a as u32 + 65536 * b as u32,
            },
            TEXT => View::Text { place: a, size: b },
            PLUS => View::Plus { left: a, right: b },
            CONC => View::Conc { left: a, right: b },
            ASSIGN => View::Assign {
                target: a,
                value: b,
            },
            IF => View::If {
                test: a,
                then: b,
                otherwise: c,
            },
            WHILE => View::While { test: a, body: b },
            SERIES => View::Series {
                statement: a,
                rest: b,
            },
            EMPTY => View::Empty,
            _ => View::Unknown,
        }
    }
}

impl From<View> for Node {
    ghost from_gives = { λ view result. result ≡ node_of view };

    fn from(view: View) -> Node {
        match view {
            View::Declaration { place, size, kind } => node(DECLARATION, place, size, kind),
            View::Variable {
                place,
                size,
                number,
            } => node(VARIABLE, place, size, number),
            View::Number { value } => node(
                NUMBER,
                (value % 65536) as u16,
                (value / 65536) as u16,
                0,
            ),
            View::Text { place, size } => node(TEXT, place, size, 0),
            View::Plus { left, right } => node(PLUS, left, right, 0),
            View::Conc { left, right } => node(CONC, left, right, 0),
            View::Assign { target, value } => node(ASSIGN, target, value, 0),
            View::If {
                test,
                then,
                otherwise,
            } => node(IF, test, then, otherwise),
            View::While { test, body } => node(WHILE, test, body, 0),
            View::Series { statement, rest } => node(SERIES, statement, rest, 0),
            View::Empty => node(EMPTY, 0, 0, 0),
            View::Unknown => BLANK,
        }
    }
}

impl Sort {
    // Whether a node of this kind is of the sort.
    // Stays: a kind by its number, since a node may bring any byte.
    pub fn has(self, kind: u8) -> bool
        ensures { result ≡ of_sort self kind }
    {
        match self {
            Sort::Variable => kind == VARIABLE,
            Sort::Expression => kind >= VARIABLE && kind <= CONC,
            Sort::Statement => kind >= ASSIGN && kind <= WHILE,
            Sort::Series => kind >= SERIES && kind <= EMPTY,
        }
    }
}

fn two(s: Sort, a: u16, t: Sort, b: u16) -> Arrows
    ensures { result ≡ Arrows.Two (record { sort = s; to = a }) (record { sort = t; to = b }) }
{
    Arrows::Two(Arrow { sort: s, to: a }, Arrow { sort: t, to: b })
}

impl View {
    pub fn arrows(self) -> Arrows
        ensures { result ≡ arrows_of self }
    {
        match self {
            View::Plus { left, right } => two(Sort::Expression, left, Sort::Expression, right),
            View::Conc { left, right } => two(Sort::Expression, left, Sort::Expression, right),
            View::Assign { target, value } => two(Sort::Variable, target, Sort::Expression, value),
            View::If {
                test,
                then,
                otherwise,
            } => Arrows::Three(
                Arrow {
                    sort: Sort::Expression,
                    to: test,
                },
                Arrow {
                    sort: Sort::Series,
                    to: then,
                },
                Arrow {
                    sort: Sort::Series,
                    to: otherwise,
                },
            ),
            View::While { test, body } => two(Sort::Expression, test, Sort::Series, body),
            View::Series { statement, rest } => two(Sort::Statement, statement, Sort::Series, rest),
            _ => Arrows::Leaf,
        }
    }
}

// Element i, a default past the end.
pub fn at<T: Copy>(xs: &[T], i: usize, default: T) -> T
    ensures { result ≡ slice_index_or xs.now i default }
{
    xs.get(i).copied().unwrap_or(default)
}

// Node i, the blank one past the end.
pub fn node_at(nodes: &[Node], i: usize) -> Node
    ensures { result ≡ node_at nodes.now i }
{
    at(nodes, i, BLANK)
}

// The type of node i, where it is an expression, and otherwise 0.
// Stays: a number, since this call takes any nodes, a declaration among them may have any number, and Load compares the numbers as they stand.
pub fn type_at(nodes: &[Node], i: u16) -> u16
    ensures { result ≡ type_of nodes.now i }
{
    match node_at(nodes, i as usize).view() {
        View::Variable { number, .. } => node_at(nodes, number as usize).c,
        View::Number { .. } | View::Plus { .. } => Kind::Integer.into(),
        View::Text { .. } => Kind::String.into(),
        View::Conc { .. } => Kind::String.into(),
        _ => 0,
    }
}
