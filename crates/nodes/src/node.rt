// A node (the client's box), and the numbers of its kinds.

// A node: its kind and three fields, which mean what the kind says; `View` names them.
// Stays: the kind is a byte, since a card or a caller may bring any.
#[derive(Clone, Copy, PartialEq, Eq, Default, Debug)]
pub struct Node {
    pub kind: u8,
    pub a: u16,
    pub b: u16,
    pub c: u16,
}

// The node of which everything is 0; it is of no kind.
pub const BLANK: Node = Node {
    kind: 0,
    a: 0,
    b: 0,
    c: 0,
};

// Stays: numbers, here, in `view` and in `Sort::has`, since a node's kind is a byte that may be any; nothing outside this crate sees them.
pub(crate) const DECLARATION: u8 = 1;

pub(crate) const VARIABLE: u8 = 2;

pub(crate) const NUMBER: u8 = 3;

pub(crate) const TEXT: u8 = 4;

pub(crate) const PLUS: u8 = 5;

pub(crate) const CONC: u8 = 6;

pub(crate) const ASSIGN: u8 = 7;

pub(crate) const IF: u8 = 8;

pub(crate) const WHILE: u8 = 9;

pub(crate) const SERIES: u8 = 10;

pub(crate) const EMPTY: u8 = 11;
