// The parts of an answer.
use nodes::node::Node;
use std::fmt;

// Bytes written in hexadecimal; `-` where there are none.
#[derive(Clone, Copy)]
pub struct Hex<'a>(pub &'a [u8]);

impl fmt::Display for Hex<'_> {
    fn fmt<W: fmt::Write>(&self, f: &mut fmt::Formatter<W>) -> fmt::Result {
        if self.0.is_empty() {
            f.write_char('-')?;
        }
        for byte in self.0 {
            write!(f, "{byte:02x}")?;
        }
        Ok(())
    }
}

// Nodes as KIND.A.B.C with commas between them; `-` where there are none.
#[derive(Clone, Copy)]
pub struct Listed<'a>(pub &'a [Node]);

impl fmt::Display for Listed<'_> {
    fn fmt<W: fmt::Write>(&self, f: &mut fmt::Formatter<W>) -> fmt::Result {
        if self.0.is_empty() {
            f.write_char('-')?;
        }
        for (i, node) in self.0.iter().enumerate() {
            if i > 0 {
                f.write_char(',')?;
            }
            let Node { kind, a, b, c } = *node;
            write!(f, "{kind}.{a}.{b}.{c}")?;
        }
        Ok(())
    }
}

// A node filled with ones, as buffers are before a call.
pub const ONES: Node = Node {
    kind: 255,
    a: 65535,
    b: 65535,
    c: 65535,
};

// Whether everything from `from` on is this value.
pub fn only<T: PartialEq>(all: &[T], from: usize, value: T) -> bool
where
    T: Drop,
{
    all.iter().skip(from).all(|x| *x == value)
}

pub fn clean(yes: bool) -> &'static str {
    if yes { "clean" } else { "dirty" }
}
