// A card cut into its arrays.
ghost use Rattle.std.specs.Prelude.{◌≡◌, ◌*◌, ◌≤◌, length, replicate};
ghost use Rattle.nodes.specs.Limits.{most_nodes};
ghost use Rattle.nodes.specs.Nodes.{blank};
ghost use Rattle.card.specs.Card.{node_by as node_of_bytes};

use crate::unpack::Sizes;
use nodes::node::Node;

// The kinds of its nodes, six bytes of fields for each, and its letters.
#[derive(Clone, Copy, PartialEq, Eq, Debug)]
pub struct Parts<'a> {
    pub kinds: &'a [u8],
    pub fields: &'a [u8],
    pub letters: &'a [u8],
    pub v: usize,
    ghost few: { length kinds.now ≤ most_nodes },
    ghost six: { length fields.now ≡ 6 * length kinds.now },
}

impl<'a> Parts<'a> {
    ghost use Rattle.card.specs.Calls.{sheet_from_parts, sizes_of, padded};
    ghost use Rattle.card.specs.Card.{nodes_by};

    // Fills nodes, one for each kind.
    fn fill(&self, nodes: &mut [Node])
        requires { length nodes.old ≡ length self.now.kinds.now }
        ensures { nodes.new ≡ nodes_by self.now.kinds.now self.now.fields.now }
    {
        let (fields, _) = self.fields.as_chunks::<6>();
        // Stays: a node by its place, since a proof knows nothing of what is written by a `zip` of `iter_mut`.
        for (i, (kind, bytes)) in self.kinds.iter().zip(fields).enumerate() {
            nodes[i] = node_by(*kind, *bytes);
        }
    }

    // Puts the parts to the front of nodes and letters that are wiped.
    pub(crate) fn lay_out(&self, nodes: &mut [Node], letters: &mut [u8]) -> Sizes
        requires room { (length self.now.kinds.now ≤ length nodes.old) × (length self.now.letters.now ≤ length letters.old) }
        requires wiped { (nodes.old ≡ replicate (length nodes.old) blank) × (letters.old ≡ replicate (length letters.old) 0) }
        ensures says { result ≡ sizes_of (sheet_from_parts self.now) }
        ensures nodes { nodes.new ≡ padded (sheet_from_parts self.now).nodes (length nodes.old) blank }
        ensures letters { letters.new ≡ padded (sheet_from_parts self.now).letters (length letters.old) 0 }
    {
        self.fill(&mut nodes[..self.kinds.len()]);
        letters[..self.letters.len()].copy_from_slice(self.letters);
        Sizes {
            n: self.kinds.len(),
            v: self.v,
            t: self.letters.len(),
        }
    }
}

// The node of this kind with the fields in these bytes.
fn node_by(kind: u8, bytes: [u8; 6]) -> Node
    ensures { result ≡ node_of_bytes kind bytes }
{
    let [a0, a1, b0, b1, c0, c1] = bytes;
    Node {
        kind,
        a: u16::from_le_bytes([a0, a1]),
        b: u16::from_le_bytes([b0, b1]),
        c: u16::from_le_bytes([c0, c1]),
    }
}
