// Load's judgement of a sheet.
ghost use Rattle.std.specs.Prelude.{◌≡◌, ◌<◌, ◌≤◌, length};
ghost use Rattle.nodes.specs.Limits.{most_nodes, most_variables};
ghost use Rattle.deck.specs.Load.{sizes_fit, sheet_says, load_says};
ghost use Rattle.deck.specs.Rules.{names as names_by};

use crate::fault::{Fault, Refusal};
use crate::judgement::Judgement;
use arrayvec::ArrayVec;
use nodes::binding::Binding;
use nodes::limits::{LETTERS, NODES, VARIABLES};
use nodes::node::Node;
use spelling::Entry;

// Whether t letters, m nodes of which n count, and v variables are within the limits.
pub fn sizes_fit(t: usize, m: usize, n: usize, v: usize) -> bool
    ensures { result ≡ sizes_fit t m n v }
{
    2 <= n && n <= NODES && n <= m && 1 <= v && v <= VARIABLES && v < n && t <= LETTERS
}

// The names that these declarations declare.
fn names_of(declarations: &[Node]) -> ArrayVec<Entry<Binding>, VARIABLES>
    requires { length declarations.now ≤ most_variables }
    ensures { result.items ≡ names_by (length declarations.now) declarations.now }
{
    let mut names = ArrayVec::new();
    for (k, x) in declarations.iter().enumerate() {
        names.push(Entry {
            place: x.a as usize,
            size: x.b as usize,
            value: Binding {
                kind: x.c,
                number: k as u16,
            },
        });
    }
    names
}

// The first fault of a sheet of fitting sizes, all of whose nodes are given.
fn judge(letters: &[u8], nodes: &[Node], v: usize) -> Result<(), Fault>
    requires few { length nodes.now ≤ most_nodes }
    requires low { v ≤ most_variables }
    requires some { v < length nodes.now }
    ensures { result ≡ sheet_says letters.now nodes.now (length nodes.now) v }
{
    let names = names_of(&nodes[..v]);
    let mut judgement = Judgement::new(letters, nodes, &names);
    for (i, x) in nodes.iter().enumerate() {
        judgement.judge(*x).map_err(|refusal| Fault {
            refusal,
            node: i as u16,
        })?;
    }
    judgement.whole()
}

// Stays: node 0, since a refusal always tells a node, and the sizes belong to none.
// What Load says of a sheet: `n` nodes of those given, the first `v` of them declarations.
pub fn check(letters: &[u8], nodes: &[Node], n: usize, v: usize) -> Result<(), Fault>
    ensures { result ≡ load_says letters.now nodes.now n v }
{
    if !sizes_fit(letters.len(), nodes.len(), n, v) {
        return Err(Fault {
            refusal: Refusal::Sizes,
            node: 0,
        });
    }
    judge(letters, &nodes[..n], v)
}
