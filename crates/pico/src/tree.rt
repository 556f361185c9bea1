// A sheet's declarations, nodes and tree, for a person.
use crate::failure::Failure;
use crate::fault::refuse_text;
use crate::place::Shown;
use crate::{input, output};
use nodes::kind::Kind;
use nodes::limits::NODES;
use nodes::node::{BLANK, Node};
use nodes::view::{View, node_at};
use reader::read::read;
use std::alloc::{AllocError, Global};
use std::fmt;
use std::fmt::Write;

// A sheet as it was read or unpacked.
#[derive(Clone, Copy)]
pub struct Sheet<'a> {
    pub letters: &'a [u8],
    pub nodes: &'a [Node],
    pub variables: usize,
}

// What a node is called in the tree.
#[derive(Clone, Copy)]
struct Label<'a> {
    letters: &'a [u8],
    node: Node,
}

// A part of the letters; nothing where it does not lie within them.
fn part(letters: &[u8], place: u16, size: u16) -> Shown<'_> {
    let from = place as usize;
    Shown(letters.get(from..from + size as usize).unwrap_or(&[]))
}

impl fmt::Display for Label<'_> {
    fn fmt<W: fmt::Write>(&self, f: &mut fmt::Formatter<W>) -> fmt::Result {
        match self.node.view() {
            View::Declaration { place, size, .. } | View::Variable { place, size, .. } => {
                let name = part(self.letters, place, size);
                write!(f, "{name}")
            }
            View::Number { value } => write!(f, "{value}"),
            View::Text { place, size } => {
                let text = part(self.letters, place, size);
                write!(f, "\"{text}\"")
            }
            View::Plus { .. } => f.write_str("+"),
            View::Conc { .. } => f.write_str("||"),
            View::Assign { .. } => f.write_str(":="),
            View::If { .. } => f.write_str("if"),
            View::While { .. } => f.write_str("while"),
            View::Series { .. } => f.write_str("series"),
            View::Empty => f.write_str("nothing"),
            View::Unknown => f.write_str("?"),
        }
    }
}

// The name of variable i, as its declaration spells it.
pub fn name<'a>(letters: &'a [u8], nodes: &[Node], i: usize) -> Shown<'a> {
    let Node { a, b, .. } = node_at(nodes, i);
    part(letters, a, b)
}

impl Sheet<'_> {
    fn label(&self, i: u16) -> Label<'_> {
        Label {
            letters: self.letters,
            node: node_at(self.nodes, i as usize),
        }
    }

    // The statements of a series, one after another.
    fn statements(&self, heap: Global, first: u16) -> Result<Vec<u16>, AllocError> {
        let mut all = Vec::new(heap);
        let mut at = first;
        // Stays: a walk along numbers, bounded by the nodes, since arrows are numbers of nodes.
        for _ in self.nodes {
            let View::Series { statement, rest } = node_at(self.nodes, at as usize).view() else {
                break;
            };
            all.push(statement)?;
            at = rest;
        }
        Ok(all)
    }

    // The nodes that are drawn below node i.
    fn below(&self, heap: Global, i: u16) -> Result<Vec<u16>, AllocError> {
        match node_at(self.nodes, i as usize).view() {
            View::Plus { left, right } | View::Conc { left, right } => {
                Ok(vec![in heap; left, right]?)
            }
            View::Assign { target, value } => Ok(vec![in heap; target, value]?),
            View::If {
                test,
                then,
                otherwise,
            } => Ok(vec![in heap; test, then, otherwise]?),
            View::While { test, body } => Ok(vec![in heap; test, body]?),
            View::Series { .. } => self.statements(heap, i),
            _ => Ok(Vec::new(heap)),
        }
    }

    // Draws what stands below node i, as a list of folders is drawn.
    fn branches(
        &self,
        heap: Global,
        out: &mut String,
        i: u16,
        before: &str,
    ) -> Result<(), AllocError> {
        let all = self.below(heap, i)?;
        let count = all.len();
        for (k, child) in all.iter().enumerate() {
            let next = *child;
            let label = self.label(next);
            let (corner, edge) = if k + 1 == count {
                ("`-- ", "    ")
            } else {
                ("|-- ", "|   ")
            };
            writeln!(out, "{before}{corner}{label}")?;
            if next < i {
                let deeper = format!(in heap; "{before}{edge}")?;
                self.branches(heap, out, next, deeper.as_str())?;
            }
        }
        Ok(())
    }

    // The declarations, each on a line.
    fn declarations(&self, out: &mut String) -> Result<(), AllocError> {
        for (i, node) in self.nodes.iter().take(self.variables).enumerate() {
            let name = part(self.letters, node.a, node.b);
            let kind = Kind::try_from(node.c).unwrap_or(Kind::Integer);
            writeln!(out, "variable {i}: {name} : {kind}")?;
        }
        Ok(())
    }

    // The nodes, each on a line: its number, kind and fields, and what it is.
    fn table(&self, out: &mut String) -> Result<(), AllocError> {
        writeln!(out, "node kind     a     b     c")?;
        for (i, node) in self.nodes.iter().enumerate() {
            let Node { kind, a, b, c } = *node;
            let label = Label {
                letters: self.letters,
                node: *node,
            };
            writeln!(out, "{i:>4} {kind:>4} {a:>5} {b:>5} {c:>5}  {label}")?;
        }
        Ok(())
    }

    // Declarations, nodes and tree.
    fn drawn(&self, heap: Global) -> Result<String, AllocError> {
        let mut out = String::new(heap);
        self.declarations(&mut out)?;
        self.table(&mut out)?;
        writeln!(out, "sheet")?;
        let count = self.nodes.len();
        if count > 0 && count <= NODES {
            self.branches(heap, &mut out, (count - 1) as u16, "")?;
        }
        Ok(out)
    }

    pub fn show(&self, rt: &HostRuntime) -> Result<(), Failure> {
        let picture = self.drawn(rt.alloc())?;
        output::print(rt, &picture)
    }
}

pub fn show(rt: &HostRuntime, file: &str) -> Result<(), Failure> {
    let text = input::bytes(rt, file)?;
    let letters = text.as_slice();
    let mut all = [BLANK; NODES];
    let sizes = read(letters, &mut all).map_err(|fault| refuse_text(rt, file, letters, fault))?;
    let sheet = Sheet {
        letters,
        nodes: &all[..(sizes.nodes as usize).min(NODES)],
        variables: sizes.variables as usize,
    };
    sheet.show(rt)
}
