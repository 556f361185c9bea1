// What is refused, shown with its line and a caret.
use crate::failure::Failure;
use crate::output::tell;
use crate::place::{Excerpt, Spot};
use card::refusal::CardRefusal;
use nodes::node::Node;
use nodes::view::{View, node_at};
use std::fmt;

// Shows what is refused, where it has a place with that, which ends the command.
fn refuse(
    rt: &HostRuntime,
    file: &str,
    place: Option<Excerpt<'_>>,
    what: impl fmt::Display + Drop,
) -> Failure {
    let heap = rt.alloc();
    let message = match place {
        Some(excerpt) => {
            let Spot { line, column, .. } = excerpt.spot;
            format!(in heap; "{file}:{line}:{column}: {what}\n{excerpt}\n")
        }
        None => format!(in heap; "{file}: {what}\n"),
    };
    tell(rt, message)
}

pub fn refuse_text(
    rt: &HostRuntime,
    file: &str,
    text: &[u8],
    fault: words::word::Fault,
) -> Failure {
    let number = fault.refusal.number();
    let why = fault.refusal;
    refuse(
        rt,
        file,
        Some(Excerpt::new(text, fault.place)),
        format_args!("refused with {number}: {why}"),
    )
}

pub fn refuse_node(
    rt: &HostRuntime,
    file: &str,
    text: &[u8],
    nodes: &[Node],
    fault: deck::fault::Fault,
) -> Failure {
    let number = fault.refusal.number();
    let why = fault.refusal;
    let node = fault.node;
    let place = place_of(nodes, node).map(|place| Excerpt::new(text, place));
    refuse(
        rt,
        file,
        place,
        format_args!("refused with {number} at node {node}: {why}"),
    )
}

pub fn refuse_card(rt: &HostRuntime, file: &str, refusal: CardRefusal) -> Failure {
    let number = refusal.number();
    refuse(
        rt,
        file,
        None,
        format_args!("refused with {number}: {refusal}"),
    )
}

// Where a node stands in the letters: its own place, or that of the first part below it that has one.
pub fn place_of(nodes: &[Node], node: u16) -> Option<usize> {
    let mut at = node as usize;
    // Stays: a walk along numbers, bounded by the nodes, since a sheet that was refused may have arrows in a circle.
    for _ in nodes {
        let below = match node_at(nodes, at).view() {
            View::Declaration { place, .. }
            | View::Variable { place, .. }
            | View::Text { place, .. } => return Some(place as usize),
            View::Plus { left, .. } | View::Conc { left, .. } => left,
            View::Assign { target, .. } => target,
            View::If { test, .. } | View::While { test, .. } => test,
            View::Series { statement, .. } => statement,
            View::Number { .. } | View::Empty | View::Unknown => return None,
        };
        at = below as usize;
    }
    None
}
