// read CAP TEXT
use crate::failure::Failure;
use crate::request::Request;
use crate::written::{Listed, ONES, clean, only};
use nodes::node::BLANK;
use std::fmt::Write;

pub fn read(request: &mut Request<'_>) -> Result<(), Failure> {
    let places = request.number()?;
    let text = request.bytes()?;
    let mut all = vec![in request.heap; ONES; places]?;
    let answer = reader::read::read(text.as_slice(), all.as_mut_slice());
    let nodes = all.as_slice();
    match answer {
        Ok(sizes) => {
            let n = sizes.nodes as usize;
            let v = sizes.variables;
            let listed = Listed(&nodes[..n.min(nodes.len())]);
            let state = clean(only(nodes, n, BLANK));
            write!(request.out, "ok {n} {v} {listed} {state}")?;
        }
        Err(fault) => {
            let number = fault.refusal.number();
            let place = fault.place;
            let state = clean(only(nodes, 0, BLANK));
            write!(request.out, "no {number} {place} {state}")?;
        }
    }
    Ok(())
}
