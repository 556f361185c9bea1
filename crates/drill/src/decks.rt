// load N V LETTERS BOXES
use crate::failure::Failure;
use crate::request::Request;
use deck::deck::Deck;
use deck::fault::Fault;
use std::fmt::Write;

// Writes a fault, which ends the answer.
pub fn refuse(out: &mut String, fault: Fault) -> Result<(), Failure> {
    let number = fault.refusal.number();
    let node = fault.node;
    write!(out, "no {number} {node}")?;
    Ok(())
}

// Loads what the next words say.
pub fn loaded(request: &mut Request<'_>) -> Result<Result<Deck, Fault>, Failure> {
    let n = request.number()?;
    let v = request.number()?;
    let letters = request.bytes()?;
    let all = request.nodes()?;
    let mut deck = Deck::new();
    let answer = deck.load(letters.as_slice(), all.as_slice(), n, v);
    Ok(answer.map(|_| deck))
}

pub fn load(request: &mut Request<'_>) -> Result<(), Failure> {
    match loaded(request)? {
        Ok(_) => {
            request.out.push_str("ok")?;
            Ok(())
        }
        Err(fault) => refuse(request.out, fault),
    }
}
