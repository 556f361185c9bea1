// check, pack and show.
use crate::failure::Failure;
use crate::fault::refuse_card;
use crate::loaded::from_file;
use crate::tree::Sheet;
use card::pack::pack;
use nodes::limits::{LETTERS, NODES};
use std::fs;

// The most bytes that a card can have.
const LONGEST_CARD: usize = 6 + 7 * NODES + LETTERS;

// Stays: the system and a file, here and in the other commands, since most take one of the two alone further on.
pub fn check(rt: &HostRuntime, file: &str, card: bool) -> Result<(), Failure> {
    let deck = from_file(rt, file, card)?;
    let nodes = deck.count();
    let variables = deck.variables();
    let letters = deck.letters().len();
    println!(rt; "{file}: accepted: {nodes} nodes, {variables} variables, {letters} letters")?;
    Ok(())
}

// Writes a file whole or not at all: beside its place first, then into it.
fn write_whole(rt: &HostRuntime, file: &str, bytes: &[u8]) -> Result<(), Failure> {
    let aside = format!(in rt.alloc(); "{file}.new")?;
    fs::write(rt, aside.as_str(), bytes)?;
    fs::rename(rt, aside.as_str(), file)?;
    Ok(())
}

pub fn pack_file(rt: &HostRuntime, sheet: &str, to: &str) -> Result<(), Failure> {
    let deck = from_file(rt, sheet, false)?;
    let mut bytes = [0; LONGEST_CARD];
    let length = pack(&deck, &mut bytes).map_err(|refusal| refuse_card(rt, to, refusal))?;
    let card = &bytes[..length.min(LONGEST_CARD)];
    write_whole(rt, to, card)?;
    let size = card.len();
    println!(rt; "{to}: {size} bytes")?;
    Ok(())
}

pub fn show(rt: &HostRuntime, file: &str) -> Result<(), Failure> {
    let deck = from_file(rt, file, true)?;
    let sheet = Sheet {
        letters: deck.letters(),
        nodes: deck.nodes(),
        variables: deck.variables(),
    };
    sheet.show(rt)
}
