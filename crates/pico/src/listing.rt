// The words of a sheet, listed.
use crate::failure::Failure;
use crate::fault::refuse_text;
use crate::input;
use crate::place::{FIRST, Shown, Spot};
use crate::tokens::Tokens;
use std::io::{BufWriter, Write};
use words::word::{Fault, Fixed, Token, Word};

fn kind(word: Word<'_>) -> &'static str {
    match word {
        Word::Name(_) => "name",
        Word::Number(..) => "number",
        Word::Text(_) => "text",
        Word::Fixed(
            Fixed::Open
            | Fixed::Close
            | Fixed::Plus
            | Fixed::Minus
            | Fixed::Semicolon
            | Fixed::Comma
            | Fixed::Join
            | Fixed::Colon
            | Fixed::Becomes,
        ) => "mark",
        Word::Fixed(_) => "keyword",
        Word::End => "end",
    }
}

// How many words there are, where there is no fault.
// Stays: apart from `count`, since each turn of a loop that makes a `Failure` clears the place where that would stand: marks then take 1.4 times the time.
fn counted(text: &[u8]) -> Result<u64, Fault> {
    let mut n: u64 = 0;
    for token in Tokens::new(text) {
        token?;
        n = n.saturating_add(1);
    }
    Ok(n)
}

// Counts the words.
pub fn count(rt: &HostRuntime, file: &str) -> Result<(), Failure> {
    let bytes = input::bytes(rt, file)?;
    let text = bytes.as_slice();
    let n = counted(text).map_err(|fault| refuse_text(rt, file, text, fault))?;
    println!(rt; "{n}")?;
    Ok(())
}

// The bytes from the place of a word to the place after it.
fn spelling<'a>(text: &'a [u8], token: Token<'_>) -> &'a [u8] {
    text.get(token.place..token.next).unwrap_or(&[])
}

// Lists the words to a buffer, until the text ends or a fault comes, and answers how many there are.
fn listed(rt: &HostRuntime, file: &str, text: &[u8], out: &mut impl Write) -> Result<u64, Failure> {
    let mut spot = FIRST;
    let mut n: u64 = 0;
    for token in Tokens::new(text) {
        match token {
            Ok(token) => {
                spot = spot.onward(text, token.place);
                let Spot {
                    place,
                    line,
                    column,
                    ..
                } = spot;
                let kind = kind(token.word);
                let spelling = Shown(spelling(text, token));
                writeln!(out, "{line}\t{column}\t{place}\t{kind}\t{spelling}")?;
                n = n.saturating_add(1);
            }
            Err(fault) => {
                out.flush()?;
                return Err(refuse_text(rt, file, text, fault));
            }
        }
    }
    Ok(n)
}

pub fn list(rt: &HostRuntime, file: &str) -> Result<(), Failure> {
    let text = input::bytes(rt, file)?;
    let mut out = BufWriter::new(rt.alloc(), rt.stdout())?;
    let n = listed(rt, file, text.as_slice(), &mut out)?;
    writeln!(out, "{n} words")?;
    out.flush()?;
    Ok(())
}
