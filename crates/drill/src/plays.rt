// run rows|packed SIZE CARD CALL..
use crate::decks::refuse;
use crate::failure::Failure;
use crate::request::Request;
use crate::written::Hex;
use deck::deck::Deck;
use nodes::limits::{LETTERS, NODES};
use nodes::node::BLANK;
use packed::Packed;
use player::perform::perform;
use rows::Rows;
use semantics::call::{Answer, Call, LookRefusal, Outcome, Progress};
use semantics::status::{Cause, Status};
use shelf::{LONGEST, Shelf};
use std::fmt;
use std::fmt::Write;

// The line of all looks before the first.
const DOT: u8 = b'.';

// How a player stands, as a word.
#[derive(Clone, Copy)]
struct Stand(Status);

impl fmt::Display for Stand {
    fn fmt<W: fmt::Write>(&self, f: &mut fmt::Formatter<W>) -> fmt::Result {
        match self.0 {
            Status::Ready => f.write_str("ready"),
            Status::Ended => f.write_str("ended"),
            Status::Stopped { cause, node } => {
                let number = cause.number();
                write!(f, "stopped:{number}:{node}")?;
                if let Cause::NoRoom(why) = cause {
                    let carried = why.number();
                    write!(f, ":{carried}")?;
                }
                Ok(())
            }
        }
    }
}

// What a look answers, as a word.
#[derive(Clone, Copy)]
struct Look {
    seen: Result<Outcome, LookRefusal>,
    line: [u8; LONGEST],
}

impl fmt::Display for Look {
    fn fmt<W: fmt::Write>(&self, f: &mut fmt::Formatter<W>) -> fmt::Result {
        match self.seen {
            Ok(Outcome::Number(value)) => write!(f, "look:number:{value}"),
            Ok(Outcome::Text(length)) => {
                let text = Hex(&self.line[..length.min(LONGEST)]);
                write!(f, "look:text:{text}")
            }
            Err(refusal) => {
                let number = refusal.number();
                write!(f, "look:no:{number}")
            }
        }
    }
}

// A call as its word says it. One line serves all looks: a text fills it whole, and nothing else changes it.
fn call(word: &str) -> Result<Call, Failure> {
    let Some((what, argument)) = word.split_once(':') else {
        return Ok(Call::Rewind);
    };
    let n = argument.parse::<usize>()?;
    if what == "play" {
        Ok(Call::Play(n.min(65535) as u16))
    } else {
        Ok(Call::Look {
            of: n,
            line: [DOT; LONGEST],
        })
    }
}

// Writes the answers, a word each, and then the line.
fn write_answers(out: &mut String, answers: &[Answer]) -> Result<(), Failure> {
    let mut shared = [DOT; LONGEST];
    for answer in answers {
        match *answer {
            Answer::Played(Progress { beats, status }) => {
                let now = Stand(status);
                write!(out, "play:{beats}:{now} ")?;
            }
            Answer::Rewound(status) => {
                let now = Stand(status);
                write!(out, "rewind:{now} ")?;
            }
            Answer::Looked { seen, line } => {
                let look = Look { seen, line };
                write!(out, "{look} ")?;
                if let Ok(Outcome::Text(_)) = seen {
                    shared = line;
                }
            }
        }
    }
    let line = Hex(&shared);
    write!(out, "line:{line}")?;
    Ok(())
}

fn played<S: Shelf + Drop>(request: &mut Request<'_>, deck: Deck, shelf: S) -> Result<(), Failure> {
    let script = request.rest(call)?;
    let mut answers = vec![in request.heap; Answer::Rewound(Status::Ready); script.len()]?;
    let _ = perform(deck, shelf, script.as_slice(), answers.as_mut_slice());
    write_answers(request.out, answers.as_slice())
}

// Plays a loaded deck on the shelf that was asked for.
fn on_shelf(request: &mut Request<'_>, deck: Deck, make: &str, size: usize) -> Result<(), Failure> {
    let memory = vec![in request.heap; 0; size]?;
    if make == "rows" {
        played(request, deck, Rows::new(memory))
    } else {
        played(request, deck, Packed::new(memory))
    }
}

pub fn run(request: &mut Request<'_>) -> Result<(), Failure> {
    let make = request.word()?;
    let size = request.number()?;
    let card = request.bytes()?;
    let mut all = vec![in request.heap; BLANK; NODES]?;
    let mut letters = vec![in request.heap; 0; LETTERS]?;
    match card::unpack::unpack(card.as_slice(), all.as_mut_slice(), letters.as_mut_slice()) {
        Ok(sizes) => {
            let text = letters.as_slice();
            let used = &text[..sizes.t.min(text.len())];
            let mut deck = Deck::new();
            match deck.load(used, all.as_slice(), sizes.n, sizes.v) {
                Ok(()) => on_shelf(request, deck, make, size),
                Err(fault) => refuse(request.out, fault),
            }
        }
        Err(refusal) => {
            let number = refusal.number();
            write!(request.out, "no {number}")?;
            Ok(())
        }
    }
}
