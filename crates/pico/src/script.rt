// A script of calls, played through `perform`.
use crate::failure::Failure;
use crate::loaded::from_file;
use crate::play::{ROWS, text_in};
use crate::tree::name;
use anyhow::{Context, anyhow};
use deck::deck::Deck;
use player::perform::perform;
use rows::Rows;
use semantics::call::{Answer, Call, Outcome, Progress};
use semantics::status::Status;
use shelf::LONGEST;
use std::alloc::Global;
use std::fmt;

// The number of the variable with this name.
fn variable(deck: &Deck, spelling: &str) -> Option<usize> {
    let letters = deck.letters();
    let nodes = deck.nodes();
    (0..deck.variables()).position(|i| name(letters, nodes, i).0 == spelling.as_bytes())
}

// A call, as `play 7`, `look a` or `rewind`; a colon may stand for the space.
fn call(deck: &Deck, text: &str) -> Result<Call, Failure> {
    let words = text.trim();
    match words.split_once(':').or(words.split_once(' ')) {
        Some(("play", n)) => {
            let grant = n.trim().parse::<u16>();
            Ok(Call::Play(grant.context("pico: play takes a number from 0 to 65535")?))
        }
        // Where there is no such variable, the player is asked for one behind the last, and refuses it.
        Some(("look", name)) => Ok(Call::Look {
            of: variable(deck, name.trim()).unwrap_or(deck.variables()),
            line: [0; LONGEST],
        }),
        None if words == "rewind" => Ok(Call::Rewind),
        _ => Err(Failure::Told(anyhow!("pico: a call is play N, look NAME or rewind"))),
    }
}

fn calls(heap: Global, deck: &Deck, text: &str) -> Result<Vec<Call>, Failure> {
    let mut all = Vec::new(heap);
    for part in text.split(',') {
        all.push(call(deck, part)?)?;
    }
    Ok(all)
}

// An answer, in a line.
#[derive(Clone, Copy)]
struct Told(Answer);

impl fmt::Display for Told {
    fn fmt<W: fmt::Write>(&self, f: &mut fmt::Formatter<W>) -> fmt::Result {
        match self.0 {
            Answer::Played(Progress { beats, status }) => {
                write!(f, "play: {beats} beats, {status}")
            }
            Answer::Rewound(status) => write!(f, "rewind: {status}"),
            Answer::Looked { seen, line } => match seen {
                Ok(Outcome::Number(value)) => write!(f, "look: {value}"),
                Ok(Outcome::Text(length)) => {
                    let text = text_in(&line, length);
                    write!(f, "look: \"{text}\"")
                }
                Err(refusal) => {
                    let number = refusal.number();
                    write!(f, "look: refused with {number}")
                }
            },
        }
    }
}

pub fn play(rt: &HostRuntime, file: &str, text: &str, card: bool) -> Result<(), Failure> {
    let heap = rt.alloc();
    let deck = from_file(rt, file, card)?;
    let script = calls(heap, &deck, text)?;
    let mut answers = vec![in heap; Answer::Rewound(Status::Ready); script.len()]?;
    let shelf = Rows::new(vec![in heap; 0; ROWS]?);
    let _ = perform(deck, shelf, script.as_slice(), answers.as_mut_slice());
    for answer in answers.iter() {
        let line = Told(*answer);
        println!(rt; "{line}")?;
    }
    Ok(())
}
