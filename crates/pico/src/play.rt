// play: what a person wants to see of a sheet that is played.
use crate::failure::Failure;
use crate::fault::place_of;
use crate::loaded::from_file;
use crate::options::Options;
use crate::place::{Excerpt, Shown};
use crate::tree::name;
use deck::deck::Deck;
use nodes::node::Node;
use packed::Packed;
use player::player::Player;
use rows::Rows;
use semantics::call::{Outcome, Progress};
use semantics::status::Status;
use shelf::{LONGEST, SLOTS, Shelf};
use std::alloc::{AllocError, Global};

// The bytes that rows of 64 variables take.
pub const ROWS: usize = SLOTS * LONGEST;

// What is told about a deck once it plays: the names, and its letters and nodes for messages.
#[derive(Drop)]
struct About {
    names: Vec<String>,
    letters: Vec<u8>,
    nodes: Vec<Node>,
}

impl About {
    fn gather(heap: Global, deck: &Deck) -> Result<About, AllocError> {
        let mut names = Vec::new(heap);
        for i in 0..deck.variables() {
            let name = name(deck.letters(), deck.nodes(), i);
            names.push(format!(in heap; "{name}")?)?;
        }
        Ok(About {
            names,
            letters: Vec::from_slice(heap, deck.letters())?,
            nodes: Vec::from_slice(heap, deck.nodes())?,
        })
    }

    // The line of a statement.
    fn excerpt(&self, node: u16) -> Option<Excerpt<'_>> {
        let place = place_of(self.nodes.as_slice(), node)?;
        Some(Excerpt::new(self.letters.as_slice(), place))
    }

    // How the player stands, in words.
    fn show_status(&self, rt: &HostRuntime, status: Status) -> Result<(), Failure> {
        match status {
            Status::Ready => println!(rt;
                "ready: the beats that were granted are made, and the sheet goes on"
            )?,
            Status::Ended => println!(rt; "ended")?,
            Status::Stopped { cause, node } => {
                let number = cause.number();
                println!(rt; "stopped with {number} at node {node}: {cause}")?;
                if let Some(excerpt) = self.excerpt(node) {
                    println!(rt; "{excerpt}")?;
                }
            }
        }
        Ok(())
    }
}

// The text of this length that begins a line.
pub fn text_in(line: &[u8; LONGEST], length: usize) -> Shown<'_> {
    Shown(&line[..length.min(LONGEST)])
}

// A player that a person watches: how it is to be played, and the beats made so far.
#[derive(Drop)]
struct Show<'a, S: Shelf> {
    rt: &'a HostRuntime,
    player: &'a mut Player<S>,
    about: &'a About,
    options: Options,
    made: u64,
}

impl<S: Shelf> Show<'_, S> {
    // A variable's value, as the screen would show it.
    fn value(&self, i: usize) -> Result<String, AllocError> {
        let heap = self.rt.alloc();
        let mut line = [0; LONGEST];
        match self.player.look(i, &mut line) {
            Ok(Outcome::Number(n)) => format!(in heap; "{n}"),
            Ok(Outcome::Text(length)) => {
                let text = text_in(&line, length);
                format!(in heap; "\"{text}\"")
            }
            Err(refusal) => {
                let number = refusal.number();
                format!(in heap; "refused with {number}")
            }
        }
    }

    fn values(&self) -> Result<Vec<String>, AllocError> {
        let mut all = Vec::new(self.rt.alloc());
        // Stays: a loop that pushes, here and in `gather`, since each value may fail for want of memory, and a chain would carry that in each item.
        for i in 0..self.about.names.len() {
            all.push(self.value(i)?)?;
        }
        Ok(all)
    }

    // The variables that a beat changed.
    fn show_changes(&self, before: &[String]) -> Result<(), Failure> {
        let rt = self.rt;
        let after = self.values()?;
        let both = before.iter().zip(after.iter());
        for (name, (old, new)) in self.about.names.iter().zip(both) {
            if old != new {
                println!(rt; "    {name} = {new}")?;
            }
        }
        Ok(())
    }

    // One portion of beats.
    fn portion(&mut self, grant: u16) -> Result<Status, Failure> {
        let rt = self.rt;
        let before = if self.options.trace {
            Some(self.values()?)
        } else {
            None
        };
        let Progress { beats, status } = self.player.play(grant);
        let made = self.made.saturating_add(beats as u64);
        self.made = made;
        if let Some(values) = before
            && beats > 0
        {
            println!(rt; "beat {made}")?;
            self.show_changes(values.as_slice())?;
        }
        if self.options.grant.is_some() {
            println!(rt; "granted {grant}: made {beats}, {made} in all")?;
        }
        Ok(status)
    }

    // Grants portions until the sheet ends or stops, or all beats are made.
    fn portions(&mut self) -> Result<Status, Failure> {
        let rt = self.rt;
        let beats = self.options.beats;
        let most = if self.options.trace {
            1
        } else {
            self.options.grant.unwrap_or(u16::MAX)
        };
        let mut status = self.player.play(0).status;
        // Stays: a loop over a count, which bounds the portions and tells when to show how far it is.
        for turn in 0..beats {
            let left = beats.saturating_sub(self.made);
            status = self.portion(u16::try_from(left).unwrap_or(u16::MAX).min(most))?;
            if self.made >= beats || status != Status::Ready {
                break;
            }
            if turn % 1000 == 999 {
                let made = self.made;
                eprintln!(rt; "pico: {made} beats so far")?;
            }
        }
        Ok(status)
    }

    fn run(&mut self) -> Result<(), Failure> {
        let rt = self.rt;
        let status = self.portions()?;
        let made = self.made;
        println!(rt; "{made} beats")?;
        self.about.show_status(rt, status)?;
        let all = self.values()?;
        for (name, value) in self.about.names.iter().zip(all.iter()) {
            println!(rt; "{name} = {value}")?;
        }
        Ok(())
    }
}

fn play_on<S: Shelf + Drop>(
    rt: &HostRuntime,
    deck: Deck,
    shelf: S,
    options: Options,
) -> Result<(), Failure> {
    let about = About::gather(rt.alloc(), &deck)?;
    let mut player = Player::start(deck, shelf);
    let mut show = Show {
        rt,
        player: &mut player,
        about: &about,
        options,
        made: 0,
    };
    let outcome = show.run();
    let _ = player.eject();
    outcome
}

pub fn play(rt: &HostRuntime, file: &str, options: Options) -> Result<(), Failure> {
    let heap = rt.alloc();
    let deck = from_file(rt, file, options.card)?;
    match options.room {
        Some(room) => play_on(rt, deck, Packed::new(vec![in heap; 0; room]?), options),
        None => play_on(rt, deck, Rows::new(vec![in heap; 0; ROWS]?), options),
    }
}
