use crate::sheets::{branching, climbing, doubling};
use deck::deck::Deck;
use nodes::node::Node;
use packed::Packed;
use player::perform::perform;
use player::player::Player;
use rows::Rows;
use semantics::call::{Answer, Call, LookRefusal, Outcome};
use semantics::status::Status;
use shelf::Shelf;
use std::process::Abort;
use std::test::Fail;

// How a player stands; a stop by its cause's number and its node.
#[derive(Clone, Copy, PartialEq, Eq, Debug)]
enum Stand {
    Ready,
    Ended,
    Stopped(u8, u16),
}

impl From<Status> for Stand {
    fn from(status: Status) -> Stand {
        match status {
            Status::Ready => Stand::Ready,
            Status::Ended => Stand::Ended,
            Status::Stopped { cause, node } => Stand::Stopped(cause.number(), node),
        }
    }
}

fn played(rt: &impl Abort, answer: Answer, beats: u16, stand: Stand) -> Result<(), Fail> {
    let Answer::Played(progress) = answer else {
        panic!(rt; "this is no answer to a play");
    };
    assert_eq!(rt; progress.beats, beats);
    assert_eq!(rt; Stand::from(progress.status), stand);
    Ok(())
}

fn rewound(rt: &impl Abort, answer: Answer, stand: Stand) -> Result<(), Fail> {
    let Answer::Rewound(status) = answer else {
        panic!(rt; "this is no answer to a rewind");
    };
    assert_eq!(rt; Stand::from(status), stand);
    Ok(())
}

// A number leaves the line of sevens.
fn shows_number(rt: &impl Abort, answer: Answer, number: u32) -> Result<(), Fail> {
    let Answer::Looked { seen, line } = answer else {
        panic!(rt; "this is no answer to a look");
    };
    assert_eq!(rt; seen, Ok(Outcome::Number(number)));
    assert!(rt; line[0] == 7 && line[79] == 7);
    Ok(())
}

// A text fills the line, with zeros behind it, so that the line ends in this byte.
fn shows_text(rt: &impl Abort, answer: Answer, size: usize, last: u8) -> Result<(), Fail> {
    let Answer::Looked { seen, line } = answer else {
        panic!(rt; "this is no answer to a look");
    };
    assert_eq!(rt; seen, Ok(Outcome::Text(size)));
    assert!(rt; line[0] == b'r' && line[9] == b't' && line[79] == last);
    Ok(())
}

fn refused(rt: &impl Abort, answer: Answer, number: u8) -> Result<(), Fail> {
    let Answer::Looked { seen, line } = answer else {
        panic!(rt; "this is no answer to a look");
    };
    assert_eq!(rt; seen.map_err(u8::from), Err(number));
    assert!(rt; line[0] == 7);
    Ok(())
}

fn look(of: usize) -> Call {
    Call::Look { of, line: [7; 80] }
}

// The deck with this sheet.
fn loaded(letters: &[u8], nodes: &[Node], n: usize, v: usize) -> Deck {
    let mut deck = Deck::new();
    let _ = deck.load(letters, nodes, n, v);
    deck
}

// A sum that passes the largest number, through portions and a rewind.
fn climb<S: Shelf>(shelf: S) -> (S, [Answer; 7]) {
    let calls = [
        Call::Play(1),
        Call::Play(60000),
        Call::Play(7),
        look(0),
        look(1),
        Call::Rewind,
        look(0),
    ];
    let mut answers = [Answer::Rewound(Status::Ended); 7];
    let (_, shelf) = perform(
        loaded(b"a", &climbing(), 16, 1),
        shelf,
        &calls,
        &mut answers,
    );
    (shelf, answers)
}

fn climbed(rt: &impl Abort, answers: [Answer; 7]) -> Result<(), Fail> {
    played(rt, answers[0], 1, Stand::Ready)?;
    played(rt, answers[1], 1, Stand::Stopped(70, 9))?;
    played(rt, answers[2], 0, Stand::Stopped(70, 9))?;
    shows_number(rt, answers[3], 4294967295)?;
    refused(rt, answers[4], 62)?;
    rewound(rt, answers[5], Stand::Ready)?;
    shows_number(rt, answers[6], 0)
}

// An if whose test is neither 0 nor 1, by the calls themselves: the beats, and what is in b then.
fn branch<S: Shelf>(shelf: S) -> (S, u16, u16, Result<Outcome, LookRefusal>) {
    let mut line = [7; 80];
    let mut player = Player::start(loaded(b"ab", &branching(), 16, 2), shelf);
    let first = player.play(2).beats;
    let second = player.play(2).beats;
    let seen = player.look(1, &mut line);
    let (_, shelf) = player.eject();
    (shelf, first, second, seen)
}

fn branched(
    rt: &impl Abort,
    first: u16,
    second: u16,
    seen: Result<Outcome, LookRefusal>,
) -> Result<(), Fail> {
    assert_eq!(rt; first, 2);
    assert_eq!(rt; second, 1);
    assert_eq!(rt; seen, Ok(Outcome::Number(2)));
    Ok(())
}

// A text that grows until something stops it.
fn double<S: Shelf>(shelf: S) -> (S, [Answer; 5]) {
    let calls = [
        Call::Play(0),
        Call::Play(100),
        look(1),
        Call::Rewind,
        Call::Play(1),
    ];
    let mut answers = [Answer::Rewound(Status::Ended); 5];
    let (_, shelf) = perform(
        loaded(b"ntrimbayoket", &doubling(), 17, 2),
        shelf,
        &calls,
        &mut answers,
    );
    (shelf, answers)
}

fn doubled(
    rt: &impl Abort,
    answers: [Answer; 5],
    beats: u16,
    cause: u8,
    size: usize,
    last: u8,
) -> Result<(), Fail> {
    played(rt, answers[0], 0, Stand::Ready)?;
    played(rt, answers[1], beats, Stand::Stopped(cause, 10))?;
    shows_text(rt, answers[2], size, last)?;
    rewound(rt, answers[3], Stand::Ready)?;
    played(rt, answers[4], 1, Stand::Ready)
}

// Three sheets on one shelf.
fn plays<S: Shelf + Drop>(rt: &impl Abort, shelf: S) -> Result<S, Fail> {
    let (shelf, answers) = climb(shelf);
    climbed(rt, answers)?;
    let (shelf, first, second, seen) = branch(shelf);
    branched(rt, first, second, seen)?;
    let (shelf, answers) = double(shelf);
    doubled(rt, answers, 8, 71, 80, b't')?;
    Ok(shelf)
}

#[test]
fn plays_on_rows(rt: HostRuntime) -> Result<(), Fail> {
    let rows = plays(&rt, Rows::new(vec![in rt.alloc(); 9; 160]?))?;
    assert_eq!(rt; rows.into_memory().len(), 160);
    Ok(())
}

#[test]
fn plays_on_packed(rt: HostRuntime) -> Result<(), Fail> {
    let packed = plays(&rt, Packed::new(vec![in rt.alloc(); 9; 160]?))?;
    assert_eq!(rt; packed.into_memory().len(), 160);
    Ok(())
}

#[test]
fn stops_for_want_of_room(rt: HostRuntime) -> Result<(), Fail> {
    let packed = Packed::new(vec![in rt.alloc(); 9; 30]?);
    let (packed, answers) = double(packed);
    doubled(&rt, answers, 4, 72, 20, 0)?;
    assert_eq!(rt; packed.into_memory().len(), 30);
    Ok(())
}

#[test]
fn stops_for_want_of_slots(rt: HostRuntime) -> Result<(), Fail> {
    let rows = Rows::new(vec![in rt.alloc(); 9; 80]?);
    let calls = [Call::Play(9), look(0), Call::Rewind];
    let mut answers = [Answer::Rewound(Status::Ended); 3];
    let (_, rows) = perform(
        loaded(b"ab", &branching(), 16, 2),
        rows,
        &calls,
        &mut answers,
    );
    played(&rt, answers[0], 0, Stand::Stopped(73, 0))?;
    refused(&rt, answers[1], 73)?;
    rewound(&rt, answers[2], Stand::Stopped(73, 0))?;
    assert_eq!(rt; rows.into_memory().len(), 80);
    Ok(())
}
