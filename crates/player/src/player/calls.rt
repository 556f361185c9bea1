// What a player does on each call.
ghost use Rattle.std.specs.Prelude.{◌≡◌, ◌≤◌, ◌↔◌, IsTrue};
ghost use Rattle.nodes.specs.declared.view.View.TheVariants.{Assign, If, While};
ghost use Rattle.deck.specs.Sheets.{sheet_of};
ghost use Rattle.semantics.specs.Semantics.{made_by};
ghost use Rattle.semantics.specs.Next.{next};
ghost use Rattle.semantics.specs.Calls.{looked, look_at};
ghost use Rattle.semantics.specs.declared.status.Status.TheVariants.{Ready};
ghost use Rattle.semantics.specs.declared.call.Answer.TheVariants.{Looked};
ghost use Rattle.player.specs.Evaluation.{branch_of};
ghost use Rattle.player.specs.Of.{state_of, deck_of, Faces, started_on, Plays, GoesTo, beat_of, run_of, beats_of, after_call, answer_to};

use crate::course::{Coming, Course};
use crate::eval::{amount_at, evaluate, seen};
use crate::open::open;
use crate::player::Player;
use crate::store::store;
use deck::deck::Deck;
use nodes::view::View;
use semantics::call::{Answer, Call, LookRefusal, Outcome, Progress};
use semantics::status::{Cause, Status};
use shelf::{LONGEST, Shelf};

// The series that an if goes on with.
fn chosen(x: u32, then: u16, otherwise: u16) -> u16
    ensures { result ≡ branch_of x then otherwise }
{
    if x == 0 { otherwise } else { then }
}

// Whether a ready player that then stands so made its beat: it did, unless it stopped.
fn is_made(status: Status) -> bool
    ensures { IsTrue result ↔ (made_by Ready status ≡ 1) }
{
    !matches!(status, Status::Stopped { .. })
}

impl<S: Shelf> Player<S> {
    // Start: opens the shelf for the deck's variables and goes to the beginning.
    pub fn start(deck: Deck, mut shelf: S) -> Player<S>
        ensures { Plays S.Shelf deck shelf result (started_on S.Shelf deck shelf) }
    {
        let opened = open(&mut shelf, &deck);
        let mut course = Course::begin(deck);
        if opened.is_err() {
            course.lack_slots();
        }
        Player {
            course,
            shelf,
            line: [0; LONGEST],
        }
    }

    // Eject: the deck and the shelf, back to the caller.
    pub fn eject(self) -> (Deck, S)
        ensures { result ≡ (deck_of self, self.shelf) }
    {
        let Player {
            course,
            shelf,
            line: _,
        } = self;
        let Course { deck, .. } = course;
        (deck, shelf)
    }

    // Rewind: does what Start did again.
    pub fn rewind(&mut self) -> Status
        ensures goes { GoesTo S.Shelf self.old self.new (started_on S.Shelf (deck_of self.old) self.old.shelf) }
        ensures says { result ≡ self.new.course.status }
    {
        match open(&mut self.shelf, &self.course.deck) {
            Ok(_) => self.course.restart(),
            Err(_) => self.course.lack_slots(),
        }
        self.course.status
    }

    // An assignment puts its value on the shelf.
    // Stays: here and in the two below the cause is put down where it is met, since the contract is the beat as a whole; with `?` each would need a second one, by its answer.
    fn assign(&mut self, coming: Coming, target: u16, value: u16)
        requires { Faces self.old.course coming (Assign target value) }
        ensures { GoesTo S.Shelf self.old self.new (beat_of S.Shelf self.old) }
    {
        let to = self.course.deck.node_at(target).c as usize;
        match evaluate(&self.shelf, &self.course.deck, value, &mut self.line) {
            Err(cause) => self.course.stop(cause, coming.at),
            Ok(value) => match store(&mut self.shelf, to, value, &self.line) {
                Ok(_) => self.course.go_on(coming.rest),
                Err(why) => self.course.stop(Cause::NoRoom(why), coming.at),
            },
        }
    }

    // An if goes on with one of its series.
    fn branch(&mut self, coming: Coming, test: u16, then: u16, otherwise: u16)
        requires { Faces self.old.course coming (If test then otherwise) }
        ensures { GoesTo S.Shelf self.old self.new (beat_of S.Shelf self.old) }
    {
        match amount_at(&self.shelf, &self.course.deck, test) {
            Err(cause) => self.course.stop(cause, coming.at),
            Ok(x) => self.course.enter(coming.rest, chosen(x, then, otherwise)),
        }
    }

    // A while goes on with its body and then itself, or past itself.
    fn turn(&mut self, coming: Coming, test: u16, body: u16)
        requires { Faces self.old.course coming (While test body) }
        ensures { GoesTo S.Shelf self.old self.new (beat_of S.Shelf self.old) }
    {
        match amount_at(&self.shelf, &self.course.deck, test) {
            Err(cause) => self.course.stop(cause, coming.at),
            Ok(x) => {
                if x == 0 {
                    self.course.go_on(coming.rest)
                } else {
                    self.course.again(coming, body)
                }
            }
        }
    }

    // One granted beat of a ready player; where it stops, none is made.
    fn beat(&mut self)
        requires { self.old.course.status ≡ Ready }
        ensures { GoesTo S.Shelf self.old self.new (beat_of S.Shelf self.old) }
    {
        let coming = self.course.coming();
        match coming.statement {
            View::Assign { target, value } => self.assign(coming, target, value),
            View::If {
                test,
                then,
                otherwise,
            } => self.branch(coming, test, then, otherwise),
            View::While { test, body } => self.turn(coming, test, body),
            _ => self.course.go_on(coming.rest),
        }
    }

    // Makes beats while the player is ready and grant is left, and answers how many.
    fn run(&mut self, grant: u16) -> u16
        ensures goes { GoesTo S.Shelf self.old self.new (run_of S.Shelf grant self.old) }
        ensures count { result ≡ beats_of S.Shelf grant self.old }
        ensures bound { result ≤ grant }
    {
        for made in 0..grant {
            match self.course.status {
                Status::Ready => self.beat(),
                _ => return made,
            }
            if !is_made(self.course.status) {
                return made;
            }
        }
        grant
    }

    // Play: makes the beats that are granted while the player is ready, and answers how many and how it then stands.
    pub fn play(&mut self, grant: u16) -> Progress
        ensures goes { GoesTo S.Shelf self.old self.new (run_of S.Shelf grant self.old) }
        ensures count { result.beats ≡ beats_of S.Shelf grant self.old }
        ensures bound { result.beats ≤ grant }
        ensures says { result.status ≡ self.new.course.status }
    {
        let made = self.run(grant);
        Progress {
            beats: made,
            status: self.course.status,
        }
    }

    fn show(&self, of: usize, line: &mut [u8; LONGEST]) -> Result<Outcome, LookRefusal>
        ensures { Looked result line.new ≡ looked (S.Shelf.values self.now.shelf) of line.old }
    {
        seen(&self.shelf, of, line).map_err(LookRefusal::Shelf)
    }

    // Look: what variable `of` holds; a text stands in the line.
    pub fn look(&self, of: usize, line: &mut [u8; LONGEST]) -> Result<Outcome, LookRefusal>
        ensures { Looked result line.new ≡ look_at self.now.course.status (S.Shelf.values self.now.shelf) of line.old }
    {
        match self.course.status {
            Status::Stopped {
                cause: Cause::TooFewSlots,
                ..
            } => Err(LookRefusal::TooFewSlots),
            _ => self.show(of, line),
        }
    }

    // The node of the statement whose beat comes next; none where the player is not ready.
    pub fn next(&self) -> Option<u16>
        ensures { result ≡ next (sheet_of (deck_of self.now)) (state_of S.Shelf.values self.now) }
    {
        match self.course.status {
            Status::Ready => Some(self.course.coming().at),
            _ => None,
        }
    }

    fn answer_look(&self, of: usize, mut line: [u8; LONGEST]) -> Answer
        ensures { result ≡ look_at self.now.course.status (S.Shelf.values self.now.shelf) of line }
    {
        let seen = self.look(of, &mut line);
        Answer::Looked { seen, line }
    }

    // What is done on a call, by the status and the call together.
    // Stays: a match, since that is the form that is asked for.
    pub fn call(&mut self, call: Call) -> Answer
        ensures goes { GoesTo S.Shelf self.old self.new (after_call S.Shelf call self.old) }
        ensures says { result ≡ answer_to S.Shelf call self.old }
    {
        match (self.course.status, call) {
            (_, Call::Look { of, line }) => self.answer_look(of, line),
            (_, Call::Rewind) => Answer::Rewound(self.rewind()),
            (Status::Ready, Call::Play(grant)) => Answer::Played(self.play(grant)),
            // Stays: two arms, since one for every other status is not proved: there it is not known that the player is not ready.
            (Status::Ended, Call::Play(_)) => Answer::Played(Progress {
                beats: 0,
                status: Status::Ended,
            }),
            (Status::Stopped { cause, node }, Call::Play(_)) => Answer::Played(Progress {
                beats: 0,
                status: Status::Stopped { cause, node },
            }),
        }
    }
}
