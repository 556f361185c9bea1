// How a course goes on.
ghost use Rattle.std.specs.Prelude.{◌≡◌, ◌-◌, ◌<◌, [], ◌∷◌, ◌++◌, length, take};
ghost use Rattle.arrayvec.specs.ArrayVec.{array_vec_len};
ghost use Rattle.nodes.specs.Nodes.{view_at};
ghost use Rattle.deck.specs.Sheets.{sheet_of};
ghost use Rattle.semantics.specs.Semantics.{full};
ghost use Rattle.semantics.specs.declared.status.Status.TheVariants.{Ready, Stopped};
ghost use Rattle.semantics.specs.declared.status.Cause.TheVariants.{TooFewSlots};
ghost use Rattle.player.specs.Stack.{Settles};
ghost use Rattle.player.specs.Of.{todo_of, behind, Stands, Moved, Fits, Enters, Comes};

use crate::course::{Coming, Course, DEPTH};
use arrayvec::ArrayVec;
use deck::deck::Deck;
use nodes::view::View;
use semantics::status::{Cause, Status};

// What node i says.
pub(crate) fn view_at(deck: &Deck, i: u16) -> View
    ensures { result ≡ view_at (sheet_of deck.now).nodes i }
{
    deck.node_at(i).view()
}

// The last node of a sheet, its own series.
fn last_node(deck: &Deck) -> u16
    ensures { result ≡ length (sheet_of deck.now).nodes - 1 }
{
    (deck.count() - 1) as u16
}

// Whether node i is a series with a statement.
fn is_full(deck: &Deck, i: u16) -> bool
    ensures { result ≡ full (view_at (sheet_of deck.now).nodes i) }
{
    matches!(view_at(deck, i), View::Series { .. })
}

// Drops the empty series in front, and answers how a course with the others stands.
fn settle(deck: &Deck, todo: &mut ArrayVec<u16, DEPTH>) -> Status
    ensures { Settles (sheet_of deck.now) todo.old.items todo.new.items result }
{
    while let Some(&front) = todo.last() {
        if is_full(deck, front) {
            return Status::Ready;
        }
        todo.pop();
    }
    Status::Ended
}

// Puts a series in the place of the front one.
fn replace(todo: &mut ArrayVec<u16, DEPTH>, series: u16)
    requires { 0 < array_vec_len todo.old }
    ensures { todo.new.items ≡ take (array_vec_len todo.old - 1) todo.old.items ++ series ∷ [] }
{
    let front = todo.len() - 1;
    todo[front] = series;
}

impl Course {
    pub(crate) fn begin(deck: Deck) -> Course
        ensures { Moved deck result ((length (sheet_of deck).nodes - 1) ∷ []) }
    {
        let mut course = Course {
            deck,
            todo: ArrayVec::new(),
            status: Status::Ended,
        };
        course.restart();
        course
    }

    pub(crate) fn restart(&mut self)
        ensures { Moved self.old.deck self.new ((length (sheet_of self.old.deck).nodes - 1) ∷ []) }
    {
        self.todo.clear();
        self.todo.push(last_node(&self.deck));
        self.status = settle(&self.deck, &mut self.todo);
    }

    // What a ready course has in front.
    pub(crate) fn coming(&self) -> Coming
        requires { self.now.status ≡ Ready }
        ensures { Comes self.now result }
    {
        let front = self.todo[self.todo.len() - 1];
        let series = self.deck.node_at(front);
        Coming {
            front,
            at: series.a,
            rest: series.b,
            statement: view_at(&self.deck, series.a),
        }
    }

    // Stops for want of slots.
    // Stays: node 0, since a stop always tells a node, and the slots belong to none.
    pub(crate) fn lack_slots(&mut self)
        ensures { Stands self.old.deck self.new [] (Stopped TooFewSlots 0) }
    {
        self.todo.clear();
        self.status = Status::Stopped {
            cause: Cause::TooFewSlots,
            node: 0,
        };
    }

    // Goes on with `rest` in place of the front series.
    pub(crate) fn go_on(&mut self, rest: u16)
        requires { Fits self.old rest }
        ensures { Moved self.old.deck self.new (rest ∷ behind self.old) }
    {
        replace(&mut self.todo, rest);
        self.status = settle(&self.deck, &mut self.todo);
    }

    // Goes on with `body`, and then with `under` in place of the front series.
    pub(crate) fn enter(&mut self, under: u16, body: u16)
        requires { Enters self.old under body }
        ensures { Moved self.old.deck self.new (body ∷ under ∷ behind self.old) }
    {
        replace(&mut self.todo, under);
        self.todo.push(body);
        self.status = settle(&self.deck, &mut self.todo);
    }

    // Goes on with the body of a while, and then with its series again.
    pub(crate) fn again(&mut self, coming: Coming, body: u16)
        requires { Enters self.old coming.front body }
        ensures { Moved self.old.deck self.new (body ∷ coming.front ∷ behind self.old) }
    {
        self.enter(coming.front, body)
    }

    pub(crate) fn stop(&mut self, cause: Cause, node: u16)
        ensures { Stands self.old.deck self.new (todo_of self.old) (Stopped cause node) }
    {
        self.status = Status::Stopped { cause, node };
    }
}
