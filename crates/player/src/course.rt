// Where a player is in its deck.
ghost use Rattle.std.specs.Prelude.{◌≡◌, ◌≤◌, true, length};
ghost use Rattle.deck.specs.Sheets.{sheet_of};
ghost use Rattle.player.specs.Stack.{most_series, Stacked, front_right};

use arrayvec::ArrayVec;
use deck::deck::Deck;
use nodes::view::View;
use semantics::status::Status;

pub mod moves;

// The most series still to do: one for each nest, and the sheet's own.
pub const DEPTH: usize = 17;

// The deck, and the series still to do, the first one last.
#[derive(Drop)]
pub struct Course {
    pub(crate) deck: Deck,
    pub(crate) todo: ArrayVec<u16, DEPTH>,
    pub(crate) status: Status,
    ghost deep: { length todo.items ≤ most_series },
    ghost stacked: { Stacked (sheet_of deck) todo.items },
    ghost front: { front_right (sheet_of deck) todo.items status ≡ true },
}

// The front series of a ready course: its node, its statement's node, its rest, and the statement.
#[derive(Clone, Copy, PartialEq, Eq, Debug)]
pub struct Coming {
    pub front: u16,
    pub at: u16,
    pub rest: u16,
    pub statement: View,
}
