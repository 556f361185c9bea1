// The player: it plays a deck on any shelf, as the semantics says.
#![tactic(auto)]

pub mod course;
pub mod eval;
pub mod open;
pub mod perform;
pub mod player;
pub mod store;
