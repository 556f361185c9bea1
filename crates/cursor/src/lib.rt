// An inner crate of Read: nothing else rests on it, so its calls may ask something of their caller.
// The word in hand: steps from word to word and from node to node, and the words that are terms or begin statements.
#![tactic(auto)]

pub mod cursor;
pub mod leaf;
pub mod put;
pub mod start;
