// An inner crate of Read: nothing else rests on it, so its calls may ask something of their caller.
// Recursive descent: declarations, expressions, statements and series, from the word in hand to nodes.
#![tactic(auto)]

pub mod declarations;
pub mod expression;
pub mod statement;
