// Load's rules, and the deck: a sheet that has passed them.
#![tactic(auto)]

pub mod check;
pub mod deck;
pub mod fault;
mod judgement;
pub mod laws;
pub mod load;
pub mod questions;
mod row;
pub mod rules;
