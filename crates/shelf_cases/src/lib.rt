// What holds of every shelf, tried on both makes.
#![tactic(auto)]

pub mod drive;
pub mod layer;
#[cfg(test)]
mod tests;
