// A packed shelf: all texts lie back to back in one pool.
#![tactic(auto)]

pub mod packed;
mod slot;

pub use crate::packed::Packed;
