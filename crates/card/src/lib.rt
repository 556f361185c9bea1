// The card: a sheet as bytes, with Pack, Unpack and Judge.
#![tactic(auto)]

pub mod flaw;
pub mod judge;
pub mod laws;
pub mod pack;
pub mod parts;
pub mod refusal;
pub mod unpack;
