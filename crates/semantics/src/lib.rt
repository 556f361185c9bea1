// What a sheet does, by itself: the semantics, the calls and answers that it speaks of, and its laws. The player is held to it.
#![tactic(auto)]

pub mod call;
pub mod laws;
pub mod status;
