// The nodes of a sheet: limits, kinds, and what a node says. Shared by every layer that handles a sheet.
#![tactic(auto)]

pub mod binding;
pub mod kind;
pub mod limits;
pub mod node;
pub mod view;
