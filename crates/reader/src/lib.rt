// Read: from the text of a sheet to nodes, or the first fault.
#![tactic(auto)]

pub mod laws;
pub mod read;
