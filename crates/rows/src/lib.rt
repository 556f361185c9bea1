// A shelf of rows: each slot has as many bytes as the longest text.
#![tactic(auto)]

pub mod rows;

pub use crate::rows::Rows;
