// The words of a sheet: bytes, keywords, the scanner and its laws.
#![tactic(auto)]

pub mod byte;
pub mod laws;
pub mod name;
pub mod scan;
pub mod word;

pub use scan::next_word;
