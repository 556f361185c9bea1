// Whole sheets, played on both makes of shelf.
#![tactic(auto)]

#[cfg(test)]
mod sheets;
#[cfg(test)]
mod tests;
