#![tactic(auto)]
// Derivation lines, from anybody: when they are valid, their bracket, and the words under each.

pub mod bracket;
pub mod calls;
pub mod check;
pub mod laws;
pub mod line;
#[cfg(test)]
mod tests;
pub mod view;
