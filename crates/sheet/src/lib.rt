#![tactic(auto)]
// The work sheet: its words, its lists, and what is counted over it.

pub mod build;
mod bytes;
pub mod count;
pub mod finish;
mod grow;
mod list;
#[cfg(test)]
mod tests;
pub mod word;
