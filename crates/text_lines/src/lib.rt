//! Texts of lines and words, and the decimal numbers in them: what orders, scripts and command lines are made of.
#![tactic(auto)]

mod lines;
mod numbers;
#[cfg(test)]
mod tests;

pub use lines::{next_line, next_word, says_nothing};
pub use numbers::read_number;
