//! Calls of the SBI that harts make in turn, over passes of a table: hart 0 alone, with another, or harts 0 to 3.
#![tactic(auto)]

mod calls;
mod four;
mod opening;
mod playing;
mod rows;

pub use four::play_four;
pub use opening::Loaded;
pub use playing::{play_alone, play_rows};
pub use rows::{Came, Deed, Row};

#[cfg(test)]
mod tests;
