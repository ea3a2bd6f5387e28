//! Accesses of two harts, over passes of a table.
#![tactic(auto)]

mod fetches;
mod opening;
mod playing;
mod racing;
mod rivals;
mod rows;
mod sides;

pub use fetches::{FetchRow, fetch_scene};
pub use opening::Loaded;
pub use playing::{Played, Scene, first_stored, play_scene};
pub use racing::play_race;
pub use rivals::{arm, strike};
pub use rows::{Outcome, Row};

#[cfg(test)]
mod tests;
