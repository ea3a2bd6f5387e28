//! Turns of harts over passes of a real table, played from rows: hart 0 and hart 1 by turns on one thread, with the monitor's hand on a lock
//! where a scene says so, or hart 0 alone beside a store of hart 1.
#![tactic(auto)]

mod opening;
mod playing;
mod ports;
mod races;
mod rivals;
mod rows;
mod sides;

pub use playing::{Played, Scene, play_scene};
pub use races::{Race, Raced, play_race};
pub use rows::Row;

#[cfg(test)]
mod tests;
