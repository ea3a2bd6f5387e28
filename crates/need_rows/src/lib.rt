//! Needs of instructions served over passes of a real table, and what a turn begins and ends with.
#![tactic(auto)]

mod needs;
mod signals;

pub use needs::{Came, Row, need_scene};
pub use signals::{Signalled, Taken, signal_scene, start_scene};

#[cfg(test)]
mod tests;
