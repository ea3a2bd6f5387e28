//! Tests of requests that one hart makes and another serves between two turns, over passes of a real table.
#![tactic(auto)]

mod fences;
#[cfg(test)]
mod tests;

pub use fences::{Turns, serve_tour};
