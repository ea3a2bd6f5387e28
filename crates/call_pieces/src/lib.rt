//! Calls of the SBI in their hart's log of steps and events.
#![tactic(auto)]

mod laws;

pub use laws::{law_printed, law_served};
