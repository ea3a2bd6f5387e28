//! What a served need is to its hart's log of steps and events.
#![tactic(auto)]

mod laws;

pub use laws::{law_fences, law_needs};
