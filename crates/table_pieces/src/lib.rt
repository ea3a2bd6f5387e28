//! What a hart's own table is to its log of steps and events: flushes, with their events placed, and hits.
#![tactic(auto)]

mod laws;

pub use laws::{law_clears, law_flushes, law_hits};
