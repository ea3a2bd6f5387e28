//! What requests that a hart serves are to its log of steps and events.
#![tactic(auto)]

mod laws;

pub use laws::{law_rounds, law_served, law_unserved};
