//! What a fetch of `code_fetch` is to its hart's log of steps and events: its event, placed behind its steps.
#![tactic(auto)]

mod laws;

pub use laws::{law_fetched, law_regimes};
