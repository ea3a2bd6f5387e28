//! Turns of harts and of the monitor, as logs of the steps that they make and of the reference machine's events.
#![tactic(auto)]

mod laws;

pub use laws::{law_kept_walks, law_quiet_steps, law_turns};
