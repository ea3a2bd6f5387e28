//! What a turn's first and last steps, its looks at IPI, its sections, starts and limits are to its hart's log.
#![tactic(auto)]

mod laws;

pub use laws::{law_begins, law_interrupts, law_limits, law_sides, law_starts};
