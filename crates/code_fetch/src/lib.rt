//! Fetches of a hart's next word of code.
#![tactic(auto)]

mod fetching;

pub use fetching::{Fetched, fetch};
pub use tlb_lock::Busy;
