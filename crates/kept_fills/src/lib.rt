//! What the entries of a hart's TLB are of: fills, each by a walk whose words were loaded, and how long they may stay.
#![tactic(auto)]

mod laws;

pub use laws::{law_fills_stay, law_new_book};
