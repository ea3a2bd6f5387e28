//! Laws on calls of the SBI: what they did is what the reference machine does of them.
#![tactic(auto)]

mod laws;

pub use laws::law_calls;
