//! Requests of others at a hart: each is served by a flush of its own TLB, and acked.
#![tactic(auto)]

mod round;
mod serving;

pub use round::serve_round;
pub use serving::{Serving, serve_source};
pub use tlb_lock::Busy;
