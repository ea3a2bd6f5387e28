//! Requests from an actor to a hart, in rings of eight places: posts and polls at the source, loads and acks at the target.
#![tactic(auto)]

mod posting;
mod rings;
mod serving;

pub use guest_ram::Seen;
pub use posting::{poll_done, post};
pub use rings::{Sent, Served};
pub use serving::{ack, next_request};
pub use step_laws::{Request, request_word};
