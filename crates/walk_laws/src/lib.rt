//! Walks of page tables that a record of steps shows.
#![tactic(auto)]

mod laws;

pub use laws::{law_kept_walks, law_walk_loads};
