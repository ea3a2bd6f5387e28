//! Walks of the guest's page tables by loads of RAM.
#![tactic(auto)]

mod laws;
mod tables;

pub use laws::{law_leaf_serves, law_page_walks};
pub use tables::{WalkEnd, walk};
