//! Words of code that a hart decoded last, in a table of fixed size that takes no memory.
#![tactic(auto)]

mod cache;

pub use cache::WordCache;
