//! Flushes of a hart's own TLB: of the whole table, and of pages.
#![tactic(auto)]

mod flushes;
mod sweeps;

pub use flushes::{flush_all, flush_pages};
