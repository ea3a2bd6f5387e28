//! Translation by a hart's own TLB, which a miss fills by a walk of the page tables.
#![tactic(auto)]

mod marks;
mod translation;

pub use translation::{Translated, translate};
