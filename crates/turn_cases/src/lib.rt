//! Sections and requests of several actors, by passes of one table.
#![tactic(auto)]

mod fences;
mod requests;
mod sections;

pub use fences::fence_tour;
pub use requests::{Asked, ask_tour};
pub use sections::{Claims, section_tour};

#[cfg(test)]
mod tests;
