//! Laws between the assembler and listings.
#![tactic(auto)]

mod laws;

pub use laws::law_lists;
