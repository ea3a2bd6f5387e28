//! Texts of guests by number: `gen_text` makes one, which an assembler takes.
#![tactic(auto)]

mod laws;
mod program;
mod tables;
mod text;

pub use laws::law_assembles;
pub use text::gen_text;
