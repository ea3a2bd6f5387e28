//! Texts of programs: `assemble` makes a file of one, `disassemble` lists an image, an instruction a line.
#![tactic(auto)]

mod actions;
mod assembler;
mod bytes;
mod forms;
mod instructions;
mod labels;
mod listing;
mod operands;
mod operations;
mod parts;
mod passes;
mod places;
mod ranges;
mod refused;
mod spelling;

pub use assembler::{AsmErr, assemble};
pub use listing::disassemble;
