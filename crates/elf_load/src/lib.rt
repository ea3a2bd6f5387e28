//! Reads ELF-64 files of RISC-V programs (ELF-64 Object File Format; RISC-V ELF psABI): which are accepted,
//! where their program starts, and what their parts put into memory.
#![tactic(auto)]

mod header;
mod image;
mod parsing;
mod segments;

pub use image::{BadImage, Image, ImageErr, Part};
pub use parsing::parse;

#[cfg(test)]
mod table_tests;
#[cfg(test)]
mod tests;
