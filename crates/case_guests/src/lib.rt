//! Guests that the tests of several crates run, as ELF files.
#![tactic(auto)]

mod guests;
mod map;

pub use guests::{HELLO, RAM, Segment, elf, elf_of};
pub use map::with_map;
