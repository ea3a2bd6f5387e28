//! The program's one call: command words and files in, console bytes and a report out. Its contract is the
//! project's headline, over the lines that are built.
#![tactic(auto)]

mod ending;
mod items;
mod options;
mod report;
mod start;
mod status;
mod taking;
mod top;

pub use elf_load::BadImage;
pub use items::{Item, OrderErr, read_order};
pub use options::{Asked, Line, read_line};
pub use status::{Status, code, status_line};
pub use top::tlbvm_still;
