//! A hart's use of the devices, over a pass of a table.
#![tactic(auto)]

mod consoles;
mod deeds;

pub use consoles::{Filled, fill_console};
pub use deeds::{Deed, rows_right};

#[cfg(test)]
mod tests;
