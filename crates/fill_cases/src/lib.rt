//! Translations and flushes of a hart, over a pass of a table, also beside the monitor's.
#![tactic(auto)]

mod deeds;

pub use deeds::{Deed, Row, rows_right, rows_right_beside};

#[cfg(test)]
mod tests;
