//! Callers of a hart's TLB and of the walk, over passes of a table.
#![tactic(auto)]

mod filled;
mod mapped;
mod monitored;
mod walked;

pub use filled::{Probed, probes, put_once};
pub use mapped::{Mapped, open_mapped};
pub use monitored::{held_lock, taken_marks};
pub use walked::{Row, rows_right};

#[cfg(test)]
mod tests;
