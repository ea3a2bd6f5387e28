//! The lock of a hart's TLB: its hart holds it while it changes its table, and the monitor while it passes over that table.
#![tactic(auto)]

mod lock;

pub use lock::{Busy, try_lock, unlock};
