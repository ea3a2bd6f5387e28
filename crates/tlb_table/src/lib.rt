//! A hart's own TLB: lookups by loads alone, and the steps that put and clear entries while its lock is held.
#![tactic(auto)]

mod lookup;
mod slots;

pub use lookup::{probe, slot_of};
pub use slots::{clear, put};
