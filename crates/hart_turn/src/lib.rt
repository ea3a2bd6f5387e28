//! A hart's turn: it begins, goes in or alone, serves requests, goes on with a fence, starts, takes interrupts, makes an instruction, and leaves.
#![tactic(auto)]

mod beginning;
mod counting;
mod ends;
mod executing;
mod fencing;
mod fetching;
mod hart;
mod instructing;
mod interrupts;
mod laws;
mod leaving;
mod planning;
mod requests;
mod sections;
mod starting;
mod turning;

pub use ends::{Anew, TurnEnd, Wait4};
pub use guest_boot::boot;
pub use hart::{Call, Claim, Hart};
pub use laws::law_first;
pub use turning::turn;

#[cfg(test)]
mod tests;
#[cfg(test)]
mod tests_fences;
#[cfg(test)]
mod tests_instructions;
