//! One access of an instruction to memory or a device, of any alignment: a load, a store, or an atomic one.
#![tactic(auto)]

mod accessing;
mod atomics;
mod loads;
mod memory;
mod operand;
mod outcomes;
mod reaching;
mod stores;

pub use accessing::access;
pub use outcomes::Got;
