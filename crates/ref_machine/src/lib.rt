//! The reference machine on one thread, with every translation fresh. Its definition is `machine_model`'s.
#![tactic(auto)]

mod accesses;
mod atomics;
mod calling;
mod calls;
mod decoder;
mod hart;
mod loader;
mod machine;
mod paths;
mod running;
mod serving;
mod shared;
mod step;
mod translation;

pub use machine::PlainMachine;
pub use machine_model::Reason;
