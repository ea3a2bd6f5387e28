//! The calls that a hart makes of its execution environment (RISC-V Supervisor Binary Interface Specification): the base, interrupts between
//! harts, remote fences as far as they are asked for, hart states, reset and the console.
#![tactic(auto)]

mod asking;
mod calling;
mod fences;
mod masks;
mod outcomes;
mod printing;
mod reset;
mod spans;
mod states;

pub use asking::Asked;
pub use calling::sbi;
pub use machine_model::Reason;
pub use outcomes::SbiEnd;
pub use spans::Span;
