//! What an instruction needs of the machine besides its own hart's registers: accesses, interrupts, flushes and calls.
#![tactic(auto)]

mod ends;
mod serving;

pub use ends::NeedEnd;
pub use serving::serve_need;
