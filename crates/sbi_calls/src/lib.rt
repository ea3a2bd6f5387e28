//! Calls of the SBI that harts make: the calls themselves, and the turns of the remote fences that they ask for.
#![tactic(auto)]

mod asking;
mod fencing;
mod flushing;
mod polling;
mod spans;

pub use fencing::{Fencing, fence_turn};
pub use guest_ram::Seen;
pub use hart_calls::{SbiEnd, Span, sbi};
pub use spans::Fence;
pub use tlb_lock::Busy;
