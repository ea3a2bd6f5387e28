//! What a hart's turn begins and ends with besides its instruction: why the machine ends, calls to leave, and a stopped hart's start.
#![tactic(auto)]

mod kicks;
mod starts;
mod stops;

pub use kicks::{clear_kick, is_kicked};
pub use machine_model::Reason;
pub use starts::{Start, take_start};
pub use stops::{begin_turn, sign_off};
pub use tlb_lock::Busy;
