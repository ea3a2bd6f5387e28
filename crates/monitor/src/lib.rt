//! The monitor: an actor beside the harts, which waits for output, keeps bytes of RAM and ends the machine, as its script says.
#![tactic(auto)]

mod beginning;
mod dumping;
mod laws;
mod monitor;
mod reading;
mod rooms;
mod sections;
mod stopping;
mod turning;
mod waiting;

pub use laws::law_first;
pub use monitor::{Monitor, Outcome};
pub use monitor_script::Command;
pub use turning::{MonTurn, monitor_turn};
