//! The devices as a guest reaches them: the UART's console, the finisher that ends the machine, and the harts' software interrupts.
#![tactic(auto)]

mod device;
mod output;
mod pending;

pub use device::{device_load, device_store};
pub use output::{put_byte, set_stop};
pub use pending::ipi;
