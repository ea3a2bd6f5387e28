//! The reference machine: it has no TLB, lock, queue or bitmap. Its definition is in `specs/`, as runs of events. The
//! functions here are the parts of it that more than one machine computes: bytes of words, devices, reasons.
#![tactic(auto)]

mod bytes;
mod device;
mod laws;
mod mode;
mod reason;

pub use bytes::{extended, number_in, number_over, replace_in, replace_over};
pub use device::{DeviceStore, device_stored, device_value};
pub use laws::{law_apart, law_grows, law_plain, law_reasons};
pub use mode::Mode;
pub use reason::{Reason, reason_in, reason_word};
