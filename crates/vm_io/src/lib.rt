// The edge of the machine: files come in as bytes by name, and bytes go out in order. What failed
// there is told by counts of faults.
#![tactic(auto)]

mod errors;
mod host;
mod images;
mod memory;
mod read;
mod sink;
mod write;

pub use errors::{Failed, NoMemory};
pub use host::{HostImages, HostSink};
pub use images::Images;
pub use memory::{MemFile, MemImages, MemSink};
pub use read::{MAX_FILE, ReadErr, read_all};
pub use sink::Sink;
pub use write::{WriteFault, write_all};

#[cfg(test)]
mod tests;
