//! The loader: what it stores in a machine's words before harts and the monitor make steps.
#![tactic(auto)]

mod booting;
mod laws;
mod loading;
mod words;

pub use booting::boot;
pub use laws::law_splits;
