// The errors that carry no detail: one call at the edge failed, or memory was wanted. Crates above
// use `NoMemory` for every want of memory.
use std::alloc::{AllocError, AllocFailed};
use thiserror::Error;

/// One call at the edge failed. Its count of faults says so too.
#[derive(Clone, Copy, Debug, PartialEq, Eq, Error)]
#[error("the call failed")]
pub struct Failed;

/// Memory was wanted and not there.
#[derive(Clone, Copy, Debug, PartialEq, Eq, Error)]
#[error("out of memory")]
pub struct NoMemory;

impl From<AllocError> for NoMemory {
    fn from(_error: AllocError) -> NoMemory {
        NoMemory
    }
}

impl<T: Drop> From<AllocFailed<T>> for NoMemory {
    fn from(_error: AllocFailed<T>) -> NoMemory {
        NoMemory
    }
}
