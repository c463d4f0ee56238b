//! Out of memory.
use std::alloc::{AllocError, AllocFailed};
use thiserror::Error;

// Out of memory is free: no clause says when it comes, since no caller can know. So a body that only
// answers `Err(Memory)` meets each contract that allows the answer.

/// Memory ran out: the error of each call that takes memory, and of nothing else.
#[derive(Clone, Copy, Debug, PartialEq, Eq, Hash, Error)]
#[error("out of memory")]
pub struct Memory;

impl From<AllocError> for Memory {
    fn from(_error: AllocError) -> Memory {
        Memory
    }
}

impl<T: Drop> From<AllocFailed<T>> for Memory {
    fn from(_error: AllocFailed<T>) -> Memory {
        Memory
    }
}
