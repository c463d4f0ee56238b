//! Why a trial ends before its time.
use kit::Memory;
use std::alloc::{AllocError, AllocFailed};

/// Why a trial, or a script, can't go on.
#[derive(Clone, Copy, Debug, PartialEq, Eq)]
pub enum Stop {
    /// Memory ran out.
    Memory,
    /// Bytes are not what they should be: a text, an address or an id.
    NoValue,
    /// A mailbox or an engine is not as it should be.
    NoRule,
}

impl From<Memory> for Stop {
    fn from(_: Memory) -> Stop {
        Stop::Memory
    }
}

impl From<AllocError> for Stop {
    fn from(_: AllocError) -> Stop {
        Stop::Memory
    }
}

impl<T: Drop> From<AllocFailed<T>> for Stop {
    fn from(_: AllocFailed<T>) -> Stop {
        Stop::Memory
    }
}
