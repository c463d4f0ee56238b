//! Why a reader of an mbox gives no answer.
ghost use Rattle.std.specs.Prelude.{◌≡◌};
ghost use Rattle.mboxrd.specs.Faults.{box_fault};
ghost use Rattle.mboxrd.specs.declared.fault.BoxFault.TheVariants as fault;

use kit::Memory;
use source_buffer::BufferFault;
use thiserror::Error;

// No clause says when memory runs out, as of `kit::Memory`: a body that only answers so meets each contract
// that allows it.

/// Why a call of [`crate::MboxReader`] gave no answer.
#[derive(Clone, Copy, Debug, PartialEq, Eq, Error)]
pub enum BoxFault {
    /// The source failed.
    #[error("the mbox could not be read")]
    Read,
    /// As many bytes were taken as the reader may take, and one more was needed.
    #[error("the mbox did not end within the bytes that may be read")]
    Endless,
    /// Memory ran out.
    #[error("out of memory")]
    Memory,
}

impl From<BufferFault> for BoxFault {
    ghost from_gives = { λ buffer why. why ≡ box_fault buffer };

    fn from(fault: BufferFault) -> BoxFault {
        match fault {
            BufferFault::Read => BoxFault::Read,
            BufferFault::Endless => BoxFault::Endless,
        }
    }
}

impl From<Memory> for BoxFault {
    ghost from_gives = { λ _ why. why ≡ fault.Memory };

    fn from(_memory: Memory) -> BoxFault {
        BoxFault::Memory
    }
}
