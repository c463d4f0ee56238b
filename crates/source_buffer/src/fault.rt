//! Why a buffer takes no further bytes of its source.
ghost use Rattle.std.specs.Prelude.{◌≡◌};
ghost use Rattle.source_buffer.specs.declared.fault.BufferFault.TheVariants as fault;

use outside::Failed;
use thiserror::Error;

/// Why a call of [`crate::Buffer`] took no byte where one was needed.
#[derive(Clone, Copy, Debug, PartialEq, Eq, Error)]
pub enum BufferFault {
    /// The source failed.
    #[error("the source could not be read")]
    Read,
    /// As many bytes were taken as the buffer may take, and one more was needed.
    #[error("the source did not end within the bytes that may be read")]
    Endless,
}

impl From<Failed> for BufferFault {
    ghost from_gives = { λ _ why. why ≡ fault.Read };

    fn from(_failed: Failed) -> BufferFault {
        BufferFault::Read
    }
}
