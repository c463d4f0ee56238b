//! Why a mail has no card.
ghost use Rattle.std.specs.Prelude.{◌≡◌};
ghost use Rattle.chat_card.specs.declared.fault.CardFault.TheVariants as fault;

use kit::Memory;
use thiserror::Error;

/// Why a mail has no card.
#[derive(Clone, Copy, Debug, PartialEq, Eq, Error)]
pub enum CardFault {
    /// It has no field (RFC 5322, section 2.2).
    #[error("no fields")]
    NoFields,
    /// Its first From field has no address that can be read (RFC 5322, section 3.6.2).
    #[error("no From")]
    NoFrom,
    /// The weight of its card would pass 1,048,576.
    #[error("card too long")]
    CardTooLong,
    /// Memory ran out.
    #[error("out of memory")]
    Memory,
}

impl From<Memory> for CardFault {
    ghost from_gives = { λ _ why. why ≡ fault.Memory };

    fn from(_memory: Memory) -> CardFault {
        CardFault::Memory
    }
}
