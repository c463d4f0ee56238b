//! Why a draft is not written, or not put.
ghost use Rattle.std.specs.Prelude.{◌≡◌};
ghost use Rattle.compose.specs.declared.fault.DraftFault.TheVariants as fault;
ghost use Rattle.compose.specs.declared.fault.PutFault.TheVariants as put;

use kit::Memory;
use outside::Failed;
use thiserror::Error;

/// Why a draft is not written.
#[derive(Clone, Copy, Debug, PartialEq, Eq, Error)]
pub enum DraftFault {
    /// It is to nobody.
    #[error("no recipient")]
    NoTo,
    /// It changes a group, and is in none.
    #[error("no group")]
    NoGroup,
    /// It takes no mail back, or reacts to none.
    #[error("no target")]
    NoTarget,
    /// An address has a bracket, `[` or `]`.
    #[error("bracket in an address")]
    BadAddr,
    /// The text breaks the rules of a text that is read as it is.
    #[error("bad text")]
    BadText,
    /// The weight of its card would pass 1,048,576.
    #[error("card too long")]
    CardTooLong,
    /// Memory ran out.
    #[error("out of memory")]
    Memory,
}

/// Why the mail of a draft was not put, or not as a whole.
#[derive(Clone, Copy, Debug, PartialEq, Eq, Error)]
pub enum PutFault {
    /// The draft is not written, and nothing was put.
    #[error("{0}")]
    Draft(DraftFault),
    /// The sink failed, and a prefix of the mail may have been put.
    #[error("write fault")]
    Write,
}

impl From<Memory> for DraftFault {
    ghost from_gives = { λ _ why. why ≡ fault.Memory };

    fn from(_memory: Memory) -> DraftFault {
        DraftFault::Memory
    }
}

impl From<DraftFault> for PutFault {
    ghost from_gives = { λ refused why. why ≡ put.Draft refused };

    fn from(refused: DraftFault) -> PutFault {
        PutFault::Draft(refused)
    }
}

impl From<Memory> for PutFault {
    ghost from_gives = { λ _ why. why ≡ put.Draft fault.Memory };

    fn from(_memory: Memory) -> PutFault {
        PutFault::Draft(DraftFault::Memory)
    }
}

impl From<Failed> for PutFault {
    ghost from_gives = { λ _ why. why ≡ put.Write };

    fn from(_failed: Failed) -> PutFault {
        PutFault::Write
    }
}
