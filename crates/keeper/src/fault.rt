//! Why nothing was kept.
ghost use Rattle.std.specs.Prelude.{◌≡◌};
ghost use Rattle.keeper.specs.Opening.{state_fault};
ghost use Rattle.keeper.specs.declared.fault.KeepFault.TheVariants as fault;

use kit::{Addr, Memory};
use outside::{Place, StateFault};
use thiserror::Error;

/// Why a keeper was not opened, or a change not made or not made lasting.
#[derive(Debug, PartialEq, Eq, Error, Drop)]
pub enum KeepFault {
    /// The shelf failed at one of the calls that were made of it.
    #[error("disk fault")]
    Disk,
    /// What is kept in this place is damaged at this offset.
    #[error("damaged {0} at {1}")]
    Damaged(Place, u64),
    /// What is kept is the mailbox of this other address.
    #[error("other address {0}")]
    OtherMe(Addr),
    /// The mailbox has no place for an arrival, or 2^62 changes were made.
    #[error("mailbox full")]
    Full,
    /// Memory ran out.
    #[error("out of memory")]
    Memory,
}

impl From<StateFault> for KeepFault {
    ghost from_gives = { λ fault why. why ≡ state_fault fault };

    fn from(fault: StateFault) -> KeepFault {
        match fault {
            StateFault::Disk => KeepFault::Disk,
            StateFault::Damaged(place, at) => KeepFault::Damaged(place, at),
            StateFault::Memory => KeepFault::Memory,
        }
    }
}

impl From<Memory> for KeepFault {
    ghost from_gives = { λ _ why. why ≡ fault.Memory };

    fn from(_memory: Memory) -> KeepFault {
        KeepFault::Memory
    }
}
