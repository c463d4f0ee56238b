//! Why the engine refuses.
ghost use Rattle.std.specs.Prelude.{◌≡◌};
ghost use Rattle.engine.specs.declared.fault.ApplyFault.TheVariants as apply;
ghost use Rattle.engine.specs.declared.fault.AskFault.TheVariants as ask;
ghost use Rattle.engine.specs.Followed.{apply_fault};

use box_state::PlanFault;
use kit::Memory;
use thiserror::Error;

/// Why a change was not made.
#[derive(Clone, Copy, Debug, PartialEq, Eq, Error)]
pub enum ApplyFault {
    /// The mailbox has no place for an arrival.
    #[error("mailbox full")]
    Full,
    /// Memory ran out before, and what is kept beside the mailbox was lost.
    #[error("engine stale")]
    Stale,
    /// Memory ran out.
    #[error("out of memory")]
    Memory,
}

impl From<Memory> for ApplyFault {
    ghost from_gives = { λ _ fault. fault ≡ apply.Memory };

    fn from(_: Memory) -> ApplyFault {
        ApplyFault::Memory
    }
}

impl From<PlanFault> for ApplyFault {
    ghost from_gives = { λ plan fault. fault ≡ apply_fault plan };

    fn from(fault: PlanFault) -> ApplyFault {
        match fault {
            PlanFault::Full => ApplyFault::Full,
            PlanFault::Memory => ApplyFault::Memory,
        }
    }
}

/// Why a question has no answer.
#[derive(Clone, Copy, Debug, PartialEq, Eq, Error)]
pub enum AskFault {
    /// No card is in the chat.
    #[error("no such chat")]
    NoChat,
    /// No row of an app with the id is shown.
    #[error("no such app")]
    NoApp,
    /// Memory ran out before, and what is kept beside the mailbox was lost.
    #[error("engine stale")]
    Stale,
    /// Memory ran out.
    #[error("out of memory")]
    Memory,
}

impl From<Memory> for AskFault {
    ghost from_gives = { λ _ fault. fault ≡ ask.Memory };

    fn from(_: Memory) -> AskFault {
        AskFault::Memory
    }
}
