//! Why a trial gives no summary.
ghost use Rattle.std.specs.Prelude.{◌≡◌};
ghost use Rattle.trial.specs.Faults.{print_fault};
ghost use Rattle.trial.specs.declared.fault.TrialFault.TheVariants as fault;

use kit::Memory;
use outside::PrintFault;
use thiserror::Error;

/// Why a trial was not made, or its summary not printed as a whole.
#[derive(Clone, Copy, Debug, PartialEq, Eq, Error)]
pub enum TrialFault {
    /// The mailbox has no place for one of the mails, and nothing was put.
    #[error("mailbox full")]
    Full,
    /// The sink failed, and a prefix of the summary may have been put.
    #[error("write fault")]
    Write,
    /// Memory ran out, and nothing was put.
    #[error("out of memory")]
    Memory,
}

impl From<Memory> for TrialFault {
    ghost from_gives = { λ _ why. why ≡ fault.Memory };

    fn from(_memory: Memory) -> TrialFault {
        TrialFault::Memory
    }
}

impl From<PrintFault> for TrialFault {
    ghost from_gives = { λ printed why. why ≡ print_fault printed };

    fn from(printed: PrintFault) -> TrialFault {
        match printed {
            PrintFault::Write => TrialFault::Write,
            PrintFault::Memory => TrialFault::Memory,
        }
    }
}
