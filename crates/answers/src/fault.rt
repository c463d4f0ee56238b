//! Why there is no answer.
ghost use Rattle.std.specs.Prelude.{◌≡◌};
ghost use Rattle.answers.specs.Answers.{ask_fault, print_fault};
ghost use Rattle.answers.specs.declared.fault.AnswerFault.TheVariants as fault;

use engine::AskFault;
use kit::Memory;
use outside::PrintFault;
use thiserror::Error;

/// Why a question was not answered, or its answer not printed as a whole.
#[derive(Clone, Copy, Debug, PartialEq, Eq, Error)]
pub enum AnswerFault {
    /// No chat in the list has a key with this text.
    #[error("no such chat")]
    NoChat,
    /// No app is shown that has this id.
    #[error("no such app")]
    NoApp,
    /// The sink failed, and a prefix of the answer may have been put.
    #[error("write fault")]
    Write,
    /// Memory ran out, and nothing was put.
    #[error("out of memory")]
    Memory,
}

impl From<Memory> for AnswerFault {
    ghost from_gives = { λ _ why. why ≡ fault.Memory };

    fn from(_memory: Memory) -> AnswerFault {
        AnswerFault::Memory
    }
}

impl From<AskFault> for AnswerFault {
    ghost from_gives = { λ asked why. why ≡ ask_fault asked };

    fn from(asked: AskFault) -> AnswerFault {
        match asked {
            AskFault::NoChat => AnswerFault::NoChat,
            AskFault::NoApp => AnswerFault::NoApp,
            // An engine is stale only where memory ran out before.
            AskFault::Stale | AskFault::Memory => AnswerFault::Memory,
        }
    }
}

impl From<PrintFault> for AnswerFault {
    ghost from_gives = { λ printed why. why ≡ print_fault printed };

    fn from(printed: PrintFault) -> AnswerFault {
        match printed {
            PrintFault::Write => AnswerFault::Write,
            PrintFault::Memory => AnswerFault::Memory,
        }
    }
}
