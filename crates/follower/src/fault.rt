//! Why the files are not followed further.
ghost use Rattle.std.specs.Prelude.{◌≡◌};
ghost use Rattle.follower.specs.Following.{box_fault, keep_fault, lines_fault};
ghost use Rattle.follower.specs.declared.fault.RunFault.TheVariants as fault;

use keeper::KeepFault;
use kit::{Addr, Memory};
use mboxrd::BoxFault;
use outside::Place;
use source_buffer::BufferFault;
use std::fmt;
use thiserror::Error;

/// An input of a run.
#[derive(Clone, Copy, Debug, PartialEq, Eq, Hash)]
pub enum Input {
    /// The mbox.
    Mbox,
    /// The steps file.
    Steps,
}

impl fmt::Display for Input {
    ghost use Rattle.std.specs.Prelude.{Some};
    ghost use Rattle.follower.specs.Following.{input_name};

    ghost output = { λ input. Some (input_name input) };

    fn fmt<W: fmt::Write>(&self, f: &mut fmt::Formatter<W>) -> fmt::Result {
        f.write_str(match self {
            Input::Mbox => "mbox",
            Input::Steps => "steps",
        })
    }
}

/// Why the files were not followed to their end.
#[derive(Debug, PartialEq, Eq, Error, Drop)]
pub enum RunFault {
    /// The input failed.
    #[error("read fault: {0}")]
    Read(Input),
    /// As many bytes of the input were taken as may be, and one more was needed.
    #[error("endless {0}")]
    Endless(Input),
    /// The input ends before the place up to which it was followed.
    #[error("short {0}")]
    Short(Input),
    /// The input is not the one that was followed: its first bytes are others.
    #[error("other {0}")]
    OtherFiles(Input),
    /// The line of the steps file with this number, from 1, is no step, or takes the next mail where there is none.
    #[error("steps line {0}")]
    Steps(u64),
    /// The mailbox has no place for an arrival, or 2^62 changes were made.
    #[error("mailbox full")]
    Full,
    /// The shelf failed.
    #[error("disk fault")]
    Disk,
    /// What is kept in this place is damaged at this offset.
    #[error("damaged {0} at {1}")]
    Damaged(Place, u64),
    /// What is kept is the mailbox of this other address.
    #[error("other address {0}")]
    OtherMe(Addr),
    /// Memory ran out.
    #[error("out of memory")]
    Memory,
}

impl From<Memory> for RunFault {
    ghost from_gives = { λ _ why. why ≡ fault.Memory };

    fn from(_memory: Memory) -> RunFault {
        RunFault::Memory
    }
}

impl From<BoxFault> for RunFault {
    ghost from_gives = { λ fault why. why ≡ box_fault fault };

    fn from(fault: BoxFault) -> RunFault {
        match fault {
            BoxFault::Read => RunFault::Read(Input::Mbox),
            BoxFault::Endless => RunFault::Endless(Input::Mbox),
            BoxFault::Memory => RunFault::Memory,
        }
    }
}

/// The reader of the steps file answers so.
impl From<BufferFault> for RunFault {
    ghost from_gives = { λ fault why. why ≡ lines_fault fault };

    fn from(fault: BufferFault) -> RunFault {
        match fault {
            BufferFault::Read => RunFault::Read(Input::Steps),
            BufferFault::Endless => RunFault::Endless(Input::Steps),
        }
    }
}

impl From<KeepFault> for RunFault {
    ghost from_gives = { λ fault why. why ≡ keep_fault fault };

    fn from(fault: KeepFault) -> RunFault {
        match fault {
            KeepFault::Disk => RunFault::Disk,
            KeepFault::Damaged(place, at) => RunFault::Damaged(place, at),
            KeepFault::OtherMe(other) => RunFault::OtherMe(other),
            KeepFault::Full => RunFault::Full,
            KeepFault::Memory => RunFault::Memory,
        }
    }
}
