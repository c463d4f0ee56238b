//! How a run ends, and why it may end without an answer.
ghost use Rattle.std.specs.Prelude.{◌≡◌};
ghost use Rattle.follow.specs.Statuses.{answer_refusal, said_of, trial_refusal};
ghost use Rattle.follow.specs.declared.status.Refusal.TheVariants as refusal;

use answers::AnswerFault;
use follower::{Input, RunFault};
use kit::{Addr, Memory};
use outside::Place;
use std::alloc::Global;
use std::error::Error;
use std::fmt;
use trial::TrialFault;

/// How a run ends.
#[derive(Clone, Copy, Debug, PartialEq, Eq)]
pub enum Status {
    /// The answer was put whole.
    Ok,
    /// The words are not those of a command.
    Usage,
    /// A device that is read failed.
    Read,
    /// A line of the steps file is no step, or takes the next mail where there is none.
    Steps,
    /// The shelf failed.
    Disk,
    /// The device that is written failed, and took a prefix of the answer.
    Write,
    /// Memory ran out.
    Memory,
    /// The mailbox has no place for an arrival, or 2^62 changes were made.
    Full,
    /// No chat in the list has the key.
    NoChat,
    /// The kept state is damaged.
    Damaged,
    /// An input ends before the place up to which it was followed.
    Short,
    /// An input is not the one that was followed.
    OtherFiles,
    /// The kept state is of another address.
    OtherMe,
    /// An input did not end within the bytes that may be taken of it.
    Endless,
    /// No app is shown that has the id.
    NoApp,
}

impl Status {
    ghost use Rattle.follow.specs.Statuses.{code_of};

    /// The exit status of the program, from 0 to 14. Takes no memory.
    pub fn code(&self) -> u8
        ensures { result ≡ code_of self.now }
    {
        match self {
            Status::Ok => 0,
            Status::Usage => 1,
            Status::Read => 2,
            Status::Steps => 3,
            Status::Disk => 4,
            Status::Write => 5,
            Status::Memory => 6,
            Status::Full => 7,
            Status::NoChat => 8,
            Status::Damaged => 9,
            Status::Short => 10,
            Status::OtherMe => 11,
            Status::Endless => 12,
            Status::OtherFiles => 13,
            Status::NoApp => 14,
        }
    }
}

/// Why a run ends without an answer.
#[derive(Debug, PartialEq, Eq, Drop)]
pub enum Refusal {
    /// The words are not those of a command.
    Usage,
    /// The input failed.
    Read(Input),
    /// The line of the steps file with this number, from 1, is no step, or takes the next mail where there is none.
    Steps(u64),
    /// The shelf failed.
    Disk,
    /// The sink failed.
    Write,
    /// Memory ran out.
    Memory,
    /// The mailbox has no place for an arrival, or 2^62 changes were made.
    Full,
    /// No chat in the list has the key.
    NoChat,
    /// What is kept in this place is damaged at this offset.
    Damaged(Place, u64),
    /// The input ends before the place up to which it was followed.
    Short(Input),
    /// The input is not the one that was followed: its first bytes are others.
    OtherFiles(Input),
    /// What is kept is the mailbox of the first address, and not of the second.
    OtherMe(Addr, Addr),
    /// As many bytes of the input were taken as may be, and one more was needed.
    Endless(Input),
    /// No app is shown that has the id.
    NoApp,
}

/// The line that says that memory ran out, which takes none.
pub(crate) const OUT_OF_MEMORY: &str = "chats: out of memory\n";

impl fmt::Display for Refusal {
    ghost use Rattle.std.specs.Prelude.{Some};

    ghost output = { λ refusal. Some (said_of refusal) };

    fn fmt<W: fmt::Write>(&self, f: &mut fmt::Formatter<W>) -> fmt::Result {
        match self {
            Refusal::Usage => f.write_str(
                "usage: --me ADDR [--at N] list | chat KEY | contacts | updates ID [--info] | trial N",
            ),
            Refusal::Read(input) => write!(f, "read fault: {input}"),
            Refusal::Steps(line) => write!(f, "steps line {line}"),
            Refusal::Disk => f.write_str("disk fault"),
            Refusal::Write => f.write_str("write fault"),
            Refusal::Memory => f.write_str("out of memory"),
            Refusal::Full => f.write_str("mailbox full"),
            Refusal::NoChat => f.write_str("no such chat"),
            Refusal::Damaged(place, at) => write!(f, "damaged {place} at {at}"),
            Refusal::Short(input) => write!(f, "short {input}"),
            Refusal::OtherFiles(input) => write!(f, "other {input}"),
            Refusal::OtherMe(kept, me) => write!(f, "other address {kept}, not {me}"),
            Refusal::Endless(input) => write!(f, "endless {input}"),
            Refusal::NoApp => f.write_str("no such app"),
        }
    }
}

impl Error for Refusal {}

impl From<Memory> for Refusal {
    ghost from_gives = { λ _ why. why ≡ refusal.Memory };

    fn from(_memory: Memory) -> Refusal {
        Refusal::Memory
    }
}

impl From<AnswerFault> for Refusal {
    ghost from_gives = { λ fault why. why ≡ answer_refusal fault };

    fn from(fault: AnswerFault) -> Refusal {
        match fault {
            AnswerFault::NoChat => Refusal::NoChat,
            AnswerFault::NoApp => Refusal::NoApp,
            AnswerFault::Write => Refusal::Write,
            AnswerFault::Memory => Refusal::Memory,
        }
    }
}

impl From<TrialFault> for Refusal {
    ghost from_gives = { λ fault why. why ≡ trial_refusal fault };

    fn from(fault: TrialFault) -> Refusal {
        match fault {
            TrialFault::Full => Refusal::Full,
            TrialFault::Write => Refusal::Write,
            TrialFault::Memory => Refusal::Memory,
        }
    }
}

impl Refusal {
    ghost use Rattle.std.specs.Prelude.{◌≡◌, IfOk, string_bytes};
    ghost use Rattle.follow.specs.Statuses.{line_of, refusal_of, status_of};

    /// Why a run ends of which the files were not followed, for this own address.
    pub(crate) fn of_fault(fault: RunFault, me: Addr) -> Refusal
        ensures { result ≡ refusal_of me fault }
    {
        match fault {
            RunFault::Read(input) => Refusal::Read(input),
            RunFault::Endless(input) => Refusal::Endless(input),
            RunFault::Short(input) => Refusal::Short(input),
            RunFault::OtherFiles(input) => Refusal::OtherFiles(input),
            RunFault::Steps(line) => Refusal::Steps(line),
            RunFault::Full => Refusal::Full,
            RunFault::Disk => Refusal::Disk,
            RunFault::Damaged(place, at) => Refusal::Damaged(place, at),
            RunFault::OtherMe(other) => Refusal::OtherMe(other, me),
            RunFault::Memory => Refusal::Memory,
        }
    }

    /// The status of a run that ends so. Takes no memory.
    pub fn status(&self) -> Status
        ensures { result ≡ status_of self.now }
    {
        match self {
            Refusal::Usage => Status::Usage,
            Refusal::Read(_) => Status::Read,
            Refusal::Steps(_) => Status::Steps,
            Refusal::Disk => Status::Disk,
            Refusal::Write => Status::Write,
            Refusal::Memory => Status::Memory,
            Refusal::Full => Status::Full,
            Refusal::NoChat => Status::NoChat,
            Refusal::Damaged(..) => Status::Damaged,
            Refusal::Short(_) => Status::Short,
            Refusal::OtherFiles(_) => Status::OtherFiles,
            Refusal::OtherMe(..) => Status::OtherMe,
            Refusal::Endless(_) => Status::Endless,
            Refusal::NoApp => Status::NoApp,
        }
    }

    /// The line that says so, ended by LF, and nothing where the sink failed. Takes memory; `Err` only when it runs out.
    pub fn line(&self, alloc: Global) -> Result<String, Memory>
        ensures { IfOk result (λ line. string_bytes line ≡ line_of self.now) }
    {
        match self {
            Refusal::Write => Ok(String::new(alloc)),
            _ => Ok(format!(in alloc; "chats: {self}\n")?),
        }
    }
}
