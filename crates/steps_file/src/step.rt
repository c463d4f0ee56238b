//! The steps, and the lines that are one.
ghost use Rattle.std.specs.Prelude.{◌≡◌, ◌≤◌, IfSome, codes};
ghost use Rattle.kit.specs.Moments.{last_moment};
ghost use Rattle.steps_file.specs.Steps.{step_of, named, number_to, last_uid};
ghost use Rattle.steps_file.specs.declared.step.Step.TheVariants as step;

use kit::{LAST_MOMENT, number, strip_prefix};

/// What a line of the steps file asks for.
#[derive(Clone, Copy, Debug, PartialEq, Eq)]
pub enum Step {
    /// The next mail of the mbox arrives.
    Next,
    /// The mail with this uid is expunged.
    Expunge(u32),
    /// The mail with this uid is marked as read.
    Seen(u32),
    /// The clock comes to this moment, in seconds since 1970-01-01 00:00:00 UTC: at most the last second of
    /// the year 9999.
    At(u64),
}

// The number that 1 to 12 digits write, if it is at most so much.
fn number_to(most: u64, digits: &[u8]) -> Option<u64>
    ensures value { result ≡ number_to most digits.now }
    ensures bound { IfSome result (λ n. n ≤ most) }
{
    let number = number(1, 12, digits)?;
    if number <= most { Some(number) } else { None }
}

fn uid(digits: &[u8]) -> Option<u32>
    ensures { result ≡ number_to last_uid digits.now }
{
    let number = number_to(u64::from(u32::MAX), digits)?;
    Some(number as u32)
}

fn expunge(line: &[u8]) -> Option<Step>
    ensures { result ≡ named (codes "expunge ") last_uid step.Expunge line.now }
{
    let digits = strip_prefix(line, b"expunge ")?;
    Some(Step::Expunge(uid(digits)?))
}

fn seen(line: &[u8]) -> Option<Step>
    ensures { result ≡ named (codes "seen ") last_uid step.Seen line.now }
{
    let digits = strip_prefix(line, b"seen ")?;
    Some(Step::Seen(uid(digits)?))
}

fn at(line: &[u8]) -> Option<Step>
    ensures { result ≡ named (codes "at ") last_moment step.At line.now }
{
    let digits = strip_prefix(line, b"at ")?;
    Some(Step::At(number_to(LAST_MOMENT, digits)?))
}

/// The step that the content of a line is, if it is one. Takes no memory.
pub fn step_of(line: &[u8]) -> Option<Step>
    ensures { result ≡ step_of line.now }
{
    if line == b"next".as_slice() {
        return Some(Step::Next);
    }
    expunge(line).or(seen(line)).or(at(line))
}
