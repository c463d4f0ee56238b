//! The body of a group, read.
ghost use Rattle.std.specs.Prelude.{◌≡◌};
ghost use Rattle.card_record.specs.Reading.{Gives, Moves};
ghost use Rattle.tail_journal.specs.Groups.{few_at, offsets_at, head_at, next_change, changes_at, body_at};

use card_record::{ReadFault, Rest};
use mailbox_model::Change;
use state_image::{read_traces, take_change};
use std::alloc::Global;

/// How many bytes a body has before its changes, as it is written.
pub const HEAD: usize = 90;

/// What is added to the number of changes where a group has traces.
pub const TRACED: u16 = 32_768;

/// How many changes a group has, and whether it has traces.
#[derive(Clone, Copy)]
pub struct Few {
    /// Whether it has traces, as each group that is written.
    pub traced: bool,
    /// How many changes it has, from 1 to 256.
    pub changes: u16,
}

/// What a group has before its changes.
#[derive(Clone, Copy)]
pub struct Head {
    /// How many changes it has, from 1 to 256.
    pub changes: u16,
    /// The offset in the mbox after them.
    pub mbox: u64,
    /// The offset in the steps file after them.
    pub steps: u64,
    /// The number of lines before that offset.
    pub lines: u64,
    /// The chain of the mbox up to its offset, or 32 zero bytes.
    pub mbox_trace: [u8; 32],
    /// The chain of the steps file up to its offset, or 32 zero bytes.
    pub steps_trace: [u8; 32],
}

/// Takes the number of changes, from 1 to 256, which tells also whether there are traces.
fn read_few(rest: &mut Rest<'_>) -> Result<Few, ReadFault>
    ensures { Moves (λ few. few) result (few_at rest.old) rest.new }
{
    let left = rest.len();
    match rest.b16()? {
        n @ 1..=256 => Ok(Few {
            traced: false,
            changes: n,
        }),
        n @ 32_769..=33_024 => Ok(Few {
            traced: true,
            changes: n - TRACED,
        }),
        _ => Err(ReadFault::Malformed(left)),
    }
}

/// Takes the offsets after so many changes.
#[tactic(auto, unfolding(crate::specs::Groups::offsets_at))]
fn read_offsets(few: Few, rest: &mut Rest<'_>) -> Result<Head, ReadFault>
    ensures { Moves (λ head. head) result (offsets_at few rest.old) rest.new }
{
    let mbox = rest.b64()?;
    let steps = rest.b64()?;
    let left = rest.len();
    let lines = rest.b64()?;
    if steps < lines {
        return Err(ReadFault::Malformed(left));
    }
    let (mbox_trace, steps_trace) = read_traces(few.traced, rest)?;
    Ok(Head {
        changes: few.changes,
        mbox,
        steps,
        lines,
        mbox_trace,
        steps_trace,
    })
}

/// Takes what is before the changes.
#[tactic(auto, unfolding(crate::specs::Groups::head_at))]
fn read_head(rest: &mut Rest<'_>) -> Result<Head, ReadFault>
    ensures { Moves (λ head. head) result (head_at rest.old) rest.new }
{
    let few = read_few(rest)?;
    read_offsets(few, rest)
}

/// Takes a change of a body that ends at `end` in the tail, with its offset there.
fn next_change(alloc: Global, end: u64, rest: &mut Rest<'_>) -> Result<(u64, Change), ReadFault>
    ensures { Moves (λ change. change) result (next_change end rest.old) rest.new }
{
    let at = end.saturating_sub(rest.len() as u64);
    let change = take_change(alloc, rest)?;
    Ok((at, change))
}

/// Takes so many changes.
fn read_changes(
    alloc: Global,
    end: u64,
    count: u16,
    rest: &mut Rest<'_>,
) -> Result<Vec<(u64, Change)>, ReadFault>
    ensures { Moves (λ changes. changes.items) result (changes_at end count rest.old) rest.new }
{
    let mut changes = Vec::new(alloc);
    for _ in 0..count {
        changes.push(next_change(alloc, end, rest)?)?;
    }
    Ok(changes)
}

/// The body of a group that ends at `end` in the tail: what it has before its changes, and these with their offsets there.
#[tactic(auto, unfolding(crate::specs::Groups::body_at))]
pub fn read_body(
    alloc: Global,
    end: u64,
    body: &[u8],
) -> Result<(Head, Vec<(u64, Change)>), ReadFault>
    ensures { Gives (λ read. (read.0, read.1.items)) result (body_at end body.now) }
{
    let mut rest = Rest::new(body);
    let head = read_head(&mut rest)?;
    let changes = read_changes(alloc, end, head.changes, &mut rest)?;
    if rest.len() > 0 {
        return Err(ReadFault::Malformed(rest.len()));
    }
    Ok((head, changes))
}
