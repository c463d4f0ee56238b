//! Groups as bytes.
ghost use Rattle.std.specs.Prelude.{◌≡◌, ◌≤◌, ◌+◌, ◌++◌, ℕ, List, length, take, drop, IfOk};
ghost use Rattle.mailbox_model.specs.declared.change.Change.{Change};
ghost use Rattle.tail_journal.specs.Spelling.{IsBatch, AreSpelled, body_spelled, group_head, open_group, group_spelled};

use crate::body::{HEAD, TRACED};
use crate::frames::FRONT;
use kit::Memory;
use mailbox_model::Change;
use state_image::Position;
use std::alloc::Global;

/// How many bytes a group has before its changes, as it is written.
pub const GROUP_HEAD: usize = FRONT as usize + HEAD;

/// A group that is to be applied.
#[derive(Drop)]
pub struct Group {
    /// The position after it.
    pub position: Position,
    /// Its changes, from 1 to 256, each with its offset in the tail.
    pub changes: Vec<(u64, Change)>,
}

/// Puts the bytes of a field at an offset of a group, over those there.
fn put(group: &mut [u8], at: usize, field: &[u8])
    requires { at + length field.now ≤ length group.old }
    ensures { group.new ≡ take at group.old ++ field.now ++ drop (at + length field.now) group.old }
{
    let end = at + field.len();
    group[at..end].copy_from_slice(field);
}

/// Puts a trace at an offset of a group, over the bytes there.
fn put_trace(group: &mut [u8], at: usize, trace: [u8; 32])
    requires { at + 32 ≤ length group.old }
    ensures text { group.new ≡ take at group.old ++ trace ++ drop (at + 32) group.old }
    ensures len { length trace ≡ 32 }
{
    put(group, at, &trace);
}

/// Fills in what stands before the n changes of a group, with an open gate.
pub fn fill_head(group: &mut [u8], base: u64, position: Position, n: u16)
    requires few { n ≤ 256 }
    requires room { group_head ≤ length group.old }
    ensures { group.new ≡ open_group base (body_spelled position n (drop group_head group.old)) }
{
    let size = group.len() - FRONT as usize;
    put(group, 0, &[1]);
    put(group, 1, &base.to_be_bytes());
    put(group, 9, &size.to_be_bytes()[4..]);
    put(group, 13, &(TRACED + n).to_be_bytes());
    put(group, 15, &position.mbox.to_be_bytes());
    put(group, 23, &position.steps.to_be_bytes());
    put(group, 31, &position.lines.to_be_bytes());
    put_trace(group, 39, position.mbox_trace);
    put_trace(group, 71, position.steps_trace);
}

/// The written form of a group: n changes, from 1 to 256 and valid, that are spelled so, with the count before them and
/// the position after them. The base and n together are the position's count, which is at most 2^62, and its `lines` is at
/// most its `steps`. Takes memory; `Err` only when it runs out.
pub fn write_group(
    alloc: Global,
    base: u64,
    position: Position,
    n: u16,
    changes: &[u8],
) -> Result<Vec<u8>, Memory>
    requires { (held : List Change) × AreSpelled n changes.now held
        × IsBatch (record { base = base; position = position; changes = held }) }
    ensures { IfOk result (λ group. (held : List Change) → AreSpelled n changes.now held
        → group.items ≡ group_spelled (record { base = base; position = position; changes = held })) }
{
    let mut group = Vec::from_slice(alloc, &[0; GROUP_HEAD])?;
    group.extend_from_slice(changes)?;
    fill_head(&mut group, base, position, n);
    Ok(group)
}
