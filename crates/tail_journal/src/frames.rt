//! Frames in the bytes of T, and the groups that they are.
ghost use Rattle.std.specs.Prelude.{◌≡◌, ◌≢◌, ◌≤◌, ◌<◌, ◌+◌, ◌^◌, [], false, length, take, drop, IfSome, IfErr, IfNone};
ghost use Rattle.std.specs.Int.{w32, w64, from_be_bytes};
ghost use Rattle.outside.specs.declared.faults.StateFault.TheVariants as fault;
ghost use Rattle.tail_journal.specs.Frames.{frames, is_whole, IsWholeFrame, IsFirst};
ghost use Rattle.tail_journal.specs.Groups.{applied, within_limit, position_after};
ghost use Rattle.tail_journal.specs.Read.{applied_of, Gives};

use crate::body::{Head, read_body};
use crate::group::Group;
use card_record::ReadFault;
use mailbox_model::Change;
use outside::{Place, StateFault};
use state_image::{MAX_COUNT, Position};
use std::alloc::Global;

/// How many bytes a frame has before its body.
pub const FRONT: u64 = 13;

/// The group of a body, where the count stays within its limit with it.
fn group_of(
    at: u64,
    base: u64,
    head: Head,
    changes: Vec<(u64, Change)>,
) -> Result<Group, StateFault>
    requires { at < 2 ^ 63 }
    ensures gives { Gives applied_of result (within_limit at (record { position = position_after base head; changes = changes.items })) }
    ensures no_fault { IfErr result (λ why. why ≢ fault.Disk) }
{
    let mbox_trace = head.mbox_trace;
    let steps_trace = head.steps_trace;
    match base.checked_add(u64::from(head.changes)) {
        Some(count) if count <= MAX_COUNT => Ok(Group {
            position: Position {
                count,
                mbox: head.mbox,
                steps: head.steps,
                lines: head.lines,
                mbox_trace,
                steps_trace,
            },
            changes,
        }),
        _ => Err(StateFault::Damaged(Place::T, at + 1)),
    }
}

/// The group of a frame at an offset in T. `Damaged` exactly where it is damaged.
pub fn read_group(alloc: Global, at: u64, base: u64, body: &[u8]) -> Result<Group, StateFault>
    requires { at + 13 + length body.now < 2 ^ 63 }
    ensures gives { Gives applied_of result (applied at (record { base = base; body = body.now })) }
    ensures no_fault { IfErr result (λ why. why ≢ fault.Disk) }
{
    let start = at + FRONT;
    match read_body(alloc, at + (FRONT + body.len() as u64), body) {
        Ok((head, changes)) => group_of(at, base, head, changes),
        Err(ReadFault::Malformed(left)) => {
            let bad = body.len().saturating_sub(left) as u64;
            Err(StateFault::Damaged(Place::T, start + bad))
        }
        Err(ReadFault::Memory) => Err(StateFault::Memory),
    }
}

fn number_at(bytes: &[u8], at: usize) -> u64
    requires { at + 8 ≤ length bytes.now }
    ensures { result ≡ from_be_bytes w64 (take 8 (drop at bytes.now)) }
{
    let bytes = &bytes[at..at + 8];
    u64::from_be_bytes([
        bytes[0], bytes[1], bytes[2], bytes[3], bytes[4], bytes[5], bytes[6], bytes[7],
    ])
}

fn size_at(bytes: &[u8], at: usize) -> u32
    requires { at + 4 ≤ length bytes.now }
    ensures { result ≡ from_be_bytes w32 (take 4 (drop at bytes.now)) }
{
    let bytes = &bytes[at..at + 4];
    u32::from_be_bytes([bytes[0], bytes[1], bytes[2], bytes[3]])
}

/// The bytes from an offset on.
pub fn after(bytes: &[u8], at: usize) -> &[u8]
    requires { at ≤ length bytes.now }
    ensures { result.now ≡ drop at bytes.now }
{
    &bytes[at..]
}

/// The first bytes.
fn front(bytes: &[u8], size: usize) -> &[u8]
    requires { size ≤ length bytes.now }
    ensures { result.now ≡ take size bytes.now }
{
    &bytes[..size]
}

/// The base and the body after a gate; nothing where these are not whole.
fn frame_after(rest: &[u8]) -> Option<(u64, &[u8])>
    ensures some { IfSome result (λ frame. IsWholeFrame frame.0 frame.1.now rest.now) }
    ensures none { IfNone result (is_whole rest.now ≡ false) }
{
    if rest.len() < 12 {
        return None;
    }
    let base = number_at(rest, 0);
    let size = size_at(rest, 8) as usize;
    let body = after(rest, 12);
    if body.len() < size {
        return None;
    }
    Some((base, front(body, size)))
}

/// The base of the frame at the front of the bytes, and its body; nothing where none is open and whole there.
pub fn first_frame(bytes: &[u8]) -> Option<(u64, &[u8])>
    ensures some { IfSome result (λ frame. IsFirst frame.0 frame.1.now bytes.now) }
    ensures none { IfNone result (frames bytes.now ≡ []) }
{
    if bytes.is_empty() {
        return None;
    }
    if bytes[0] != 1 {
        return None;
    }
    match frame_after(after(bytes, 1)) {
        Some(frame) => Some(frame),
        None => None,
    }
}
