//! The groups of T from a count on.
ghost use Rattle.std.specs.Prelude.{◌≢◌, ◌≤◌, ◌<◌, ◌+◌, ◌^◌, List, length, map, drop, IfOk, IfErr, IfSome, IfNone};
ghost use Rattle.std.specs.List.{AllByRecursion};
ghost use Rattle.outside.specs.declared.faults.StateFault.TheVariants as fault;
ghost use Rattle.tail_journal.specs.declared.group.Group.{Group};
ghost use Rattle.tail_journal.specs.Frames.{frames, IsFirst};
ghost use Rattle.tail_journal.specs.Groups.{reading_on, reading};
ghost use Rattle.tail_journal.specs.Read.{applied_of, groups_of, FitsApplied, GoesOn, EndsAt, Gives, Fails};

use crate::frames::{after, first_frame, read_group};
use crate::group::Group;
use outside::StateFault;
use std::alloc::Global;

/// Where reading goes on after a frame with a smaller base, which is skipped unread.
fn skip(bytes: &[u8], at: usize, count: u64, base: u64, body: &[u8]) -> usize
    requires first { IsFirst base body.now (drop at bytes.now) }
    requires at { at ≤ length bytes.now }
    requires less { base < count }
    ensures { (old : List Group) → GoesOn bytes.now at count result count old old }
{
    at + (13 + body.len())
}

/// Applies a group whose base is the count: where reading goes on after it, and the count then. `Damaged` exactly where it
/// is damaged, with the offset in T.
fn apply(
    alloc: Global,
    bytes: &[u8],
    at: usize,
    base: u64,
    body: &[u8],
    groups: &mut Vec<Group>,
) -> Result<(usize, u64), StateFault>
    requires first { IsFirst base body.now (drop at bytes.now) }
    requires at { at ≤ length bytes.now }
    requires small { length bytes.now < 2 ^ 62 }
    ensures goes { IfOk result (λ next. GoesOn bytes.now at base next.0 next.1 groups.old.items groups.new.items) }
    ensures fails { IfErr result (λ why. Fails why (reading_on at base (frames (drop at bytes.now)))) }
    ensures no_fault { IfErr result (λ why. why ≢ fault.Disk) }
{
    let group = read_group(alloc, at as u64, base, body)?;
    let later = group.position.count;
    groups.push(group)?;
    Ok((at + (13 + body.len()), later))
}

/// Skips a frame, applies it, or ends before it: where reading goes on, and with which count; nothing where it ends.
fn take_frame(
    alloc: Global,
    bytes: &[u8],
    at: usize,
    count: u64,
    base: u64,
    body: &[u8],
    groups: &mut Vec<Group>,
) -> Result<Option<(usize, u64)>, StateFault>
    requires first { IsFirst base body.now (drop at bytes.now) }
    requires at { at ≤ length bytes.now }
    requires small { length bytes.now < 2 ^ 62 }
    ensures goes { IfOk result (λ next. IfSome next (λ next.
        GoesOn bytes.now at count next.0 next.1 groups.old.items groups.new.items)) }
    ensures ends { IfOk result (λ next. IfNone next (EndsAt bytes.now at count groups.old.items groups.new.items)) }
    ensures fails { IfErr result (λ why. Fails why (reading_on at count (frames (drop at bytes.now)))) }
    ensures no_fault { IfErr result (λ why. why ≢ fault.Disk) }
{
    if base < count {
        return Ok(Some((skip(bytes, at, count, base, body), count)));
    }
    if count < base {
        return Ok(None);
    }
    let next = apply(alloc, bytes, at, base, body, groups)?;
    Ok(Some(next))
}

/// Takes the frame at an offset of T: where reading goes on, and with which count; nothing where it ends.
fn step(
    alloc: Global,
    bytes: &[u8],
    at: usize,
    count: u64,
    groups: &mut Vec<Group>,
) -> Result<Option<(usize, u64)>, StateFault>
    requires at { at ≤ length bytes.now }
    requires small { length bytes.now < 2 ^ 62 }
    ensures goes { IfOk result (λ next. IfSome next (λ next.
        GoesOn bytes.now at count next.0 next.1 groups.old.items groups.new.items)) }
    ensures ends { IfOk result (λ next. IfNone next (EndsAt bytes.now at count groups.old.items groups.new.items)) }
    ensures fails { IfErr result (λ why. Fails why (reading_on at count (frames (drop at bytes.now)))) }
    ensures no_fault { IfErr result (λ why. why ≢ fault.Disk) }
{
    match first_frame(after(bytes, at)) {
        Some((base, body)) => take_frame(alloc, bytes, at, count, base, body, groups),
        None => Ok(None),
    }
}

/// The groups of T that are applied from a count on, each valid, and where reading ends. `Damaged` exactly where one is
/// damaged.
pub fn read_groups(
    alloc: Global,
    bytes: &[u8],
    count: u64,
) -> Result<(Vec<Group>, usize), StateFault>
    requires { length bytes.now < 2 ^ 62 }
    ensures gives { Gives (λ read. (map applied_of read.0.items, read.1)) result (groups_of (reading count bytes.now)) }
    ensures valid { IfOk result (λ read. AllByRecursion FitsApplied (map applied_of read.0.items)) }
    ensures within { IfOk result (λ read. read.1 ≤ length bytes.now) }
    ensures no_fault { IfErr result (λ why. why ≢ fault.Disk) }
{
    let mut groups = Vec::new(alloc);
    let mut at = 0;
    let mut count = count;
    while let Some((next, later)) = step(alloc, bytes, at, count, &mut groups)? {
        at = next;
        count = later;
    }
    Ok((groups, at))
}
