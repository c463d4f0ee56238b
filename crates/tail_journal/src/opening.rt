//! A tail that is opened.
ghost use Rattle.std.specs.Prelude.{◌≡◌, ◌⊎◌, ◌≤◌, ◌<◌, ◌^◌, length, map, None, Some, IfOk, OnOk, IfErr, IsErrOf};
ghost use Rattle.std.specs.List.{AllByRecursion};
ghost use Rattle.outside.specs.Causes.{HasCause, Rose};
ghost use Rattle.outside.specs.declared.shelf.Place.TheVariants.{T};
ghost use Rattle.outside.specs.Places.{Changes, OthersStay};
ghost use Rattle.outside.specs.Moments.{LeavesOnly, Reached, WhereKnown, KnownThen, IsSettled, ChangesNoRead};
ghost use Rattle.outside.specs.declared.faults.StateFault.TheVariants as fault;
ghost use Rattle.tail_journal.specs.Groups.{reading};
ghost use Rattle.tail_journal.specs.Read.{applied_of, groups_of, groups_from, FitsApplied, Gives, SameReading, EndsThere};

use crate::group::Group;
use crate::reading::read_groups;
use outside::{Place, Shelf, StateFault, cut_and_sync};
use std::alloc::Global;

/// More bytes than memory has.
const TOO_MANY: u64 = 1 << 62;

/// The bytes of T.
fn read_bytes<H: Shelf>(alloc: Global, shelf: &mut H) -> Result<Vec<u8>, StateFault>
    ensures bytes { IfOk result (λ bytes. WhereKnown (H.seen shelf.old) (λ places. bytes.items ≡ places.t)) }
    ensures small { IfOk result (λ bytes. length bytes.items < 2 ^ 62) }
    ensures undamaged { IfErr result (λ why. (why ≡ fault.Disk) ⊎ (why ≡ fault.Memory)) }
    ensures nothing { ChangesNoRead H.seen H.may_leave H.moment H.left_since shelf.old shelf.new }
    ensures written { H.written shelf.new ≡ H.written shelf.old }
    ensures later { H.faults shelf.old ≤ H.faults shelf.new }
    ensures cause { IsErrOf result StateFault.Disk → Rose (H.faults shelf.old) (H.faults shelf.new) }
{
    let size = shelf.size(Place::T)?;
    if TOO_MANY <= size {
        return Err(StateFault::Memory);
    }
    let mut bytes = vec![in alloc; 0u8; size as usize]?;
    let count = shelf.read(Place::T, 0, &mut bytes)?;
    bytes.truncate(count);
    Ok(bytes)
}

/// Syncs T: the groups that are applied from a count on, each valid, and where reading ends.
fn read_synced<H: Shelf>(
    alloc: Global,
    shelf: &mut H,
    count: u64,
) -> Result<(Vec<Group>, usize), StateFault>
    ensures gives { WhereKnown (H.seen shelf.old) (λ places.
        Gives (λ read. (map applied_of read.0.items, read.1)) result (groups_of (reading count places.t))) }
    ensures valid { IfOk result (λ read. AllByRecursion FitsApplied (map applied_of read.0.items)) }
    ensures settled { IfOk result (λ _. WhereKnown (H.seen shelf.old) (λ places. IsSettled T places (H.may_leave shelf.new))) }
    ensures nothing { ChangesNoRead H.seen H.may_leave H.moment H.left_since shelf.old shelf.new }
    ensures written { H.written shelf.new ≡ H.written shelf.old }
    ensures later { H.faults shelf.old ≤ H.faults shelf.new }
    ensures cause { IsErrOf result StateFault.Disk → Rose (H.faults shelf.old) (H.faults shelf.new) }
{
    shelf.sync(Place::T)?;
    let bytes = read_bytes(alloc, shelf)?;
    read_groups(alloc, &bytes, count)
}

/// The groups that are applied from a count on, each valid, and where reading ended. What is after it is cut off.
pub fn read_from<H: Shelf>(
    alloc: Global,
    shelf: &mut H,
    count: u64,
) -> Result<(u64, Vec<Group>), StateFault>
    ensures gives { WhereKnown (H.seen shelf.old) (λ places.
        Gives (λ read. map applied_of read.1.items) result (groups_from (Some count) places.t)) }
    ensures valid { IfOk result (λ read. AllByRecursion FitsApplied (map applied_of read.1.items)) }
    ensures any_moment { WhereKnown (H.seen shelf.old) (λ _. LeavesOnly H.moment H.left_since shelf.old shelf.new
        (Reached (H.may_leave shelf.old) (Changes T (SameReading (Some count))))) }
    ensures same { OnOk result (KnownThen (H.seen shelf.old) (H.seen shelf.new) (Changes T (SameReading (Some count)))) }
    ensures ends { OnOk result (WhereKnown (H.seen shelf.new) (λ places. EndsThere (Some count) places.t)) }
    ensures settled { OnOk result (WhereKnown (H.seen shelf.new) (λ places. IsSettled T places (H.may_leave shelf.new))) }
    ensures size { IfOk result (λ read. WhereKnown (H.seen shelf.new) (λ places. length places.t ≡ read.0)) }
    ensures others { KnownThen (H.seen shelf.old) (H.seen shelf.new) (OthersStay T) }
    ensures written { H.written shelf.new ≡ H.written shelf.old }
    ensures later { H.faults shelf.old ≤ H.faults shelf.new }
    ensures cause { IsErrOf result StateFault.Disk → Rose (H.faults shelf.old) (H.faults shelf.new) }
{
    let (groups, end) = read_synced(alloc, shelf, count)?;
    let end = end as u64;
    cut_and_sync(shelf, Place::T, end)?;
    Ok((end, groups))
}

/// Cuts T to nothing.
pub fn empty<H: Shelf>(shelf: &mut H) -> Result<(), StateFault>
    ensures any_moment { LeavesOnly H.moment H.left_since shelf.old shelf.new
        (Reached (H.may_leave shelf.old) (Changes T (SameReading None))) }
    ensures same { OnOk result (KnownThen (H.seen shelf.old) (H.seen shelf.new) (Changes T (SameReading None))) }
    ensures ends { OnOk result (WhereKnown (H.seen shelf.new) (λ places. EndsThere None places.t)) }
    ensures settled { OnOk result (WhereKnown (H.seen shelf.new) (λ places. IsSettled T places (H.may_leave shelf.new))) }
    ensures others { KnownThen (H.seen shelf.old) (H.seen shelf.new) (OthersStay T) }
    ensures undamaged { IfErr result (λ why. why ≡ fault.Disk) }
    ensures written { H.written shelf.new ≡ H.written shelf.old }
    ensures cause { HasCause (H.faults shelf.old) (H.faults shelf.new) result }
{
    cut_and_sync(shelf, Place::T, 0)?;
    Ok(())
}
