//! The tail of groups.
ghost use Rattle.std.specs.Prelude.{◌≡◌, ◌≤◌, ◌+◌, ◌++◌, ◌^◌, [], length, OnOk};
ghost use Rattle.outside.specs.Causes.{HasCause};
ghost use Rattle.outside.specs.declared.shelf.Place.TheVariants.{T};
ghost use Rattle.outside.specs.Places.{Changes, OthersStay};
ghost use Rattle.outside.specs.Moments.{LeavesOnly, Reached, WhereKnown, KnownThen};

use crate::append::append_at;
use crate::group::Group;
use crate::opening::{empty, read_from};
use outside::{DiskFault, Place, Shelf, StateFault, cut_and_sync};
use std::alloc::Global;

/// The tail in place T of a shelf, as far as an append needs to know it: groups of changes, one after the other.
#[derive(Clone, Copy, Debug, PartialEq, Eq)]
pub struct Tail {
    /// How many bytes it has.
    size: u64,
}

impl Tail {
    ghost use Rattle.std.specs.Prelude.{map, IfOk, IsErrOf};
    ghost use Rattle.std.specs.List.{AllByRecursion};
    ghost use Rattle.outside.specs.Causes.{Rose};
    ghost use Rattle.outside.specs.Crash.{RisesUpTo};
    ghost use Rattle.tail_journal.specs.Read.{applied_of, groups_from, FitsApplied, Gives, SameReading, EndsThere};
    ghost use Rattle.tail_journal.specs.Tails.{IsTail, IsPrefix, IsGroup, KeepsOrAdds, Adds};

    /// How many bytes the tail has.
    pub fn size(&self) -> u64
        ensures { result ≡ self.now.size }
    {
        self.size
    }

    /// Opens the tail: the groups that are applied from a count on, each change with its offset in T. T is synced before it is
    /// read, and what is after the last group is cut off. `None` cuts the tail to nothing. Takes memory for T and for its
    /// groups.
    ///
    /// `Disk` comes only at a fault of the shelf. `Damaged` comes exactly where a group that is to be applied is damaged, with
    /// the offset in T of the first field that is.
    ///
    /// - `gives`: the groups are those of what the reads give at the start.
    /// - `valid`: each change is valid, and so is each position: its count is at most 2^62, its `lines` at most its `steps`.
    /// - `same`, `ends`, `known`: after Ok the reads give the same groups from the count, and reading comes to the end of T,
    ///   which is settled, with its end at the size.
    /// - `any_moment`: a crash at any moment leaves the same groups from the count, and A and B as it might have left them
    ///   before.
    /// - `others`, `written`: whatever is answered, the reads of A and B are as before, and nothing is written.
    pub fn read<H: Shelf>(
        alloc: Global,
        shelf: &mut H,
        count: Option<u64>,
    ) -> Result<(Tail, Vec<Group>), StateFault>
        ensures gives { WhereKnown (H.seen shelf.old) (λ places.
            Gives (λ read. map applied_of read.1.items) result (groups_from count places.t)) }
        ensures valid { IfOk result (λ read. AllByRecursion FitsApplied (map applied_of read.1.items)) }
        ensures same { OnOk result (KnownThen (H.seen shelf.old) (H.seen shelf.new) (Changes T (SameReading count))) }
        ensures ends { OnOk result (WhereKnown (H.seen shelf.new) (λ places. EndsThere count places.t)) }
        ensures known { IfOk result (λ read. WhereKnown (H.seen shelf.new) (IsTail read.0 (H.may_leave shelf.new))) }
        ensures any_moment { WhereKnown (H.seen shelf.old) (λ _. LeavesOnly H.moment H.left_since shelf.old shelf.new
            (Reached (H.may_leave shelf.old) (Changes T (SameReading count)))) }
        ensures others { KnownThen (H.seen shelf.old) (H.seen shelf.new) (OthersStay T) }
        ensures written { H.written shelf.new ≡ H.written shelf.old }
        ensures later { H.faults shelf.old ≤ H.faults shelf.new }
        ensures cause { IsErrOf result StateFault.Disk → Rose (H.faults shelf.old) (H.faults shelf.new) }
    {
        match count {
            Some(count) => {
                let (size, groups) = read_from(alloc, shelf, count)?;
                Ok((Tail { size }, groups))
            }
            None => {
                empty(shelf)?;
                Ok((Tail { size: 0 }, Vec::new(alloc)))
            }
        }
    }

    /// Appends a group: the written form of one, whose length and the size are together at most 2^62. Takes no memory. After
    /// `Err`, which comes only at a fault of the shelf, the shelf is to be opened again.
    ///
    /// - `any_moment`: a crash at any moment leaves the same groups, or the same and the new one, from each count from which
    ///   reading comes to the end with the group's base as its count; and A and B as it might have left them before.
    /// - `added`, `known`: after Ok the group is at the end of T, and T is settled, with its end at the size. From each such
    ///   count the same groups and the new one are read, and reading comes to the end.
    /// - `others`: whatever is answered, the reads of A and B are as before.
    /// - `written`: no more is written than the group and 1 byte.
    pub fn append<H: Shelf>(&mut self, shelf: &mut H, group: &[u8]) -> Result<(), DiskFault>
        requires known { WhereKnown (H.seen shelf.old) (IsTail self.old (H.may_leave shelf.old)) }
        requires group { IsGroup group.now }
        requires small { self.old.size + length group.now ≤ 2 ^ 62 }
        ensures any_moment { WhereKnown (H.seen shelf.old) (λ _. LeavesOnly H.moment H.left_since shelf.old shelf.new
            (Reached (H.may_leave shelf.old) (Changes T (KeepsOrAdds group.now)))) }
        ensures appended { OnOk result (KnownThen (H.seen shelf.old) (H.seen shelf.new)
            (Changes T (λ old new. new ≡ old ++ group.now))) }
        ensures added { OnOk result (KnownThen (H.seen shelf.old) (H.seen shelf.new) (Changes T (Adds group.now))) }
        ensures size { OnOk result (self.new.size ≡ self.old.size + length group.now) }
        ensures known { OnOk result (WhereKnown (H.seen shelf.new) (IsTail self.new (H.may_leave shelf.new))) }
        ensures others { KnownThen (H.seen shelf.old) (H.seen shelf.new) (OthersStay T) }
        ensures written { RisesUpTo (length group.now + 1) (H.written shelf.old) (H.written shelf.new) }
        ensures cause { HasCause (H.faults shelf.old) (H.faults shelf.new) result }
    {
        match append_at(shelf, self.size, &group[1..]) {
            Ok(()) => {
                self.size += group.len() as u64;
                Ok(())
            }
            Err(_) => Err(DiskFault),
        }
    }

    /// Cuts the tail to nothing. Takes no memory and writes nothing. After `Err`, which comes only at a fault of the shelf,
    /// the shelf is to be opened again.
    ///
    /// - `any_moment`: a crash at any moment leaves a prefix of T, and A and B as it might have left them before.
    /// - `cleared`, `known`: after Ok T is empty and settled, with its end at the size.
    /// - `others`: whatever is answered, the reads of A and B are as before.
    pub fn clear<H: Shelf>(&mut self, shelf: &mut H) -> Result<(), DiskFault>
        requires known { WhereKnown (H.seen shelf.old) (IsTail self.old (H.may_leave shelf.old)) }
        ensures any_moment { LeavesOnly H.moment H.left_since shelf.old shelf.new
            (Reached (H.may_leave shelf.old) (Changes T IsPrefix)) }
        ensures cleared { OnOk result (WhereKnown (H.seen shelf.new) (λ places. places.t ≡ [])) }
        ensures empty { OnOk result (self.new.size ≡ 0) }
        ensures known { OnOk result (WhereKnown (H.seen shelf.new) (IsTail self.new (H.may_leave shelf.new))) }
        ensures others { KnownThen (H.seen shelf.old) (H.seen shelf.new) (OthersStay T) }
        ensures written { H.written shelf.new ≡ H.written shelf.old }
        ensures cause { HasCause (H.faults shelf.old) (H.faults shelf.new) result }
    {
        match cut_and_sync(shelf, Place::T, 0) {
            Ok(()) => {
                self.size = 0;
                Ok(())
            }
            Err(_) => Err(DiskFault),
        }
    }
}
