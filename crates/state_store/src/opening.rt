//! What is found on a shelf that is opened.
ghost use Rattle.std.specs.Prelude.{◌≡◌, ◌≤◌, map, IfOk, IfSome, OnOk, IsErrOf};
ghost use Rattle.std.specs.List.{AllByRecursion};
ghost use Rattle.outside.specs.Causes.{Rose};
ghost use Rattle.outside.specs.StateFaults.{Gives};
ghost use Rattle.outside.specs.declared.shelf.Place.TheVariants.{T};
ghost use Rattle.outside.specs.Places.{Changes};
ghost use Rattle.outside.specs.Moments.{LeavesOnly, Reached, WhereKnown, KnownThen};
ghost use Rattle.state_image.specs.Images.{IsPosition};
ghost use Rattle.checkpoint.specs.Slots.{chosen_of};
ghost use Rattle.checkpoint.specs.Kept.{count_of, number_of};
ghost use Rattle.checkpoint.specs.Known.{Knows};
ghost use Rattle.tail_journal.specs.Read.{applied_of, groups_from, in_tail, FitsApplied, SameReading};
ghost use Rattle.state_store.specs.Stands.{found_of};
ghost use Rattle.state_store.specs.Commits.{fill_of};
ghost use Rattle.state_store.specs.Stored.{IsStored, SameFound, fill_in, found_in};

use crate::store::Store;
use box_state::Mailbox;
use checkpoint::{Opened, Slots};
use outside::{Shelf, StateFault};
use state_image::Position;
use std::alloc::Global;
use tail_journal::{Group, Tail};

/// What is found on a shelf.
#[derive(Drop)]
pub struct Contents {
    /// The store of the shelf.
    pub store: Store,
    /// What the chosen slot keeps. `None` exactly where no slot is open.
    pub kept: Option<(Mailbox, Position)>,
    /// The groups of the tail that are to be applied to it, one after the other.
    pub groups: Vec<Group>,
}

/// The count of what is kept, where anything is.
fn count_of(kept: &Option<(Mailbox, Position)>) -> Option<u64>
    ensures { result ≡ count_of kept.now }
{
    match kept {
        Some((_, position)) => Some(position.count),
        None => None,
    }
}

/// Opens the tail after slots that were opened: the store of both, and the valid groups that are applied from the number of
/// the chosen slot on.
fn open_tail<H: Shelf>(
    alloc: Global,
    shelf: &mut H,
    slots: Slots,
    number: Option<u64>,
) -> Result<(Store, Vec<Group>), StateFault>
    requires known { WhereKnown (H.seen shelf.old) (Knows slots (H.may_leave shelf.old)) }
    requires number { WhereKnown (H.seen shelf.old) (λ places. number_of (chosen_of places) ≡ number) }
    ensures gives { WhereKnown (H.seen shelf.old) (λ places.
        Gives (λ read. map applied_of read.1.items) result (in_tail (groups_from number places.t))) }
    ensures valid { IfOk result (λ read. AllByRecursion FitsApplied (map applied_of read.1.items)) }
    ensures same { OnOk result (KnownThen (H.seen shelf.old) (H.seen shelf.new) (Changes T (SameReading number))) }
    ensures stored { IfOk result (λ read. WhereKnown (H.seen shelf.new) (IsStored read.0 (H.may_leave shelf.new))) }
    ensures fill { IfOk result (λ read. WhereKnown (H.seen shelf.old) (λ places. fill_of read.0 ≡ fill_in places)) }
    ensures any_moment { WhereKnown (H.seen shelf.old) (λ _. LeavesOnly H.moment H.left_since shelf.old shelf.new
        (Reached (H.may_leave shelf.old) (Changes T (SameReading number)))) }
    ensures written { H.written shelf.new ≡ H.written shelf.old }
    ensures later { H.faults shelf.old ≤ H.faults shelf.new }
    ensures cause { IsErrOf result StateFault.Disk → Rose (H.faults shelf.old) (H.faults shelf.new) }
{
    let (tail, groups) = Tail::read(alloc, shelf, number)?;
    let store = Store {
        slots,
        tail,
        chosen: number.is_some(),
    };
    Ok((store, groups))
}

/// Opens the slots and the tail of a shelf: what the chosen slot keeps, and the valid groups that are to be applied after it.
pub fn find<H: Shelf>(alloc: Global, shelf: &mut H) -> Result<Contents, StateFault>
    ensures gives { WhereKnown (H.seen shelf.old) (λ places. Gives found_in result (found_of places)) }
    ensures same { OnOk result (KnownThen (H.seen shelf.old) (H.seen shelf.new) SameFound) }
    ensures stored { IfOk result (λ contents. WhereKnown (H.seen shelf.new) (IsStored contents.store (H.may_leave shelf.new))) }
    ensures fill { IfOk result (λ contents. WhereKnown (H.seen shelf.old) (λ places. fill_of contents.store ≡ fill_in places)) }
    ensures any_moment { WhereKnown (H.seen shelf.old) (λ _. LeavesOnly H.moment H.left_since shelf.old shelf.new
        (Reached (H.may_leave shelf.old) SameFound)) }
    ensures valid { IfOk result (λ contents. AllByRecursion FitsApplied (map applied_of contents.groups.items)) }
    ensures position { IfOk result (λ contents. IfSome contents.kept (λ read. IsPosition read.1)) }
    ensures written { H.written shelf.new ≡ H.written shelf.old }
    ensures later { H.faults shelf.old ≤ H.faults shelf.new }
    ensures cause { IsErrOf result StateFault.Disk → Rose (H.faults shelf.old) (H.faults shelf.new) }
{
    let Opened { slots, kept } = Slots::open(alloc, shelf)?;
    let number = count_of(&kept);
    let (store, groups) = open_tail(alloc, shelf, slots, number)?;
    Ok(Contents {
        store,
        kept,
        groups,
    })
}
