//! The two ways in which changes are made lasting.
ghost use Rattle.std.specs.Prelude.{◌≡◌, ◌⊎◌, ◌≤◌, ◌+◌, ◌^◌, true, length, Ok, IfOk, OnOk, IfErr, IsErrOf};
ghost use Rattle.outside.specs.Causes.{HasCause, Rose};
ghost use Rattle.outside.specs.Crash.{RisesUpTo};
ghost use Rattle.outside.specs.Moments.{LeavesOnly, Reached, WhereKnown, KnownThen};
ghost use Rattle.mailbox_model.specs.Lists.{Bytes};
ghost use Rattle.state_image.specs.Images.{image, image_of, cards_in};
ghost use Rattle.tail_journal.specs.Pending.{none_pending};
ghost use Rattle.tail_journal.specs.Spelling.{group_head};
ghost use Rattle.tail_journal.specs.Tails.{IsGroup};
ghost use Rattle.state_store.specs.States.{State};
ghost use Rattle.state_store.specs.Stands.{stands};
ghost use Rattle.state_store.specs.Stored.{IsStored};
ghost use Rattle.state_store.specs.Commits.{Appends, Commits, IsLater, MakeBatch, OldOrNew, fill_of};
ghost use Rattle.outside.specs.declared.faults.StateFault.TheVariants as fault;

use crate::store::Store;
use box_state::Mailbox;
use checkpoint::a_saved_image_is_kept;
use kit::Steps;
use outside::{DiskFault, Shelf, StateFault};
use state_image::{Position, each_mailbox_has_one_image, write_image};
use std::alloc::Global;
use std::sync::ledger::Ledger;
use tail_journal::Pending;

/// Appends a group that leads from the state that stands to another.
pub fn append<H: Shelf>(store: &mut Store, shelf: &mut H, group: &[u8]) -> Result<(), DiskFault>
    requires stored { WhereKnown (H.seen shelf.old) (IsStored store.old (H.may_leave shelf.old)) }
    requires leads { WhereKnown (H.seen shelf.old) (λ places. (me : Bytes) × (new : State) × Appends me new places group.now) }
    requires chosen { store.old.chosen ≡ true }
    requires group { IsGroup group.now }
    requires small { store.old.tail.size + length group.now ≤ 2 ^ 62 }
    ensures any_moment { WhereKnown (H.seen shelf.old) (λ places. (me : Bytes) (new : State) → Appends me new places group.now
        → LeavesOnly H.moment H.left_since shelf.old shelf.new (Reached (H.may_leave shelf.old) (OldOrNew me new))) }
    ensures lasting { OnOk result (KnownThen (H.seen shelf.old) (H.seen shelf.new) (λ places after.
        (me : Bytes) (new : State) → Appends me new places group.now → stands me after ≡ Ok new)) }
    ensures stored { OnOk result (WhereKnown (H.seen shelf.new) (IsStored store.new (H.may_leave shelf.new))) }
    ensures fill { OnOk result (fill_of store.new ≡ record { chosen = true; tail = store.old.tail.size + length group.now }) }
    ensures written { RisesUpTo (length group.now + 1) (H.written shelf.old) (H.written shelf.new) }
    ensures cause { HasCause (H.faults shelf.old) (H.faults shelf.new) result }
{
    store.tail.append(shelf, group)?;
    Ok(())
}

/// Saves an image of another state to the slot that is not chosen, and clears the tail.
pub fn checkpoint<H: Shelf>(
    store: &mut Store,
    shelf: &mut H,
    number: u64,
    bytes: &[u8],
) -> Result<(), DiskFault>
    requires stored { WhereKnown (H.seen shelf.old) (IsStored store.old (H.may_leave shelf.old)) }
    requires later { WhereKnown (H.seen shelf.old) (IsLater number) }
    ensures any_moment { WhereKnown (H.seen shelf.old) (λ _. (me : Bytes) (new : State)
        → bytes.now ≡ image new.mailbox new.position → image_of bytes.now ≡ Ok (new.mailbox, new.position) → new.position.count ≡ number
        → LeavesOnly H.moment H.left_since shelf.old shelf.new (Reached (H.may_leave shelf.old) (OldOrNew me new))) }
    ensures lasting { OnOk result (KnownThen (H.seen shelf.old) (H.seen shelf.new) (λ _ after. (me : Bytes) (new : State)
        → bytes.now ≡ image new.mailbox new.position → image_of bytes.now ≡ Ok (new.mailbox, new.position) → new.position.count ≡ number
        → stands me after ≡ Ok new)) }
    ensures stored { OnOk result (WhereKnown (H.seen shelf.new) (IsStored store.new (H.may_leave shelf.new))) }
    ensures fill { OnOk result (fill_of store.new ≡ record { chosen = true; tail = 0 }) }
    ensures written { RisesUpTo (length bytes.now + 18) (H.written shelf.old) (H.written shelf.new) }
    ensures cause { HasCause (H.faults shelf.old) (H.faults shelf.new) result }
{
    each_mailbox_has_one_image();
    a_saved_image_is_kept();
    store.slots.save(shelf, number, bytes)?;
    store.tail.clear(shelf)?;
    store.chosen = true;
    Ok(())
}

/// Appends the pending changes, after which this is the position. None is pending then.
pub fn append_pending<H: Shelf>(
    store: &mut Store,
    shelf: &mut H,
    position: Position,
    pending: &mut Pending,
) -> Result<(), DiskFault>
    requires stored { WhereKnown (H.seen shelf.old) (IsStored store.old (H.may_leave shelf.old)) }
    requires batch { MakeBatch position pending.old.count pending.old.bytes }
    requires leads { WhereKnown (H.seen shelf.old) (λ places. (me : Bytes) × (new : State) × (new.position ≡ position) × Commits me new pending.old.count pending.old.bytes places) }
    requires chosen { store.old.chosen ≡ true }
    requires small { store.old.tail.size + (group_head + length pending.old.bytes) ≤ 2 ^ 62 }
    ensures any_moment { WhereKnown (H.seen shelf.old) (λ places. (me : Bytes) (new : State) → new.position ≡ position → Commits me new pending.old.count pending.old.bytes places
        → LeavesOnly H.moment H.left_since shelf.old shelf.new (Reached (H.may_leave shelf.old) (OldOrNew me new))) }
    ensures lasting { OnOk result (KnownThen (H.seen shelf.old) (H.seen shelf.new) (λ places after.
        (me : Bytes) (new : State) → new.position ≡ position → Commits me new pending.old.count pending.old.bytes places → stands me after ≡ Ok new)) }
    ensures stored { OnOk result (WhereKnown (H.seen shelf.new) (IsStored store.new (H.may_leave shelf.new))) }
    ensures fill { OnOk result (fill_of store.new ≡ record { chosen = true; tail = store.old.tail.size + (group_head + length pending.old.bytes) }) }
    ensures none { pending.new ≡ none_pending }
    ensures written { RisesUpTo (group_head + 1 + length pending.old.bytes) (H.written shelf.old) (H.written shelf.new) }
    ensures cause { HasCause (H.faults shelf.old) (H.faults shelf.new) result }
{
    let group = pending.seal(position);
    append(store, shelf, &group)?;
    pending.reuse(group);
    Ok(())
}

/// Saves this mailbox and position as an image.
pub fn save_state<H: Shelf, L: Ledger>(
    store: &mut Store,
    alloc: Global,
    shelf: &mut H,
    mailbox: &Mailbox,
    position: Position,
    steps: &mut Steps<L>,
) -> Result<(), StateFault>
    requires stored { WhereKnown (H.seen shelf.old) (IsStored store.old (H.may_leave shelf.old)) }
    requires later { WhereKnown (H.seen shelf.old) (IsLater position.count) }
    requires some { 1 ≤ position.count }
    requires few { position.count ≤ 2 ^ 62 }
    requires lines { position.lines ≤ position.steps }
    ensures any_moment { (me : Bytes) → WhereKnown (H.seen shelf.old) (λ _. LeavesOnly H.moment H.left_since shelf.old shelf.new
        (Reached (H.may_leave shelf.old) (OldOrNew me (record { mailbox = mailbox.now.mailbox; position = position })))) }
    ensures lasting { OnOk result (KnownThen (H.seen shelf.old) (H.seen shelf.new) (λ _ after. (me : Bytes)
        → stands me after ≡ Ok (record { mailbox = mailbox.now.mailbox; position = position }))) }
    ensures stored { OnOk result (WhereKnown (H.seen shelf.new) (IsStored store.new (H.may_leave shelf.new))) }
    ensures fill { OnOk result (fill_of store.new ≡ record { chosen = true; tail = 0 }) }
    ensures untouched { IsErrOf result StateFault.Memory → shelf.new ≡ shelf.old }
    ensures written { RisesUpTo (length (image mailbox.now.mailbox position) + 18) (H.written shelf.old) (H.written shelf.new) }
    ensures most { steps.new ≤ steps.old + cards_in mailbox.now.mailbox }
    ensures later { H.faults shelf.old ≤ H.faults shelf.new }
    ensures cause { IsErrOf result StateFault.Disk → Rose (H.faults shelf.old) (H.faults shelf.new) }
    ensures undamaged { IfErr result (λ why. (why ≡ fault.Disk) ⊎ (why ≡ fault.Memory)) }
{
    let image = write_image(alloc, mailbox, position, steps)?;
    checkpoint(store, shelf, position.count, &image)?;
    Ok(())
}
