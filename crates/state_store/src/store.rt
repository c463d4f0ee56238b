//! Two slots and a tail.
ghost use Rattle.std.specs.Prelude.{◌≡◌, ◌≢◌, ◌⊎◌, ◌≤◌, ◌+◌, true, false, length, map, Ok, IfOk, OnOk, IfErr, IfSome, IsErrOf};
ghost use Rattle.outside.specs.Causes.{Rose};
ghost use Rattle.outside.specs.Crash.{RisesUpTo};
ghost use Rattle.outside.specs.Moments.{LeavesOnly, Reached, WhereKnown, KnownThen};
ghost use Rattle.outside.specs.declared.faults.StateFault.TheVariants as fault;
ghost use Rattle.tail_journal.specs.Pending.{none_pending};

use crate::commit::{append_pending, save_state};
use crate::opening::{Contents, find};
use crate::restoring::restore;
use box_state::Mailbox;
use checkpoint::Slots;
use kit::{Addr, Steps};
use outside::{Shelf, StateFault};
use state_image::Position;
use std::alloc::Global;
use std::sync::ledger::Ledger;
use tail_journal::{GROUP_HEAD, Pending, Tail};

/// The most bytes that the tail may have.
const MAX_TAIL: u64 = 8_388_608;

/// The kept state of a mailbox, as far as a commit needs to know it: two slots, and the tail after the chosen one.
#[derive(Clone, Copy, Debug, PartialEq, Eq)]
pub struct Store {
    pub(crate) slots: Slots,
    pub(crate) tail: Tail,
    /// A slot is chosen.
    pub(crate) chosen: bool,
}

/// What a store keeps.
#[derive(Drop)]
pub struct Opened {
    /// The store, to which changes can be committed.
    pub store: Store,
    /// The mailbox of the state that stands.
    pub mailbox: Mailbox,
    /// Its position: the count is at most 2^62, and `lines` at most `steps`.
    pub position: Position,
}

impl Store {
    ghost use Rattle.outside.specs.StateFaults.{Gives};
    ghost use Rattle.state_store.specs.States.{IsWithin};
    ghost use Rattle.state_store.specs.Commits.{Commits, MakeBatch, OldOrNew, commit_reads, commit_writes, falls_due, fill_of, fill_with};
    ghost use Rattle.state_store.specs.Stands.{found_of, stands, ComesOf};
    ghost use Rattle.state_store.specs.Stored.{state_in, fill_in, IsStored, SameFound};

    /// Opens the store of a shelf, for an own address: the state that stands, which is what the chosen slot keeps after the
    /// groups of the tail that are to be applied. Where no slot is chosen it is the empty mailbox of the address. What is
    /// after those groups in T is cut off; without a chosen slot all of it. Takes memory for what is kept.
    ///
    /// `Disk` comes only at a fault of the shelf. `Damaged` comes exactly where the chosen slot is damaged, or a group that is
    /// to be applied is or has a change for which the mailbox has no place, with the place and the offset there.
    ///
    /// - `gives`: the state is the one that stands in what the reads give at the start.
    /// - `comes`: its mailbox comes of that of the chosen slot, by changes which that allows.
    /// - `same`, `stored`: after Ok the same is found on the shelf, and it is settled for the store.
    /// - `fill`: the store has a chosen slot where there is one, and as many bytes of the tail as are read.
    /// - `any_moment`: a crash at any moment leaves that in which the same is found as in what it might have left at the start.
    /// - `written`: nothing is written.
    pub fn open<H: Shelf>(alloc: Global, me: &Addr, shelf: &mut H) -> Result<Opened, StateFault>
        ensures gives { WhereKnown (H.seen shelf.old) (λ places. Gives state_in result (stands me.now places)) }
        ensures comes { IfOk result (λ opened. WhereKnown (H.seen shelf.old) (λ places.
            IfOk (found_of places) (λ found. ComesOf me.now found opened.mailbox.mailbox))) }
        ensures within { IfOk result (λ opened. IsWithin opened.position) }
        ensures same { OnOk result (KnownThen (H.seen shelf.old) (H.seen shelf.new) SameFound) }
        ensures stored { IfOk result (λ opened. WhereKnown (H.seen shelf.new) (IsStored opened.store (H.may_leave shelf.new))) }
        ensures fill { IfOk result (λ opened. WhereKnown (H.seen shelf.old) (λ places. fill_of opened.store ≡ fill_in places)) }
        ensures any_moment { WhereKnown (H.seen shelf.old) (λ _. LeavesOnly H.moment H.left_since shelf.old shelf.new
            (Reached (H.may_leave shelf.old) SameFound)) }
        ensures written { H.written shelf.new ≡ H.written shelf.old }
        ensures later { H.faults shelf.old ≤ H.faults shelf.new }
        ensures cause { IsErrOf result StateFault.Disk → Rose (H.faults shelf.old) (H.faults shelf.new) }
    {
        let Contents {
            store,
            kept,
            groups,
        } = find(alloc, shelf)?;
        let (mailbox, position) = restore(alloc, me, kept, groups)?;
        Ok(Opened {
            store,
            mailbox,
            position,
        })
    }

    /// Whether so many bytes of changes are saved with an image, and not appended as a group: no slot is chosen, or the
    /// tail would have more than 8,388,608 bytes with them.
    fn is_due(&self, changes: usize) -> bool
        ensures { result ≡ falls_due (fill_of self.now) changes }
    {
        let group = (GROUP_HEAD as u64).saturating_add(changes as u64);
        !self.chosen || MAX_TAIL < self.tail.size().saturating_add(group)
    }

    /// Makes the pending changes, of which there is one at least, lasting: they lead from the state that stands to this
    /// mailbox and position. They are appended to the tail; where a checkpoint falls due, an image of the mailbox is saved in
    /// their place, and the tail is cleared. None is pending then. Only a checkpoint takes memory, before it writes: `Memory`
    /// leaves the shelf as it was. After any `Err` the shelf is to be opened again.
    ///
    /// `Disk` comes only at a fault of the shelf.
    ///
    /// - `any_moment`: a crash at any moment leaves the state of before or the new one.
    /// - `lasting`, `stored`: after Ok the new state stands, and the shelf is settled for the store, so that it alone is left.
    /// - `fill`: after Ok the tail has the group too, or after a checkpoint nothing.
    /// - `written`: no more is written than 104 bytes beside the changes, or where a checkpoint falls due 18 beside the image.
    /// - `reads`: an image reads each kept card once, and a group none.
    pub fn commit<H: Shelf, L: Ledger>(
        &mut self,
        alloc: Global,
        shelf: &mut H,
        mailbox: &Mailbox,
        position: Position,
        pending: &mut Pending,
        steps: &mut Steps<L>,
    ) -> Result<(), StateFault>
        requires stored { WhereKnown (H.seen shelf.old) (IsStored self.old (H.may_leave shelf.old)) }
        requires batch { MakeBatch position pending.old.count pending.old.bytes }
        requires leads { WhereKnown (H.seen shelf.old)
            (Commits mailbox.now.mailbox.me (record { mailbox = mailbox.now.mailbox; position = position }) pending.old.count pending.old.bytes) }
        ensures any_moment { WhereKnown (H.seen shelf.old) (λ _. LeavesOnly H.moment H.left_since shelf.old shelf.new
            (Reached (H.may_leave shelf.old) (OldOrNew mailbox.now.mailbox.me (record { mailbox = mailbox.now.mailbox; position = position })))) }
        ensures lasting { OnOk result (KnownThen (H.seen shelf.old) (H.seen shelf.new) (λ _ after.
            stands mailbox.now.mailbox.me after ≡ Ok (record { mailbox = mailbox.now.mailbox; position = position }))) }
        ensures stored { OnOk result (WhereKnown (H.seen shelf.new) (IsStored self.new (H.may_leave shelf.new))) }
        ensures fill { OnOk result (fill_of self.new ≡ fill_with (fill_of self.old) (length pending.old.bytes)) }
        ensures none { OnOk result (pending.new ≡ none_pending) }
        ensures fewer { pending.new.count ≤ pending.old.count }
        ensures no_memory { falls_due (fill_of self.old) (length pending.old.bytes) ≡ false → IfErr result (λ why. why ≢ fault.Memory) }
        ensures untouched { IsErrOf result StateFault.Memory → shelf.new ≡ shelf.old }
        ensures written { RisesUpTo (commit_writes (fill_of self.old) (length pending.old.bytes) (record { mailbox = mailbox.now.mailbox; position = position }))
            (H.written shelf.old) (H.written shelf.new) }
        ensures reads { steps.new ≤ steps.old
            + commit_reads (fill_of self.old) (length pending.old.bytes) (record { mailbox = mailbox.now.mailbox; position = position }) }
        ensures later { H.faults shelf.old ≤ H.faults shelf.new }
        ensures cause { IsErrOf result StateFault.Disk → Rose (H.faults shelf.old) (H.faults shelf.new) }
        ensures undamaged { IfErr result (λ why. (why ≡ fault.Disk) ⊎ (why ≡ fault.Memory)) }
    {
        if self.is_due(pending.size()) {
            save_state(self, alloc, shelf, mailbox, position, steps)?;
            pending.clear();
            return Ok(());
        }
        append_pending(self, shelf, position, pending)?;
        Ok(())
    }
}
