//! The keeper of a mailbox.
ghost use Rattle.std.specs.Prelude.{◌≡◌, ◌≢◌, ◌≤◌, ◌<◌, ◌+◌, ◌^◌, ◌⊎◌, false, true, Ok, IfOk, IfErr, OnOk, IsErrOf, length};
ghost use Rattle.outside.specs.Causes.{Rose};
ghost use Rattle.outside.specs.Crash.{RisesUpTo};
ghost use Rattle.outside.specs.Moments.{LeavesOnly, Reached, WhereKnown, KnownThen};
ghost use Rattle.outside.specs.Places.{Places};
ghost use Rattle.mailbox_model.specs.Mailbox.{after, full, IsValidChange};
ghost use Rattle.touched_chats.specs.Costs.{change_cost};
ghost use Rattle.keeper.specs.Keeping.{IsKept, after_change, is_refused};
ghost use Rattle.keeper.specs.Opening.{AllFindSame, OnOtherMe, Opens};
ghost use Rattle.tail_journal.specs.Pending.{none_pending, with_change};
ghost use Rattle.keeper.specs.declared.fault.KeepFault.TheVariants as fault;

use crate::fault::KeepFault;
use crate::opening::own_mailbox;
use engine::{ApplyFault, Engine};
use kit::{Addr, Steps};
use mailbox_model::Change;
use outside::Shelf;
use state_image::{MAX_COUNT, Position};
use state_store::{Opened, Store};
use std::alloc::Global;
use std::marker::Model;
use std::sync::ledger::Ledger;
use tail_journal::Pending;

/// A mailbox with its kept state: changes are made in an engine, and wait until a commit makes them lasting. After a call
/// that failed it may only be dropped.
#[derive(Drop)]
pub struct Keeper {
    alloc: Global,
    engine: Engine,
    position: Position,
    pending: Pending,
    store: Store,
}

impl Model for Keeper {
    ghost use Rattle.std.specs.Prelude.{◌≤◌};
    ghost use Rattle.state_store.specs.States.{IsWithin};
    ghost use Rattle.keeper.specs.Keeping.{Keeping};

    ghost Value = { Keeping };

    ghost view = { λ k. record {
      state = record { mailbox = k.engine.mailbox; position = k.position };
      pending = k.pending;
      store = k.store;
      stale = k.engine.stale;
    } };

    ghost invariant = { λ k. (k.pending.count ≤ k.position.count) × IsWithin k.position };
}

/// Makes a change in an engine that is not stale.
fn make<L: Ledger>(
    engine: &mut Engine,
    change: Change,
    steps: &mut Steps<L>,
) -> Result<(), KeepFault>
    requires current { engine.old.stale ≡ false }
    requires valid { IsValidChange change }
    ensures mailbox { OnOk result (engine.new.mailbox ≡ after engine.old.mailbox change) }
    ensures current { OnOk result (engine.new.stale ≡ false) }
    ensures room { OnOk result (full engine.old.mailbox change ≡ false) }
    ensures full { IsErrOf result KeepFault.Full → full engine.old.mailbox change ≡ true }
    ensures cause { IfErr result (λ why. (why ≡ fault.Full) ⊎ (why ≡ fault.Memory)) }
    ensures cost { steps.new ≤ steps.old + change_cost engine.old.mailbox change }
{
    match engine.apply(change, steps) {
        Ok(()) => Ok(()),
        Err(ApplyFault::Full) => Err(KeepFault::Full),
        Err(ApplyFault::Memory) => Err(KeepFault::Memory),
        Err(ApplyFault::Stale) => unreachable!(),
    }
}

/// The offsets of a position have 64 bits, and its traces 32 bytes, as their types say.
fn has_offsets(position: Position)
    ensures mbox { position.mbox < 2 ^ 64 }
    ensures steps { position.steps < 2 ^ 64 }
    ensures mbox_trace { length position.mbox_trace ≡ 32 }
    ensures steps_trace { length position.steps_trace ≡ 32 }
{}

impl Keeper {
    ghost use Rattle.indexes.specs.Costs.{load};
    ghost use Rattle.keeper.specs.Opening.{opening_cost};
    ghost use Rattle.state_store.specs.Commits.{OldOrNew, commit_reads, commit_writes, fill_of, fill_with};
    ghost use Rattle.state_store.specs.Stands.{found_of, stands};
    ghost use Rattle.state_store.specs.States.{IsWithin};
    ghost use Rattle.state_store.specs.Stored.{IsStored, SameFound, fill_in};

    /// Opens what a shelf keeps, for an own address: the state that stands, with no change pending. Where nothing is kept
    /// that is the empty mailbox of the address. Takes memory.
    ///
    /// `Disk` comes only at a fault of the shelf, `Damaged` exactly where what is kept is damaged, with the place and the
    /// offset there, and `OtherMe` exactly where a whole state of another address is kept.
    ///
    /// - `opens`: what is opened is the state that stands in what the reads give at the start.
    /// - `kept`, `stored`, `same`: after Ok nothing is pending, and the shelf is settled for the store; the same is found there.
    /// - `any_moment`: a crash at any moment leaves that in which the same is found as in what it might have left at the start.
    /// - `other`: after `OtherMe` each crash outcome has that in which the same is found as in what the reads gave at the start.
    /// - `written`: nothing is written.
    /// - `load`, `cost`: it reads kept cards no more often than the load of the mailbox says, whatever is answered, nor than that
    ///   of what the chosen slot keeps and the cost of each change after it.
    pub fn open<H: Shelf, L: Ledger>(
        alloc: Global,
        me: &Addr,
        shelf: &mut H,
        steps: &mut Steps<L>,
    ) -> Result<Keeper, KeepFault>
        ensures opens { WhereKnown (H.seen shelf.old) (λ places. Opens me.now result (stands me.now places)) }
        ensures me { IfOk result (λ k. k.state.mailbox.me ≡ me.now) }
        ensures current { IfOk result (λ k. k.stale ≡ false) }
        ensures pending { IfOk result (λ k. k.pending ≡ none_pending) }
        ensures kept { IfOk result (λ k. WhereKnown (H.seen shelf.new) (IsKept k)) }
        ensures stored { IfOk result (λ k. WhereKnown (H.seen shelf.new) (IsStored k.store (H.may_leave shelf.new))) }
        ensures same { OnOk result (KnownThen (H.seen shelf.old) (H.seen shelf.new) SameFound) }
        ensures any_moment { WhereKnown (H.seen shelf.old) (λ _. LeavesOnly H.moment H.left_since shelf.old shelf.new
            (Reached (H.may_leave shelf.old) SameFound)) }
        ensures other { OnOtherMe result (WhereKnown (H.seen shelf.old) (AllFindSame (H.may_leave shelf.new))) }
        ensures written { H.written shelf.new ≡ H.written shelf.old }
        ensures fill { IfOk result (λ k. WhereKnown (H.seen shelf.old) (λ places. fill_of k.store ≡ fill_in places)) }
        ensures load { IfOk result (λ k. steps.new ≤ steps.old + load k.state.mailbox) }
        ensures cost { WhereKnown (H.seen shelf.old) (λ places. steps.new ≤ steps.old + opening_cost me.now (found_of places)) }
        ensures later { H.faults shelf.old ≤ H.faults shelf.new }
        ensures cause { IsErrOf result KeepFault.Disk → Rose (H.faults shelf.old) (H.faults shelf.new) }
        ensures not_full { IfErr result (λ why. why ≢ fault.Full) }
    {
        let Opened {
            store,
            mailbox,
            position,
        } = Store::open(alloc, me, shelf)?;
        let own = own_mailbox(me, mailbox)?;
        let engine = Engine::from_mailbox(alloc, own, steps)?;
        Ok(Keeper {
            alloc,
            engine,
            position,
            pending: Pending::new(alloc),
            store,
        })
    }

    /// The engine, over the mailbox after all changes. Takes no memory.
    pub fn engine(&self) -> &Engine
        ensures mailbox { result.now.mailbox ≡ self.now.state.mailbox }
        ensures stale { result.now.stale ≡ self.now.stale }
    {
        &self.engine
    }

    /// The position after all changes.
    ///
    /// By the clause `within` its count is at most 2^62, and its `lines` at most its `steps`.
    pub fn position(&self) -> Position
        ensures value { result ≡ self.now.state.position }
        ensures within { IsWithin result }
    {
        self.position
    }

    /// How many changes are pending, from 0 to 256.
    pub fn pending(&self) -> u16
        ensures { result ≡ self.now.pending.count }
    {
        self.pending.count()
    }

    /// Makes a change, after which this is the position. It is pending then. `Full` comes exactly where the mailbox has no
    /// place for it, or 2^62 changes were made. Takes memory.
    ///
    /// - `kept`: it waits after the others for a commit to the same kept state.
    /// - `cost`: it reads kept cards no more often than the change may cost, whatever is answered.
    pub fn apply<L: Ledger>(
        &mut self,
        change: Change,
        position: Position,
        steps: &mut Steps<L>,
    ) -> Result<(), KeepFault>
        requires current { self.old.stale ≡ false }
        requires few { self.old.pending.count < 256 }
        requires valid { IsValidChange change }
        requires count { position.count ≡ self.old.state.position.count + 1 }
        requires lines { position.lines ≤ position.steps }
        ensures state { OnOk result (self.new.state ≡ after_change self.old.state change position) }
        ensures pending { OnOk result (self.new.pending ≡ with_change self.old.pending change) }
        ensures current { OnOk result (self.new.stale ≡ false) }
        ensures kept { OnOk result ((places : Places) → IsKept self.old places → IsKept self.new places) }
        ensures store { self.new.store ≡ self.old.store }
        ensures room { OnOk result (is_refused self.old.state change ≡ false) }
        ensures full { IsErrOf result KeepFault.Full → is_refused self.old.state change ≡ true }
        ensures cause { IfErr result (λ why. (why ≡ fault.Full) ⊎ (why ≡ fault.Memory)) }
        ensures cost { steps.new ≤ steps.old + change_cost self.old.state.mailbox change }
    {
        if self.position.count == MAX_COUNT {
            return Err(KeepFault::Full);
        }
        self.pending.push(&change)?;
        self.position = position;
        make(&mut self.engine, change, steps)?;
        Ok(())
    }

    /// Makes the pending changes lasting: they are appended to the tail, or where a checkpoint falls due, an image of the
    /// mailbox is saved. Where nothing is pending nothing is done. Takes its memory before it writes: `Memory` leaves the
    /// shelf as it was.
    ///
    /// `Disk` comes only at a fault of the shelf.
    ///
    /// - `any_moment`: a crash at any moment leaves the state of before or that of the keeper.
    /// - `kept`, `stored`, `pending`: after Ok the keeper's state stands, it alone is left, and nothing is pending.
    /// - `fill`: after Ok the tail has the group too, or after a checkpoint nothing.
    /// - `written`: no more is written than 104 bytes beside the changes, or where a checkpoint falls due 18 beside the image.
    /// - `reads`: an image reads each kept card once, and a group none.
    /// - `few`, `none`: no more than 256 changes are pending, and where none is nothing is done.
    pub fn commit<H: Shelf, L: Ledger>(
        &mut self,
        shelf: &mut H,
        steps: &mut Steps<L>,
    ) -> Result<(), KeepFault>
        requires kept { WhereKnown (H.seen shelf.old) (IsKept self.old) }
        requires stored { WhereKnown (H.seen shelf.old) (IsStored self.old.store (H.may_leave shelf.old)) }
        ensures any_moment { WhereKnown (H.seen shelf.old) (λ _. LeavesOnly H.moment H.left_since shelf.old shelf.new
            (Reached (H.may_leave shelf.old) (OldOrNew self.old.state.mailbox.me self.old.state))) }
        ensures lasting { OnOk result (KnownThen (H.seen shelf.old) (H.seen shelf.new) (λ _ after.
            stands self.old.state.mailbox.me after ≡ Ok self.old.state)) }
        ensures kept { OnOk result (WhereKnown (H.seen shelf.new) (IsKept self.new)) }
        ensures stored { OnOk result (WhereKnown (H.seen shelf.new) (IsStored self.new.store (H.may_leave shelf.new))) }
        ensures pending { OnOk result (self.new.pending ≡ none_pending) }
        ensures state { self.new.state ≡ self.old.state }
        ensures stale { self.new.stale ≡ self.old.stale }
        ensures fill { 1 ≤ self.old.pending.count
            → OnOk result (fill_of self.new.store ≡ fill_with (fill_of self.old.store) (length self.old.pending.bytes)) }
        ensures none { self.old.pending.count ≡ 0 → (self.new ≡ self.old) × (shelf.new ≡ shelf.old) × (steps.new ≡ steps.old) }
        ensures untouched { IsErrOf result KeepFault.Memory → shelf.new ≡ shelf.old }
        ensures written { RisesUpTo (commit_writes (fill_of self.old.store) (length self.old.pending.bytes) self.old.state)
            (H.written shelf.old) (H.written shelf.new) }
        ensures reads { steps.new ≤ steps.old + commit_reads (fill_of self.old.store) (length self.old.pending.bytes) self.old.state }
        ensures later { H.faults shelf.old ≤ H.faults shelf.new }
        ensures cause { IsErrOf result KeepFault.Disk → Rose (H.faults shelf.old) (H.faults shelf.new) }
        ensures few { self.old.pending.count ≤ 256 }
        ensures undamaged { IfErr result (λ why. (why ≡ fault.Disk) ⊎ (why ≡ fault.Memory)) }
    {
        if self.pending.count() == 0 {
            return Ok(());
        }
        has_offsets(self.position);
        let mailbox = self.engine.mailbox();
        let pending = &mut self.pending;
        self.store
            .commit(self.alloc, shelf, mailbox, self.position, pending, steps)?;
        Ok(())
    }
}
