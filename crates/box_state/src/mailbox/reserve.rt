//! Room for what arrives next.
ghost use Rattle.std.specs.Prelude.{◌≡◌, OnOk, OnErr};
ghost use Rattle.box_state.specs.Kept.{ready_for};
ghost use Rattle.box_state.specs.declared.ready.Ready.TheVariants.{Unready, ForFault, ForCard};

use crate::mailbox::Mailbox;
use crate::ready::Ready;
use kit::{Id, Memory};
use mailbox_model::Change;

impl Mailbox {
    /// Makes room for a change, so that `make` takes no memory, and changes nothing else, also where memory runs out. Only
    /// an arrival needs room; before every other change the mailbox is ready for no arrival, and so it is where memory ran
    /// out. Takes memory; `Err` only when it runs out.
    pub fn reserve(&mut self, change: &Change) -> Result<(), Memory>
        ensures same { self.new.mailbox ≡ self.old.mailbox }
        ensures ok { OnOk result (self.new.ready ≡ ready_for change.now) }
        ensures err { OnErr result (self.new.ready ≡ Unready) }
    {
        match change {
            Change::Arrive(card) => self.reserve_card(&card.id),
            Change::ArriveFault(_) => self.reserve_fault(),
            Change::Expunge(_) | Change::Seen(_) | Change::At(_) => {
                self.ready = Ready::Unready;
                Ok(())
            }
        }
    }

    /// Makes room for a card with this id.
    pub(super) fn reserve_card(&mut self, id: &Id) -> Result<(), Memory>
        ensures same { self.new.mailbox ≡ self.old.mailbox }
        ensures ok { OnOk result (self.new.ready ≡ ForCard id.now) }
        ensures err { OnErr result (self.new.ready ≡ Unready) }
    {
        self.ready = Ready::Unready;
        self.items.reserve(1)?;
        self.cards.reserve(1)?;
        self.spots.reserve(id)?;
        self.ready = Ready::ForCard(id.copy()?);
        Ok(())
    }

    /// Makes room for a mail without a card.
    pub(super) fn reserve_fault(&mut self) -> Result<(), Memory>
        ensures same { self.new.mailbox ≡ self.old.mailbox }
        ensures ok { OnOk result (self.new.ready ≡ ForFault) }
        ensures err { OnErr result (self.new.ready ≡ Unready) }
    {
        self.ready = Ready::Unready;
        self.items.reserve(1)?;
        self.ready = Ready::ForFault;
        Ok(())
    }
}
