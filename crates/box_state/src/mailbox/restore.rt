//! A mailbox made again of its values.
ghost use Rattle.std.specs.Prelude.{◌≡◌, ◌<◌, ◌^◌, true, [], IfOk, OnOk};
ghost use Rattle.mailbox_model.specs.Mailbox.{weight_read, IsMailbox};
ghost use Rattle.box_state.specs.Kept.{entry_in, with_entry, AreBeside, is_beside, mailbox_of};
ghost use Rattle.box_state.specs.Entries.{with_item};
ghost use Rattle.box_state.specs.declared.ready.Ready.TheVariants.{Unready};

use crate::entry::{Entry, entry_of};
use crate::mailbox::Mailbox;
use crate::ready::Ready;
use card_type::{Card, weight};
use kit::{Addr, Memory};
use mailbox_model::{Fault, Held, Item};
use std::alloc::Global;

/// The weight of a card that was read, and 0 where there is none.
fn weight_read(read: &Result<Card, Fault>) -> u64
    requires { weight_read read.now < 2 ^ 64 }
    ensures { result ≡ weight_read read.now }
{
    match read {
        Ok(card) => weight(card),
        Err(_) => 0,
    }
}

impl Mailbox {
    /// The mailbox that has just these values: the own address, the moment in seconds since 1970-01-01 00:00:00 UTC, the
    /// next uid, and the items by rising uids, each with its card where it holds one. They keep the rules of a mailbox. It
    /// is ready for no arrival. Takes memory; `Err` only when it runs out, and then all that it was given is dropped.
    pub fn restore(
        alloc: Global,
        me: Addr,
        now: u64,
        next_uid: u32,
        items: Vec<(Item, Option<Card>)>,
    ) -> Result<Self, Memory>
        requires beside { AreBeside items.items }
        requires rules { IsMailbox (mailbox_of me now next_uid items.items) }
        ensures mailbox { IfOk result (λ restored. restored.mailbox ≡ mailbox_of me now next_uid items.items) }
        ensures ready { IfOk result (λ restored. restored.ready ≡ Unready) }
    {
        let mut mailbox = Mailbox::without_mails(alloc, me, now, next_uid);
        for (item, card) in items {
            mailbox.put_item(item, card)?;
        }
        Ok(mailbox)
    }

    /// A mailbox without mails, at a moment in seconds since 1970-01-01 00:00:00 UTC, which gives its next mail this uid.
    /// It is ready for no arrival. Takes no memory.
    pub fn without_mails(alloc: Global, me: Addr, moment: u64, next_uid: u32) -> Self
        requires rules { IsMailbox (mailbox_of me moment next_uid []) }
        ensures mailbox { result.mailbox ≡ mailbox_of me moment next_uid [] }
        ensures ready { result.ready ≡ Unready }
    {
        let mut mailbox = Mailbox::new(alloc, me);
        mailbox.moment = moment;
        mailbox.next_uid = next_uid;
        mailbox
    }

    /// Makes room for the items and cards of so many mails, so that putting them back moves none of them. The mailbox is
    /// ready for no arrival then. Takes memory; `Err` only when it runs out.
    pub fn make_room(&mut self, mails: usize) -> Result<(), Memory>
        ensures same { self.new.mailbox ≡ self.old.mailbox }
        ensures ready { self.new.ready ≡ Unready }
    {
        self.ready = Ready::Unready;
        self.items.reserve(mails)?;
        self.cards.reserve(mails)
    }

    /// A mail follows the others, of which the card weighs so much, in bytes; one without a card weighs nothing. The mailbox
    /// keeps its rules with it, and is ready for no arrival then. Takes memory; `Err` only when it runs out.
    pub fn put_back(&mut self, entry: Entry, weight: u64) -> Result<(), Memory>
        requires rules { IsMailbox (with_entry self.old.mailbox (entry_in entry)) }
        requires weight { weight ≡ weight_read entry.read }
        ensures mailbox { OnOk result (self.new.mailbox ≡ with_entry self.old.mailbox (entry_in entry)) }
        ensures ready { OnOk result (self.new.ready ≡ Unready) }
    {
        let Entry {
            uid,
            arrival,
            seen,
            read,
        } = entry;
        match read {
            Ok(card) => {
                self.reserve_card(&card.id)?;
                let held = Held::Card;
                self.put_card(
                    Item {
                        uid,
                        arrival,
                        seen,
                        held,
                    },
                    card,
                    weight,
                );
            }
            Err(fault) => {
                self.reserve_fault()?;
                let held = Held::Fault(fault);
                self.put_fault(
                    Item {
                        uid,
                        arrival,
                        seen,
                        held,
                    },
                    fault,
                );
            }
        }
        Ok(())
    }

    /// An item follows the others, with its card where it holds one.
    fn put_item(&mut self, item: Item, card: Option<Card>) -> Result<(), Memory>
        requires beside { is_beside item.held card ≡ true }
        requires rules { IsMailbox (with_item self.old.mailbox item card) }
        ensures mailbox { OnOk result (self.new.mailbox ≡ with_item self.old.mailbox item card) }
        ensures ready { OnOk result (self.new.ready ≡ Unready) }
    {
        let entry = entry_of(item, card);
        let weight = weight_read(&entry.read);
        self.put_back(entry, weight)
    }
}
