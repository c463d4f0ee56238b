//! What changes do.
ghost use Rattle.std.specs.Prelude.{◌≡◌, ◌≤◌, ◌<◌, ◌+◌, ◌^◌, false, Ok, Err, None};
ghost use Rattle.kit.specs.Moments.{last_moment};
ghost use Rattle.card_type.specs.Records as records;
ghost use Rattle.mailbox_model.specs.Mailbox.{after, full, end_of_uids, IsMailbox, IsValidChange};
ghost use Rattle.mailbox_model.specs.declared.change.Change.TheVariants.{Arrive, ArriveFault, Expunge, Seen, At};
ghost use Rattle.mailbox_model.specs.declared.item.Held.TheVariants as is_held;
ghost use Rattle.box_state.specs.Kept.{with_entry, IsReady};
ghost use Rattle.box_state.specs.Entries.{entry_with};
ghost use Rattle.box_state.specs.declared.ready.Ready.TheVariants.{Unready, ForFault, ForCard};

use crate::mailbox::{Mailbox, spot_in};
use crate::ready::Ready;
use card_type::{Card, weight};
use mailbox_model::{Change, Fault, Held, Item};
use std::mem;

/// The weight of a card that is let go.
fn weight_taken(card: Card) -> u64
    ensures exact { records.weight card < 2 ^ 64 → result ≡ records.weight card }
{
    weight(&card)
}

impl Mailbox {
    /// Makes a change, for which the mailbox is ready where it is an arrival, and which is not full. After it the mailbox is
    /// ready for no arrival. Takes no memory.
    pub fn make(&mut self, change: Change)
        requires valid { IsValidChange change }
        requires room { full self.old.mailbox change ≡ false }
        requires ready { IsReady self.old.ready change }
        ensures mailbox { self.new.mailbox ≡ after self.old.mailbox change }
        ensures ready { self.new.ready ≡ Unready }
    {
        match change {
            Change::Arrive(card) => self.arrive(card),
            Change::ArriveFault(fault) => self.arrive_fault(fault),
            Change::Expunge(uid) => self.expunge(uid),
            Change::Seen(uid) => self.mark_seen(uid),
            Change::At(moment) => self.pass(moment),
        }
    }

    fn arrive(&mut self, card: Card)
        requires valid { IsValidChange (Arrive card) }
        requires room { full self.old.mailbox (Arrive card) ≡ false }
        requires ready { self.old.ready ≡ ForCard card.id }
        ensures mailbox { self.new.mailbox ≡ after self.old.mailbox (Arrive card) }
        ensures ready { self.new.ready ≡ Unready }
    {
        let item = self.next_item(Held::Card);
        let weight = weight(&card);
        self.put_card(item, card, weight);
    }

    fn arrive_fault(&mut self, fault: Fault)
        requires room { full self.old.mailbox (ArriveFault fault) ≡ false }
        requires ready { self.old.ready ≡ ForFault }
        ensures mailbox { self.new.mailbox ≡ after self.old.mailbox (ArriveFault fault) }
        ensures ready { self.new.ready ≡ Unready }
    {
        let item = self.next_item(Held::Fault(fault));
        self.put_fault(item, fault);
    }

    /// The item of what arrives now.
    fn next_item(&mut self, held: Held) -> Item
        requires { self.old.mailbox.next_uid < end_of_uids }
        ensures item { result ≡ record { uid = self.old.mailbox.next_uid; arrival = self.old.mailbox.now; seen = None; held = held } }
        ensures mailbox { self.new.mailbox ≡ record self.old.mailbox { next_uid = self.old.mailbox.next_uid + 1 } }
        ensures ready { self.new.ready ≡ self.old.ready }
        ensures rules { IsMailbox self.old.mailbox }
    {
        let uid = self.next_uid;
        self.next_uid = uid + 1;
        Item {
            uid,
            arrival: self.moment,
            seen: None,
            held,
        }
    }

    /// An item follows the others, and this is its card, which weighs so much.
    pub(super) fn put_card(&mut self, item: Item, card: Card, weight: u64)
        requires weight { weight ≡ records.weight card }
        requires held { item.held ≡ is_held.Card }
        requires rules { IsMailbox (with_entry self.old.mailbox (entry_with item (Ok card))) }
        requires ready { self.old.ready ≡ ForCard card.id }
        ensures mailbox { self.new.mailbox ≡ with_entry self.old.mailbox (entry_with item (Ok card)) }
        ensures ready { self.new.ready ≡ Unready }
    {
        if let Ready::ForCard(id) = mem::replace(&mut self.ready, Ready::Unready) {
            self.weight = self.weight + weight;
            self.spots
                .insert(spot_in(&card, id, item.arrival, item.uid));
            self.cards.insert(item.uid, card);
            let pushed: Result<_, _> = self.items.push(item);
            pushed.unwrap();
        }
    }

    /// An item without a card follows the others.
    pub(super) fn put_fault(&mut self, item: Item, fault: Fault)
        requires held { item.held ≡ is_held.Fault fault }
        requires rules { IsMailbox (with_entry self.old.mailbox (entry_with item (Err fault))) }
        requires ready { self.old.ready ≡ ForFault }
        ensures mailbox { self.new.mailbox ≡ with_entry self.old.mailbox (entry_with item (Err fault)) }
        ensures ready { self.new.ready ≡ Unready }
    {
        self.ready = Ready::Unready;
        let pushed: Result<_, _> = self.items.push(item);
        pushed.unwrap();
    }

    fn expunge(&mut self, uid: u32)
        ensures mailbox { self.new.mailbox ≡ after self.old.mailbox (Expunge uid) }
        ensures ready { self.new.ready ≡ Unready }
    {
        self.ready = Ready::Unready;
        if let Some(index) = self.index_of(uid) {
            let _item = self.items.remove(index);
            self.spots.remove(uid);
            if let Some(card) = self.cards.take(uid) {
                self.weight = self.weight - weight_taken(card);
            }
        }
    }

    fn mark_seen(&mut self, uid: u32)
        ensures mailbox { self.new.mailbox ≡ after self.old.mailbox (Seen uid) }
        ensures ready { self.new.ready ≡ Unready }
    {
        self.ready = Ready::Unready;
        if let Some(index) = self.index_of(uid) {
            let seen = self.items[index].seen.or(Some(self.moment));
            self.items[index].seen = seen;
        }
    }

    fn pass(&mut self, moment: u64)
        requires { moment ≤ last_moment }
        ensures mailbox { self.new.mailbox ≡ after self.old.mailbox (At moment) }
        ensures ready { self.new.ready ≡ Unready }
    {
        self.ready = Ready::Unready;
        self.moment = self.moment.max(moment);
    }
}
