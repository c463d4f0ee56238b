//! The mailbox.
ghost use Rattle.std.specs.Prelude.{◌≡◌, ◌+◌, Some, None, Ok, map, find, option_map, IfSome, IfNone};
ghost use Rattle.std.specs.Option.{option_copied};
ghost use Rattle.mailbox_model.specs.Mailbox.{empty_mailbox, item_of, item_at, card_at, weights, IsMailbox};
ghost use Rattle.mailbox_model.specs.Present.{spot_of, spot, placed_by, effective_date, present};
ghost use Rattle.mailbox_model.specs.Turns.{is_mail};
ghost use Rattle.box_state.specs.Entries.{entry_with, IsEntryAt};
ghost use Rattle.box_state.specs.declared.ready.Ready.TheVariants.{Unready};

mod make;
mod plan;
mod reserve;
mod restore;

use crate::ready::Ready;
use crate::spots::Spots;
use crate::store::CardStore;
use card_type::{Card, Spot};
use kit::{Addr, Id, Steps};
use mailbox_model::Item;
pub use plan::PlanFault;
use std::alloc::Global;
use std::marker::Model;
use std::sync::ledger::Ledger;

/// The mails of one address. A contract sees the mailbox of the rules, and beside it the arrival for which it has room.
#[derive(Drop)]
pub struct Mailbox {
    me: Addr,
    moment: u64,
    next_uid: u32,
    /// By rising uids.
    items: Vec<Item>,
    cards: CardStore,
    /// That of all cards together.
    weight: u64,
    spots: Spots,
    ready: Ready,
}

impl Model for Mailbox {
    ghost use Rattle.box_state.specs.Kept.{Kept};

    ghost Value = { Kept };

    ghost use Rattle.box_state.specs.Inside.{kept_in, IsKept};

    ghost view = { kept_in };

    ghost invariant = { IsKept };
}

impl Mailbox {
    /// The empty mailbox of an address. Takes no memory.
    pub fn new(alloc: Global, me: Addr) -> Self
        ensures mailbox { result.mailbox ≡ empty_mailbox me }
        ensures ready { result.ready ≡ Unready }
    {
        Mailbox {
            me,
            moment: 0,
            next_uid: 1,
            items: Vec::new(alloc),
            cards: CardStore::new(alloc),
            weight: 0,
            spots: Spots::new(alloc),
            ready: Ready::Unready,
        }
    }

    /// The own address. Takes no memory.
    ///
    /// By the clause `rules` every mailbox keeps the rules of one.
    pub fn me(&self) -> &Addr
        ensures value { result.now ≡ self.now.mailbox.me }
        ensures rules { IsMailbox self.now.mailbox }
    {
        &self.me
    }

    /// Every mailbox keeps the rules of one.
    pub fn keeps_rules(&self)
        ensures { IsMailbox self.now.mailbox }
    {
        self.me();
    }

    /// The moment, in seconds since 1970-01-01 00:00:00 UTC. Takes no memory.
    pub fn now(&self) -> u64
        ensures { result ≡ self.now.mailbox.now }
    {
        self.moment
    }

    /// The uid of the next arrival. Takes no memory.
    pub fn next_uid(&self) -> u32
        ensures { result ≡ self.now.mailbox.next_uid }
    {
        self.next_uid
    }

    /// The items, by rising uids. Takes no memory.
    pub fn items(&self) -> &[Item]
        ensures { result.now ≡ map item_of self.now.mailbox.entries }
    {
        self.items.as_slice()
    }

    /// What all cards weigh together, in bytes. Takes no memory.
    pub fn weight(&self) -> u64
        ensures { result ≡ weights self.now.mailbox.entries }
    {
        self.weight
    }

    /// The item with a uid: `None` exactly where there is none. Takes no memory, and time that grows with the logarithm of
    /// the number of items.
    pub fn item(&self, uid: u32) -> Option<&Item>
        ensures { option_copied result ≡ item_at self.now.mailbox uid }
    {
        let index = self.index_of(uid)?;
        Some(&self.items[index])
    }

    /// The index of the item with a uid.
    fn index_of(&self, uid: u32) -> Option<usize>
        ensures found { IfSome result (IsEntryAt self.now.mailbox uid) }
        ensures none { IfNone result (item_at self.now.mailbox uid ≡ None) }
    {
        self.items.binary_search_by_key(&uid, |item| item.uid).ok()
    }

    /// The card of the mail with a uid: `None` exactly where there is no such mail, or it has no card. Takes no memory, and
    /// is one step.
    pub fn card<L: Ledger>(&self, uid: u32, steps: &mut Steps<L>) -> Option<&Card>
        ensures card { option_copied result ≡ card_at self.now.mailbox uid }
        ensures cost { steps.new ≡ steps.old + 1 }
    {
        self.cards.read(uid, steps)
    }

    /// The spot of the present mail with an id: `None` exactly where no card has it. Takes no memory, and time that grows
    /// with the logarithm of the number of ids.
    pub fn spot_of(&self, id: &Id) -> Option<&Spot>
        ensures { option_copied result ≡ spot_of self.now.mailbox id.now }
    {
        self.spots.first(id)
    }

    /// The spot of the mail with a uid, where that is present: `None` exactly where it is not, or there is none. Takes no
    /// memory and reads no card, and time that grows with the logarithm of the number of ids.
    pub fn present_spot(&self, uid: u32) -> Option<&Spot>
        ensures spot { option_copied result ≡ option_map (λ t. spot t.placed) (find (is_mail uid) (present self.now.mailbox)) }
        ensures rules { IsMailbox self.now.mailbox }
    {
        let own = self.spots.get(uid)?;
        let present = self.spot_of(&own.id)?;
        if present.uid == uid {
            Some(present)
        } else {
            None
        }
    }
}

/// The spot of a card with a copy of its id, in an item that arrived at this moment.
fn spot_in(card: &Card, id: Id, arrival: u64, uid: u32) -> Spot
    requires { id ≡ card.now.id }
    ensures { result ≡ record { date = effective_date card.now.date arrival; id = id; uid = uid } }
{
    let date = match card.date {
        Some(date) => date.min(arrival),
        None => arrival,
    };
    Spot { date, id, uid }
}
