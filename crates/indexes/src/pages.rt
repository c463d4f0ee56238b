//! The answers to the questions, from a mailbox and what is kept beside it.
ghost use Rattle.std.specs.Prelude.{◌≡◌, ◌≤◌, ◌+◌, ◌++◌, true, Some, None, is_some, map, unwrap_or, filter_map, IfOk, IfSome, OnOk};
ghost use Rattle.std.specs.FinMap as map_of;
ghost use Rattle.std.specs.List.{AllByRecursion, sum_by};
ghost use Rattle.std.specs.Option.{option_and_then, option_copied, option_map_or};
ghost use Rattle.card_type.specs.declared.key.ChatKey.TheVariants.{Single};
ghost use Rattle.contacts.specs.Kept.{last_name, names_at};
ghost use Rattle.effects.specs.Named.{StandsFor as AreEffects};
ghost use Rattle.mailbox_model.specs.declared.change.Fault.{Fault};
ghost use Rattle.mailbox_model.specs.declared.item.Held.TheVariants as is_held;
ghost use Rattle.mailbox_model.specs.ChatList.{list_page, list_row};
ghost use Rattle.mailbox_model.specs.Contacts.{contacts};
ghost use Rattle.mailbox_model.specs.Lists.{Bytes};
ghost use Rattle.mailbox_model.specs.Names.{name_by};
ghost use Rattle.mailbox_model.specs.Pages.{app_updates, page, page_by, updates};
ghost use Rattle.mailbox_model.specs.Present.{mail_at, present_cards};
ghost use Rattle.mailbox_model.specs.Rows.{row};
ghost use Rattle.indexes.specs.Costs.{chat_cost, list_cost, page_cost, row_cost, times_named};
ghost use Rattle.indexes.specs.Kept.{AreAllChats, AreKept, spot_at};

use crate::indexes::Indexes;
use crate::rows::row_at;
use box_state::{Held, Item, Mailbox};
use card_type::{ChatKey, KeyMap, Spot};
use chat_view::{ChatState, chat_row, page_name};
use contacts::Contacts;
use effects::Effects;
use kit::{Id, Memory, Steps, Text};
use lists::{ChunkedList, Items};
use mailbox_model::{ChatPage, ContactRow, FaultRow, ListPage, ListRow, Roster, Row, UpdateRow};
use std::alloc::Global;
use std::sync::ledger::Ledger;

/// The name of the contact with whom a chat is.
fn contact_of<'a>(contacts: &'a Contacts, key: &ChatKey) -> Option<&'a Text>
    ensures { (addr : Bytes) → key.now ≡ Single addr → option_copied result ≡ last_name (names_at contacts.now.names addr) }
{
    match key {
        ChatKey::Single(addr) => contacts.name_of(addr),
        ChatKey::SelfChat | ChatKey::Group(_) | ChatKey::Thread(_) => None,
    }
}

impl Indexes {
    /// The keys of all chats, in their order. Takes memory; `Err` only when it runs out.
    pub fn keys(&self, alloc: Global, mailbox: &Mailbox) -> Result<Vec<ChatKey>, Memory>
        requires kept { AreKept mailbox.now.mailbox self.now }
        ensures { IfOk result (λ found. AreAllChats mailbox.now.mailbox found.items) }
    {
        keys_of(alloc, &self.chats)
    }

    /// The list of chats.
    pub fn list<L: Ledger>(
        &self,
        alloc: Global,
        mailbox: &Mailbox,
        steps: &mut Steps<L>,
    ) -> Result<ListPage, Memory>
        requires kept { AreKept mailbox.now.mailbox self.now }
        ensures page { IfOk result (λ found. found ≡ list_page mailbox.now.mailbox) }
        ensures cost { steps.new ≤ steps.old + list_cost mailbox.now.mailbox }
    {
        Ok(ListPage {
            rows: self.list_rows(alloc, mailbox, steps)?,
            faults: fault_rows(alloc, mailbox)?,
        })
    }

    /// The rows of the list.
    fn list_rows<L: Ledger>(
        &self,
        alloc: Global,
        mailbox: &Mailbox,
        steps: &mut Steps<L>,
    ) -> Result<Items<ListRow>, Memory>
        requires kept { AreKept mailbox.now.mailbox self.now }
        ensures rows { IfOk result (λ rows. rows ≡ (list_page mailbox.now.mailbox).rows) }
        ensures cost { steps.new ≤ steps.old + list_cost mailbox.now.mailbox }
    {
        let mut rows = Items::new(alloc);
        for key in self.order.order() {
            rows.push(self.list_row(alloc, mailbox, key, steps)?)?;
        }
        Ok(rows)
    }

    /// The row of a chat in the list.
    fn list_row<L: Ledger>(
        &self,
        alloc: Global,
        mailbox: &Mailbox,
        key: &ChatKey,
        steps: &mut Steps<L>,
    ) -> Result<ListRow, Memory>
        requires kept { AreKept mailbox.now.mailbox self.now }
        requires there { is_some (map_of.get self.now.chats key.now) ≡ true }
        ensures row { IfOk result (λ row. row ≡ list_row mailbox.now.mailbox key.now) }
        ensures cost { steps.new ≤ steps.old + chat_cost mailbox.now.mailbox key.now }
    {
        mailbox.keeps_rules();
        let state = self.chats.get(key).unwrap();
        let last = last_row(alloc, mailbox, &self.effects, &state.last, steps)?;
        chat_row(alloc, state, last.as_ref(), contact_of(&self.contacts, key))
    }

    /// The page of a chat: `None` exactly where no card is in it.
    pub fn chat<L: Ledger>(
        &self,
        alloc: Global,
        mailbox: &Mailbox,
        key: &ChatKey,
        steps: &mut Steps<L>,
    ) -> Result<Option<ChatPage>, Memory>
        requires kept { AreKept mailbox.now.mailbox self.now }
        ensures page { IfOk result (λ found. found ≡ page mailbox.now.mailbox key.now) }
        ensures cost { steps.new ≤ steps.old + page_cost mailbox.now.mailbox key.now }
    {
        mailbox.keeps_rules();
        match self.chats.get(key) {
            None => Ok(None),
            Some(state) => {
                let rows = rows_at(alloc, mailbox, &self.effects, &state.spots, steps)?;
                let contact = contact_of(&self.contacts, key);
                Ok(Some(chat_page(alloc, key, &state.roster, contact, rows)?))
            }
        }
    }

    /// The contacts.
    pub fn contacts(&self, alloc: Global, mailbox: &Mailbox) -> Result<Vec<ContactRow>, Memory>
        requires kept { AreKept mailbox.now.mailbox self.now }
        ensures { IfOk result (λ rows. rows.items ≡ contacts mailbox.now.mailbox) }
    {
        self.contacts.page(alloc, mailbox.me())
    }

    /// The updates of the app with an id: `None` exactly where no row of an app with it is shown.
    pub fn updates<L: Ledger>(
        &self,
        alloc: Global,
        mailbox: &Mailbox,
        id: &Id,
        steps: &mut Steps<L>,
    ) -> Result<Option<Items<UpdateRow>>, Memory>
        requires kept { AreKept mailbox.now.mailbox self.now }
        ensures updates { IfOk result (λ found. found ≡ updates mailbox.now.mailbox id.now) }
        ensures cost { steps.new ≤ steps.old + row_cost mailbox.now.mailbox id.now }
    {
        if self.links.chat_of(id).is_none() {
            return Ok(None);
        }
        mailbox.keeps_rules();
        let spot = mailbox.spot_of(id).unwrap();
        Ok(updates_of(row_at(alloc, mailbox, &self.effects, spot, steps)?))
    }
}

/// The keys of states, in their order.
fn keys_of(alloc: Global, chats: &KeyMap<ChatState>) -> Result<Vec<ChatKey>, Memory>
    ensures { IfOk result (λ found. found.items ≡ map (λ entry. entry.0) (map_of.entries chats.now)) }
{
    let mut keys = Vec::new(alloc);
    for (key, _) in chats.iter() {
        keys.push(key.copy()?)?;
    }
    Ok(keys)
}

/// The updates of a row, where it is that of an app.
fn updates_of(row: Option<Row>) -> Option<Items<UpdateRow>>
    ensures { result ≡ option_and_then app_updates row }
{
    let row = row?;
    if row.app { Some(row.updates) } else { None }
}

/// The page of a chat with this roster and these rows.
fn chat_page(
    alloc: Global,
    key: &ChatKey,
    roster: &Roster,
    contact: Option<&Text>,
    rows: Items<Row>,
) -> Result<ChatPage, Memory>
    ensures { IfOk result (λ page. page ≡ page_by key.now (name_by key.now roster.now (unwrap_or (option_copied contact.entry))) roster.now rows) }
{
    Ok(ChatPage {
        key: key.copy()?,
        name: page_name(alloc, key, roster, contact)?,
        members: roster.members.copy()?,
        timer: roster.timer,
        rows,
    })
}

/// The row of the card at the spot of the last one that is shown.
fn last_row<L: Ledger>(
    alloc: Global,
    mailbox: &Mailbox,
    effects: &Effects,
    last: &Option<Spot>,
    steps: &mut Steps<L>,
) -> Result<Option<Row>, Memory>
    requires there { IfSome last.now (λ spot. spot_at mailbox.now.mailbox spot.uid ≡ Some spot) }
    requires effects { AreEffects effects.now (present_cards mailbox.now.mailbox) }
    ensures row { IfOk result (λ shown. shown ≡ option_and_then (λ spot. option_and_then (row mailbox.now.mailbox) (mail_at mailbox.now.mailbox spot.uid)) last.now) }
    ensures cost { steps.new ≤ steps.old + option_map_or (λ spot. 1 + times_named mailbox.now.mailbox spot.id) last.now 0 }
{
    match last {
        Some(spot) => row_at(alloc, mailbox, effects, spot, steps),
        None => Ok(None),
    }
}

/// Adds the rows of the cards at these spots that are shown.
fn add_rows<L: Ledger>(
    alloc: Global,
    mailbox: &Mailbox,
    effects: &Effects,
    spots: &[Spot],
    rows: &mut Items<Row>,
    steps: &mut Steps<L>,
) -> Result<(), Memory>
    requires there { AllByRecursion (λ spot. spot_at mailbox.now.mailbox spot.uid ≡ Some spot) spots.now }
    requires effects { AreEffects effects.now (present_cards mailbox.now.mailbox) }
    ensures rows { OnOk result (rows.new ≡ rows.old ++ filter_map (λ spot. option_and_then (row mailbox.now.mailbox) (mail_at mailbox.now.mailbox spot.uid)) spots.now) }
    ensures cost { steps.new ≤ steps.old + sum_by (λ spot. 1 + times_named mailbox.now.mailbox spot.id) spots.now }
{
    for spot in spots {
        if let Some(row) = row_at(alloc, mailbox, effects, spot, steps)? {
            rows.push(row)?;
        }
    }
    Ok(())
}

/// The rows of the cards at these spots that are shown.
fn rows_at<L: Ledger>(
    alloc: Global,
    mailbox: &Mailbox,
    effects: &Effects,
    spots: &ChunkedList<Spot>,
    steps: &mut Steps<L>,
) -> Result<Items<Row>, Memory>
    requires there { AllByRecursion (λ spot. spot_at mailbox.now.mailbox spot.uid ≡ Some spot) spots.now }
    requires effects { AreEffects effects.now (present_cards mailbox.now.mailbox) }
    ensures rows { IfOk result (λ rows. rows ≡ filter_map (λ spot. option_and_then (row mailbox.now.mailbox) (mail_at mailbox.now.mailbox spot.uid)) spots.now) }
    ensures cost { steps.new ≤ steps.old + sum_by (λ spot. 1 + times_named mailbox.now.mailbox spot.id) spots.now }
{
    let chunks = spots.chunks();
    let mut rows = Items::new(alloc);
    for chunk in chunks {
        add_rows(alloc, mailbox, effects, chunk.as_slice(), &mut rows, steps)?;
    }
    Ok(rows)
}

/// The row of an item whose mail has no card.
fn fault_row(item: &Item) -> Option<FaultRow>
    ensures card { item.now.held ≡ is_held.Card → result ≡ None }
    ensures fault { (fault : Fault) → item.now.held ≡ is_held.Fault fault → result ≡ Some (record { uid = item.now.uid; fault = fault }) }
{
    match item.held {
        Held::Card => None,
        Held::Fault(fault) => Some(FaultRow {
            uid: item.uid,
            fault,
        }),
    }
}

/// The mails without a card, by uid.
fn fault_rows(alloc: Global, mailbox: &Mailbox) -> Result<Items<FaultRow>, Memory>
    ensures { IfOk result (λ faults. faults ≡ (list_page mailbox.now.mailbox).faults) }
{
    let mut faults = Items::new(alloc);
    for item in mailbox.items() {
        if let Some(fault) = fault_row(item) {
            faults.push(fault)?;
        }
    }
    Ok(faults)
}
