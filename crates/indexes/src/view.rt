//! A mailbox as it is, or as it will be after a change that is not made yet.
ghost use Rattle.std.specs.Prelude.{◌≡◌, ◌≤◌, ◌+◌, option_map};
ghost use Rattle.std.specs.Option.{option_copied};
ghost use Rattle.mailbox_model.specs.Mailbox.{after, card_at, entry_at, mark_entry, IsMailbox};
ghost use Rattle.mailbox_model.specs.Present.{spot_of};
ghost use Rattle.touched_chats.specs.Ahead.{entry_ahead, now_ahead, spot_ahead};
ghost use Rattle.indexes.specs.Views.{IsComing, card_of, seen_at, seen_of};

use box_state::Mailbox;
use card_type::{Card, Spot};
use kit::{Addr, Id, Steps};
use mailbox_model::{Change, Turn};
use std::marker::Model;
use std::sync::ledger::Ledger;

/// A change that is to come, with the turn that it makes.
#[derive(Drop)]
struct Coming<'a> {
    change: &'a Change,
    turn: &'a Turn,
}

/// A mailbox as it is, or as it will be after a change that is not made yet. A contract sees the mailbox of the rules. So
/// what is read of a mailbox is read of the one to come alike, and a repair may precede the change.
#[derive(Drop)]
pub struct View<'a> {
    mailbox: &'a Mailbox,
    coming: Option<Coming<'a>>,
}

impl<'a> Model for View<'a> {
    ghost use Rattle.mailbox_model.specs.Mailbox.{Mailbox};
    ghost use Rattle.indexes.specs.Views.{seen_with, AllowsComing};

    ghost Value = { Mailbox };

    ghost view = { λ v. seen_with v.mailbox.now.mailbox v.coming };

    ghost invariant = { λ v. AllowsComing v.mailbox.now.mailbox v.coming };
}

impl<'a> View<'a> {
    /// A mailbox as it is. Takes no memory.
    pub fn as_is(mailbox: &'a Mailbox) -> Self
        ensures { result ≡ mailbox.now.mailbox }
    {
        View {
            mailbox,
            coming: None,
        }
    }

    /// A mailbox as it will be after a change that it allows, where `plan` told the turn of the change. Takes no memory.
    pub fn after(mailbox: &'a Mailbox, change: &'a Change, turn: &'a Turn) -> Self
        requires { IsComing mailbox.now.mailbox change.now turn.now }
        ensures { result ≡ after mailbox.now.mailbox change.now }
    {
        View {
            mailbox,
            coming: Some(Coming { change, turn }),
        }
    }

    /// The own address. Takes no memory.
    ///
    /// By the clause `rules` the mailbox that is seen keeps the rules of one.
    pub fn me(&self) -> &Addr
        ensures value { result.now ≡ self.now.me }
        ensures rules { IsMailbox self.now }
    {
        self.mailbox.me()
    }

    /// The mailbox that is seen keeps the rules of one.
    pub fn keeps_rules(&self)
        ensures { IsMailbox self.now }
    {
        self.me();
    }

    /// The moment, in seconds since 1970-01-01 00:00:00 UTC. Takes no memory.
    pub fn now(&self) -> u64
        ensures { result ≡ self.now.now }
    {
        match &self.coming {
            Some(coming) => now_after(self.mailbox, coming.turn),
            None => self.mailbox.now(),
        }
    }

    /// The card of the mail with a uid: `None` exactly where there is no such mail, or it has no card. Takes no memory, and
    /// is at most one step: the card of an arrival that is to come is not kept yet.
    pub fn card<L: Ledger>(&self, uid: u32, steps: &mut Steps<L>) -> Option<&Card>
        ensures card { option_copied result ≡ card_at self.now uid }
        ensures cost { steps.new ≤ steps.old + 1 }
    {
        match &self.coming {
            Some(coming) => card_after(self.mailbox, coming.change, uid, steps),
            None => self.mailbox.card(uid, steps),
        }
    }

    /// The spot of the present mail with an id: `None` exactly where no card has it. Takes no memory.
    pub fn spot_of(&self, id: &Id) -> Option<&Spot>
        ensures { option_copied result ≡ spot_of self.now id.now }
    {
        match &self.coming {
            Some(coming) => spot_after(self.mailbox, coming.turn, id),
            None => self.mailbox.spot_of(id),
        }
    }

    /// When the mail with a uid was seen: `None` where there is none, or it was not. Takes no memory.
    pub fn seen(&self, uid: u32) -> Option<u64>
        ensures { result ≡ seen_at self.now uid }
    {
        match &self.coming {
            Some(coming) => seen_after(self.mailbox, coming.change, uid),
            None => seen_now(self.mailbox, uid),
        }
    }
}

/// The moment after a turn.
fn now_after(mailbox: &Mailbox, turn: &Turn) -> u64
    ensures { result ≡ now_ahead mailbox.now.mailbox.now turn.now }
{
    match turn {
        Turn::Moved(moment) => *moment,
        Turn::Nothing | Turn::Add(_) | Turn::Remove(_) | Turn::Replace(_, _) | Turn::Marked(_) => {
            mailbox.now()
        }
    }
}

/// The card of a uid after a change.
fn card_after<'a, L: Ledger>(
    mailbox: &'a Mailbox,
    change: &'a Change,
    uid: u32,
    steps: &mut Steps<L>,
) -> Option<&'a Card>
    ensures card { option_copied result ≡ card_of (entry_ahead mailbox.now.mailbox change.now uid) }
    ensures cost { steps.new ≤ steps.old + 1 }
{
    let is_next = mailbox.next_uid() == uid;
    match change {
        Change::Arrive(card) if is_next => Some(card),
        Change::ArriveFault(_) if is_next => None,
        Change::Expunge(gone) if *gone == uid => None,
        Change::Arrive(_)
        | Change::ArriveFault(_)
        | Change::Expunge(_)
        | Change::Seen(_)
        | Change::At(_) => mailbox.card(uid, steps),
    }
}

/// The spot of an id after a turn.
fn spot_after<'a>(mailbox: &'a Mailbox, turn: &'a Turn, id: &Id) -> Option<&'a Spot>
    ensures { option_copied result ≡ spot_ahead mailbox.now.mailbox turn.now id.now }
{
    match turn {
        Turn::Add(at) if *id == at.id => Some(at),
        Turn::Remove(at) if *id == at.id => None,
        Turn::Replace(_, to) if *id == to.id => Some(to),
        Turn::Nothing
        | Turn::Add(_)
        | Turn::Remove(_)
        | Turn::Replace(_, _)
        | Turn::Marked(_)
        | Turn::Moved(_) => mailbox.spot_of(id),
    }
}

/// When the mail with a uid was seen.
fn seen_now(mailbox: &Mailbox, uid: u32) -> Option<u64>
    ensures { result ≡ seen_at mailbox.now.mailbox uid }
{
    mailbox.item(uid)?.seen
}

/// When the mail with a uid was seen, where one is marked as seen at the moment of the mailbox.
fn seen_with_mark(mailbox: &Mailbox, marked: u32, uid: u32) -> Option<u64>
    ensures { result ≡ seen_of (option_map (mark_entry marked mailbox.now.mailbox.now) (entry_at mailbox.now.mailbox uid)) }
{
    let item = mailbox.item(uid)?;
    if marked == uid {
        Some(item.seen.unwrap_or(mailbox.now()))
    } else {
        item.seen
    }
}

/// When the mail with a uid was seen, after a change.
fn seen_after(mailbox: &Mailbox, change: &Change, uid: u32) -> Option<u64>
    ensures { result ≡ seen_of (entry_ahead mailbox.now.mailbox change.now uid) }
{
    let is_next = mailbox.next_uid() == uid;
    match change {
        Change::Arrive(_) if is_next => None,
        Change::ArriveFault(_) if is_next => None,
        Change::Expunge(gone) if *gone == uid => None,
        Change::Seen(marked) => seen_with_mark(mailbox, *marked, uid),
        Change::Arrive(_) | Change::ArriveFault(_) | Change::Expunge(_) | Change::At(_) => {
            seen_now(mailbox, uid)
        }
    }
}
