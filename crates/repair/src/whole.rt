//! The whole repair of what is kept beside a mailbox.
ghost use Rattle.std.specs.Prelude.{◌≡◌, ◌≤◌, ◌+◌, ◌||◌, ℕ, [], None, if◌then◌else◌, sum_by, IfOk, OnOk};
ghost use Rattle.std.specs.List.{list_any, IsDistinct};
ghost use Rattle.std.specs.Option.{option_copied};
ghost use Rattle.std.specs.Str.{bytes_eq};
ghost use Rattle.card_type.specs.declared.key.ChatKey.{ChatKey};
ghost use Rattle.card_type.specs.Effects.{is_among};
ghost use Rattle.mailbox_model.specs.declared.turn.Turn.{Turn};
ghost use Rattle.mailbox_model.specs.Chats.{chat, is_chat};
ghost use Rattle.mailbox_model.specs.Lists.{Bytes};
ghost use Rattle.mailbox_model.specs.Mailbox.{after};
ghost use Rattle.mailbox_model.specs.Present.{present};
ghost use Rattle.chat_states.specs.States.{has_key};
ghost use Rattle.touched_chats.specs.Costs.{change_cost, settle_reads};
ghost use Rattle.touched_chats.specs.Suspects.{is_suspect_card, uid_falls_due};
ghost use Rattle.indexes.specs.Kept.{AreDeadlines, AreKept, AreOf, deadline_at};
ghost use Rattle.indexes.specs.Views.{IsComing};
ghost use Rattle.repair.specs.Cards.{IsBetween, nothing_noted};
ghost use Rattle.repair.specs.Due.{ReadsDue};
ghost use Rattle.repair.specs.Moves.{chat_before};
ghost use Rattle.repair.specs.Repaired.{AreTouched};
ghost use Rattle.repair.specs.Turned.{AreTurned, NameOneMail};

use crate::due::drain;
use crate::moves::Moves;
use crate::names::{names_of, note_renamed};
use crate::order::renew_places;
use crate::refold::refold_all;
use crate::reindex::reindex;
use crate::settle::settle;
use crate::touched::Touched;
use crate::turned::{TurnedCards, next_of, note_told, turned_cards};
use box_state::Mailbox;
use card_type::ChatKey;
use indexes::{Indexes, View};
use kit::{Id, Memory, Steps};
use mailbox_model::{Change, Turn};
use std::alloc::Global;
use std::collections::BTreeSet;
use std::sync::ledger::Ledger;

/// A copy of a key that may be missing.
fn copy_of(key: Option<&ChatKey>) -> Result<Option<ChatKey>, Memory>
    ensures { IfOk result (λ copy. copy ≡ option_copied key.entry) }
{
    match key {
        Some(key) => Ok(Some(key.copy()?)),
        None => Ok(None),
    }
}

/// The ids of the cards of which something is kept that may not be what it is after the change: of those in another chat,
/// those that a mail of the turn has or names, and those whose deadline is reached. These deadlines are taken out.
fn ids_to_settle<L: Ledger>(
    alloc: Global,
    mailbox: &Mailbox,
    view: &View<'_>,
    indexes: &mut Indexes,
    moves: &Moves,
    cards: &TurnedCards<'_>,
    steps: &mut Steps<L>,
) -> Result<BTreeSet<Id>, Memory>
    requires cards { AreOf view.now.me (present view.now) indexes.old }
    requires moves { (id : Bytes) → chat_before moves.now indexes.old.links.cites id ≡ chat mailbox.now.mailbox id }
    requires deadlines { AreDeadlines mailbox.now.mailbox (present mailbox.now.mailbox) indexes.old.timers }
    ensures ids { IfOk result (λ ids. (turn : Turn) → AreTurned mailbox.now.mailbox view.now turn cards.now
        → (id : Bytes) → is_among ids.keys id ≡ is_suspect_card mailbox.now.mailbox view.now turn id) }
    ensures once { IfOk result (λ ids. IsDistinct bytes_eq ids.keys) }
    ensures timers { OnOk result ((uid : ℕ) → deadline_at indexes.new.timers uid
        ≡ (if uid_falls_due mailbox.now.mailbox view.now.now uid then None else deadline_at indexes.old.timers uid)) }
    ensures rest { OnOk result (indexes.new ≡ record indexes.old { timers = indexes.new.timers }) }
    ensures cost { ReadsDue mailbox.now.mailbox view.now.now steps.old steps.new }
{
    let mut ids = BTreeSet::new(alloc);
    moves.changed(&indexes.links, &mut ids)?;
    note_told(cards, &mut ids)?;
    drain(mailbox, view.now(), &mut indexes.timers, &mut ids, steps)?;
    // For its clause `ordered`: no id is there twice.
    let _len = ids.len();
    Ok(ids)
}

/// Settles the cards with these ids, and answers which chats are touched by them.
fn settle_all<L: Ledger>(
    alloc: Global,
    mailbox: &Mailbox,
    view: &View<'_>,
    indexes: &mut Indexes,
    moves: &Moves,
    mut ids: BTreeSet<Id>,
    steps: &mut Steps<L>,
) -> Result<Touched, Memory>
    requires cards { AreOf view.now.me (present view.now) indexes.old }
    requires moves { (id : Bytes) → chat_before moves.now indexes.old.links.cites id ≡ chat mailbox.now.mailbox id }
    requires me { mailbox.now.mailbox.me ≡ view.now.me }
    requires uids { NameOneMail mailbox.now.mailbox view.now }
    ensures between { IfOk result (λ noted. IsBetween mailbox.now.mailbox view.now ids.keys nothing_noted indexes.old indexes.old
        → IsBetween mailbox.now.mailbox view.now [] noted indexes.old indexes.new) }
    ensures touched { IfOk result (λ noted. (key : ChatKey) → has_key noted.touched key
        ≡ list_any (λ id. is_chat key (chat mailbox.now.mailbox id) || is_chat key (chat view.now id)) ids.keys) }
    ensures cost { steps.new ≤ steps.old + sum_by (settle_reads mailbox.now.mailbox view.now) ids.keys }
{
    let mut noted = Touched::new(alloc);
    while let Some(id) = next_of(&mut ids) {
        let before = copy_of(moves.before(&indexes.links, &id))?;
        settle(
            alloc, mailbox, view, indexes, &mut noted, before, &id, steps,
        )?;
    }
    Ok(noted)
}

/// Brings what is kept of a mailbox beside its cards to what is to be kept after a change, which is made only then; the
/// turn is that of the change, as `Mailbox::plan` tells it. Answers the keys of the chats that the change touches. Takes
/// memory; `Err` only when it runs out, and then the indexes may only be dropped.
///
/// - `kept`: the indexes are those of the mailbox after the change.
/// - `touched`: the keys are those of the touched chats, each once, in the order of keys.
/// - `cost`: it reads kept cards no more often than the change may cost.
pub fn repair<L: Ledger>(
    alloc: Global,
    mailbox: &Mailbox,
    change: &Change,
    turn: &Turn,
    indexes: &mut Indexes,
    steps: &mut Steps<L>,
) -> Result<Vec<ChatKey>, Memory>
    requires coming { IsComing mailbox.now.mailbox change.now turn.now }
    requires kept { AreKept mailbox.now.mailbox indexes.old }
    ensures kept { OnOk result (AreKept (after mailbox.now.mailbox change.now) indexes.new) }
    ensures touched { IfOk result (λ keys. AreTouched mailbox.now.mailbox change.now keys.items) }
    ensures cost { steps.new ≤ steps.old + change_cost mailbox.now.mailbox change.now }
{
    let view = View::after(mailbox, change, turn);
    let cards = turned_cards(mailbox, &view, turn, steps);
    let named = names_of(alloc, &indexes.contacts, &cards)?;
    let moves = reindex(alloc, mailbox, &view, turn, indexes, steps)?;
    let ids = ids_to_settle(alloc, mailbox, &view, indexes, &moves, &cards, steps)?;
    let mut noted = settle_all(alloc, mailbox, &view, indexes, &moves, ids, steps)?;
    // For its clause `order`: no chat is folded anew twice.
    let _len = noted.unsettled.len();
    refold_all(alloc, &view, &mut indexes.chats, noted.unsettled, steps)?;
    note_renamed(
        alloc,
        &indexes.contacts,
        &indexes.chats,
        &named,
        &mut noted.touched,
    )?;
    renew_places(alloc, &mut indexes.order, &indexes.chats, noted.touched)
}
