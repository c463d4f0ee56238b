//! What is kept of single cards follows the change.
ghost use Rattle.std.specs.Prelude.{◌≡◌, ◌≤◌, ◌+◌, ◌∷◌, ◌==◌, ◌||◌, Bool, ℕ, List, Option, Some, None, false, OnOk, IfOk, option_map, if◌then◌else◌};
ghost use Rattle.std.specs.FinMap as map_of;
ghost use Rattle.std.specs.Option.{option_map_or};
ghost use Rattle.card_type.specs.declared.key.ChatKey.{ChatKey};
ghost use Rattle.card_type.specs.Effects.{is_among};
ghost use Rattle.effects.specs.Named.{StandsFor as AreEffects};
ghost use Rattle.mailbox_model.specs.Chats.{chat, is_chat};
ghost use Rattle.mailbox_model.specs.Lists.{Bytes};
ghost use Rattle.mailbox_model.specs.Mailbox.{Mailbox};
ghost use Rattle.mailbox_model.specs.Present.{Mail, present, present_cards, spot as place_of};
ghost use Rattle.mailbox_model.specs.States.{shown_as};
ghost use Rattle.chat_states.specs.Families.{Family};
ghost use Rattle.chat_states.specs.States.{AreStatesOf, has_key};
ghost use Rattle.touched_chats.specs.Costs.{row_reads, settle_reads};
ghost use Rattle.indexes.specs.Costs.{times_named};
ghost use Rattle.indexes.specs.Kept.{AreOf, deadline_among, deadline_at};
ghost use Rattle.repair.specs.Cards.{IsBetween, MayNote, card_in, content_at, has_uid_at};
ghost use Rattle.repair.specs.Turned.{NameOneMail};
ghost use Rattle.repair.specs.Places.{AreSmall, IsPlace, unmarked, with_id};

use crate::place::{Place, is_same, place_after, place_before};
use crate::touched::Touched;
use box_state::Mailbox;
use card_type::{Card, ChatKey, Spot};
use chat_states::{KeySet, mark, put, take};
use chat_view::Mark;
use effects::Effects;
use indexes::{Indexes, View, set_deadline, shown_at};
use kit::{Id, Memory, Steps};
use std::alloc::Global;
use std::sync::ledger::Ledger;
use timers::Timers;

/// Sets the deadline of a mail in place of the one that it had, or leaves it without one.
fn renew_deadline(timers: &mut Timers, uid: u32, deadline: Option<u64>) -> Result<(), Memory>
    ensures { OnOk result ((other : ℕ) → deadline_at timers.new other ≡ (if uid == other then deadline else deadline_at timers.old other)) }
{
    timers.drop_of(uid);
    set_deadline(timers, uid, deadline)
}

/// The content card at a spot, and the mark of its row. Its deadline is renewed.
fn show<'a, L: Ledger>(
    alloc: Global,
    view: &'a View<'_>,
    effects: &Effects,
    timers: &mut Timers,
    spot: &Spot,
    steps: &mut Steps<L>,
) -> Result<(&'a Card, Option<Mark>), Memory>
    requires there { (t : Mail) × (content_at view.now spot.now.id ≡ Some t) × (place_of t.placed ≡ spot.now) }
    requires effects { AreEffects effects.now (present_cards view.now) }
    ensures shown { IfOk result (λ shown. option_map (shown_as view.now) (content_at view.now spot.now.id) ≡ Some (record { spot = spot.now; card = shown.0.now; mark = shown.1 })) }
    ensures timers { OnOk result ((uid : ℕ) → deadline_at timers.new uid ≡ (if spot.now.uid == uid then deadline_among view.now (present view.now) uid else deadline_at timers.old uid)) }
    ensures cost { steps.new ≤ steps.old + (1 + times_named view.now spot.now.id) }
{
    view.keeps_rules();
    let card = view.card(spot.uid, steps).unwrap();
    let shown = shown_at(alloc, view, effects, spot, card, steps)?;
    renew_deadline(timers, spot.uid, shown.deadline)?;
    Ok((card, shown.mark))
}

/// Marks the card with an id anew, where it stays at its place.
fn remark<L: Ledger>(
    alloc: Global,
    view: &View<'_>,
    indexes: &mut Indexes,
    place: &Option<Place<'_>>,
    id: &Id,
    steps: &mut Steps<L>,
) -> Result<(), Memory>
    requires place { IsPlace view.now id.now place.now }
    requires cards { AreOf view.now.me (present view.now) indexes.old }
    ensures states { OnOk result ((unsettled : ChatKey → Bool) (family : Family) → AreSmall family
        → ((key : ChatKey) → option_map unmarked (family key id.now) ≡ option_map unmarked (card_in view.now key id.now))
        → AreStatesOf view.now.me unsettled family indexes.old.chats
        → AreStatesOf view.now.me unsettled (with_id id.now (λ key. card_in view.now key id.now) family) indexes.new.chats) }
    ensures others { OnOk result ((key : ChatKey) → is_chat key (chat view.now id.now) ≡ false → map_of.get indexes.new.chats key ≡ map_of.get indexes.old.chats key) }
    ensures timers { OnOk result ((uid : ℕ) → deadline_at indexes.new.timers uid
        ≡ (if has_uid_at view.now id.now uid then deadline_among view.now (present view.now) uid else deadline_at indexes.old.timers uid)) }
    ensures rest { OnOk result (indexes.new ≡ record indexes.old { chats = indexes.new.chats; timers = indexes.new.timers }) }
    ensures cost { steps.new ≤ steps.old + option_map_or (row_reads view.now) (content_at view.now id.now) 0 }
{
    let Some(place) = place else {
        return Ok(());
    };
    let (_, shown) = show(
        alloc,
        view,
        &indexes.effects,
        &mut indexes.timers,
        place.spot,
        steps,
    )?;
    mark(alloc, &mut indexes.chats, &place.chat, place.spot, shown)
}

/// Takes the card with an id out of the chat in which it was.
fn take_from_chat(
    alloc: Global,
    mailbox: &Mailbox,
    indexes: &mut Indexes,
    unsettled: &mut KeySet,
    place: &Option<Place<'_>>,
    id: &Id,
) -> Result<(), Memory>
    requires place { IsPlace mailbox.now.mailbox id.now place.now }
    ensures states { OnOk result ((me : Bytes) (family : Family) → AreSmall family
        → ((key : ChatKey) → family key id.now ≡ card_in mailbox.now.mailbox key id.now)
        → AreStatesOf me (has_key unsettled.old) family indexes.old.chats
        → AreStatesOf me (has_key unsettled.new) (with_id id.now (λ key. None) family) indexes.new.chats) }
    ensures others { OnOk result ((key : ChatKey) → is_chat key (chat mailbox.now.mailbox id.now) ≡ false → map_of.get indexes.new.chats key ≡ map_of.get indexes.old.chats key) }
    ensures notes { OnOk result ((key : ChatKey) → MayNote (is_chat key (chat mailbox.now.mailbox id.now)) (has_key unsettled.old key) (has_key unsettled.new key)) }
    ensures timers { OnOk result ((uid : ℕ) → deadline_at indexes.new.timers uid
        ≡ (if has_uid_at mailbox.now.mailbox id.now uid then None else deadline_at indexes.old.timers uid)) }
    ensures rest { OnOk result (indexes.new ≡ record indexes.old { chats = indexes.new.chats; timers = indexes.new.timers }) }
{
    let Some(place) = place else {
        return Ok(());
    };
    indexes.timers.drop_of(place.spot.uid);
    take(
        alloc,
        &mut indexes.chats,
        unsettled,
        &place.chat,
        place.spot,
    )
}

/// Puts the card with an id into the chat in which it is.
fn put_into_chat<L: Ledger>(
    alloc: Global,
    view: &View<'_>,
    indexes: &mut Indexes,
    unsettled: &mut KeySet,
    place: &Option<Place<'_>>,
    id: &Id,
    steps: &mut Steps<L>,
) -> Result<(), Memory>
    requires place { IsPlace view.now id.now place.now }
    requires cards { AreOf view.now.me (present view.now) indexes.old }
    ensures states { OnOk result ((family : Family) → AreSmall family → ((key : ChatKey) → family key id.now ≡ None)
        → AreStatesOf view.now.me (has_key unsettled.old) family indexes.old.chats
        → AreStatesOf view.now.me (has_key unsettled.new) (with_id id.now (λ key. card_in view.now key id.now) family) indexes.new.chats) }
    ensures others { OnOk result ((key : ChatKey) → is_chat key (chat view.now id.now) ≡ false → map_of.get indexes.new.chats key ≡ map_of.get indexes.old.chats key) }
    ensures notes { OnOk result ((key : ChatKey) → MayNote (is_chat key (chat view.now id.now)) (has_key unsettled.old key) (has_key unsettled.new key)) }
    ensures timers { OnOk result ((uid : ℕ) → deadline_at indexes.new.timers uid
        ≡ (if has_uid_at view.now id.now uid then deadline_among view.now (present view.now) uid else deadline_at indexes.old.timers uid)) }
    ensures rest { OnOk result (indexes.new ≡ record indexes.old { chats = indexes.new.chats; timers = indexes.new.timers }) }
    ensures cost { steps.new ≤ steps.old + option_map_or (row_reads view.now) (content_at view.now id.now) 0 }
{
    let me = view.me();
    let Some(place) = place else {
        return Ok(());
    };
    let (card, shown) = show(
        alloc,
        view,
        &indexes.effects,
        &mut indexes.timers,
        place.spot,
        steps,
    )?;
    put(
        alloc,
        &mut indexes.chats,
        unsettled,
        &place.chat,
        place.spot,
        card,
        shown,
        me,
    )
}

/// Brings all that is kept of the card with an id to what it is after the change, where it was in this chat before. The
/// chats in which it was and is are noted as touched.
pub(crate) fn settle<L: Ledger>(
    alloc: Global,
    mailbox: &Mailbox,
    view: &View<'_>,
    indexes: &mut Indexes,
    noted: &mut Touched,
    before: Option<ChatKey>,
    id: &Id,
    steps: &mut Steps<L>,
) -> Result<(), Memory>
    requires chat { before ≡ chat mailbox.now.mailbox id.now }
    requires cards { AreOf view.now.me (present view.now) indexes.old }
    requires me { mailbox.now.mailbox.me ≡ view.now.me }
    requires uids { NameOneMail mailbox.now.mailbox view.now }
    ensures between { OnOk result ((pending : List Bytes) (start : Indexes) → is_among pending id.now ≡ false
        → IsBetween mailbox.now.mailbox view.now (id.now ∷ pending) noted.old start indexes.old
        → IsBetween mailbox.now.mailbox view.now pending noted.new start indexes.new) }
    ensures touched { OnOk result ((key : ChatKey) → has_key noted.new.touched key
        ≡ (has_key noted.old.touched key || (is_chat key (chat mailbox.now.mailbox id.now) || is_chat key (chat view.now id.now)))) }
    ensures rest { OnOk result (indexes.new ≡ record indexes.old { chats = indexes.new.chats; timers = indexes.new.timers }) }
    ensures cost { steps.new ≤ steps.old + settle_reads mailbox.now.mailbox view.now id.now }
{
    mailbox.keeps_rules();
    view.keeps_rules();
    let before = place_before(mailbox, before, id);
    let after = place_after(view, &indexes.links, id)?;
    noted.note(&before)?;
    noted.note(&after)?;
    if is_same(&before, &after) {
        return remark(alloc, view, indexes, &after, id, steps);
    }
    take_from_chat(alloc, mailbox, indexes, &mut noted.unsettled, &before, id)?;
    put_into_chat(
        alloc,
        view,
        indexes,
        &mut noted.unsettled,
        &after,
        id,
        steps,
    )
}
