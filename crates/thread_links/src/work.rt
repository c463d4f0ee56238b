//! A list of work: the cards whose chat may be another one, looked at in mail order.
ghost use Rattle.std.specs.Prelude.{◌≡◌, ◌++◌, ◌||◌, ◌&&◌, ℕ, List, [], ◌∷◌, true, false, Some, None, is_some, IfOk, OnOk};
ghost use Rattle.std.specs.List.{cons_option, list_any};
ghost use Rattle.std.specs.Option.{option_and_then, option_eq};
ghost use Rattle.std.specs.Ordering.{eq_by_cmp};
ghost use Rattle.std.specs.BTreeSet.{contains};
ghost use Rattle.std.specs.Str.{bytes_eq};
ghost use Rattle.lists.specs.Ordered.{values_at};
ghost use Rattle.card_type.specs.Keys.{key_eq};
ghost use Rattle.card_type.specs.Spots.{spot_cmp};
ghost use Rattle.lists.specs.Sorted.{insert_by};
ghost use Rattle.mailbox_model.specs.Chats.{cites_cmp, is_id_among, chat_from, chat_among, moved, moves};
ghost use Rattle.thread_links.specs.Linked.{without_id};
ghost use Rattle.thread_links.specs.Kept.{chat_in, cites_at, cites_in, without_chats, parent_in, IsIndex, IsSettled};
ghost use Rattle.thread_links.specs.Work.{is_later_of, IsBegun};

use crate::kept::{Kept, keep, next_chat, set_chat, take_out};
use card_type::{ChatKey, Spot};
use kit::{Id, Memory};
use lists::SortedById;
use mailbox_model::{Cites, Moved};
use std::alloc::Global;
use std::collections::{BTreeMap, BTreeSet};

/// Puts those of the spots that come after one of them on the list. Takes memory; `Err` only when it runs out.
fn push_later(work: &mut BTreeSet<Spot>, spots: &[Spot], from: &Spot) -> Result<(), Memory>
    ensures { (s : Spot) → OnOk result (contains spot_cmp work.new s ≡ (contains spot_cmp work.old s || is_later_of spots.now from.now s)) }
{
    for spot in spots {
        if from < spot {
            work.insert(spot.copy()?)?;
        }
    }
    Ok(())
}

/// Whether a chat is known, and is this one.
fn is_in(chat: &Option<ChatKey>, key: &ChatKey) -> bool
    ensures { result ≡ option_eq key_eq chat.now (Some key.now) }
{
    match chat {
        Some(known) => known == key,
        None => false,
    }
}

/// Gives the card at a spot the chat that it is in by the chats of the others, and returns its move, where it was in
/// another one. Takes memory; `Err` only when it runs out.
fn look(kept: &mut BTreeMap<Id, Kept>, spot: &Spot) -> Result<Option<Moved>, Memory>
    ensures cites { OnOk result (without_chats kept.new.entries ≡ without_chats kept.old.entries) }
    ensures others { (id : List ℕ) → bytes_eq spot.now.id id ≡ false → OnOk result (chat_in kept.new.entries id ≡ chat_in kept.old.entries id) }
    ensures chat { (t : Cites) → cites_at kept.old.entries spot.now.id ≡ Some t
        → OnOk result (chat_in kept.new.entries spot.now.id
        ≡ Some (chat_from t (option_and_then (chat_in kept.old.entries) (parent_in kept.old.entries t)))) }
    ensures told { IfOk result (λ told. told
        ≡ moved spot.now.id (chat_in kept.old.entries spot.now.id) (chat_in kept.new.entries spot.now.id)) }
{
    let Some(card) = kept.get(&spot.id) else {
        return Ok(None);
    };
    let chat = next_chat(kept, &card.cites)?;
    if is_in(&card.chat, &chat) {
        return Ok(None);
    }
    let id = spot.id.copy()?;
    let after = chat.copy()?;
    let before = set_chat(kept, &spot.id, chat);
    Ok(Some(Moved {
        id,
        before,
        after: Some(after),
    }))
}

/// Looks at the card at a spot, and where it moved puts the later ones that name it on the list. Takes memory; `Err` only
/// when it runs out.
fn turn(
    kept: &mut BTreeMap<Id, Kept>,
    cited: &SortedById<Spot>,
    work: &mut BTreeSet<Spot>,
    spot: &Spot,
    told: &mut Vec<Moved>,
) -> Result<(), Memory>
    ensures cites { OnOk result (without_chats kept.new.entries ≡ without_chats kept.old.entries) }
    ensures others { (id : List ℕ) → bytes_eq spot.now.id id ≡ false → OnOk result (chat_in kept.new.entries id ≡ chat_in kept.old.entries id) }
    ensures chat { (t : Cites) → cites_at kept.old.entries spot.now.id ≡ Some t
        → OnOk result (chat_in kept.new.entries spot.now.id
        ≡ Some (chat_from t (option_and_then (chat_in kept.old.entries) (parent_in kept.old.entries t)))) }
    ensures told { OnOk result (told.new.items ≡ told.old.items
        ++ cons_option (moved spot.now.id (chat_in kept.old.entries spot.now.id) (chat_in kept.new.entries spot.now.id)) []) }
    ensures work { (s : Spot) → OnOk result (contains spot_cmp work.new s ≡ (contains spot_cmp work.old s
        || (is_some (moved spot.now.id (chat_in kept.old.entries spot.now.id) (chat_in kept.new.entries spot.now.id))
        && is_later_of (values_at cited.now spot.now.id) spot.now s))) }
{
    if let Some(moved) = look(kept, spot)? {
        push_later(work, cited.get(&spot.id), spot)?;
        told.push(moved)?;
    }
    Ok(())
}

/// Works off a list of work, first to last, and answers all moves. Takes memory; `Err` only when it runs out.
pub(crate) fn work_off(
    kept: &mut BTreeMap<Id, Kept>,
    cited: &SortedById<Spot>,
    mut work: BTreeSet<Spot>,
    mut told: Vec<Moved>,
) -> Result<Vec<Moved>, Memory>
    requires index { IsIndex kept.old.entries cited.now }
    requires there { (s : Spot) → contains spot_cmp work s ≡ true
        → list_any (λ t. eq_by_cmp spot_cmp s t.spot) (cites_in kept.old.entries) ≡ true }
    ensures cites { OnOk result (without_chats kept.new.entries ≡ without_chats kept.old.entries) }
    ensures chats { (all before : List Cites) → IsBegun all before kept.old.entries (contains spot_cmp work) told.items
        → (id : List ℕ) → OnOk result (chat_in kept.new.entries id ≡ chat_among (cites_in kept.old.entries) id) }
    ensures moves { (all before : List Cites) → IsBegun all before kept.old.entries (contains spot_cmp work) told.items
        → IfOk result (λ told. told.items ≡ moves all before (cites_in kept.old.entries)) }
{
    while let Some(spot) = work.pop_first() {
        turn(kept, cited, &mut work, &spot, &mut told)?;
    }
    Ok(told)
}

/// A list of the cards that name the card at a spot and come after it. Takes memory; `Err` only when it runs out.
fn later_citing(
    alloc: Global,
    cited: &SortedById<Spot>,
    spot: &Spot,
) -> Result<BTreeSet<Spot>, Memory>
    ensures { (s : Spot) → IfOk result (λ work. contains spot_cmp work s ≡ is_later_of (values_at cited.now spot.now.id) spot.now s) }
{
    let mut work = BTreeSet::new(alloc);
    push_later(&mut work, cited.get(&spot.id), spot)?;
    Ok(work)
}

/// Keeps the cites of a card that is not kept yet, and answers the cards that moved. Takes memory; `Err` only when it runs
/// out.
pub(crate) fn add(
    alloc: Global,
    kept: &mut BTreeMap<Id, Kept>,
    cited: &mut SortedById<Spot>,
    cites: Cites,
) -> Result<Vec<Moved>, Memory>
    requires settled { IsSettled kept.old.entries cited.old }
    requires absent { is_id_among (cites_in kept.old.entries) cites.spot.id ≡ false }
    ensures settled { OnOk result (IsSettled kept.new.entries cited.new) }
    ensures cites { OnOk result (cites_in kept.new.entries ≡ insert_by cites_cmp cites (cites_in kept.old.entries)) }
    ensures told { IfOk result (λ told. told.items
        ≡ moves (cites_in kept.new.entries) (cites_in kept.old.entries) (cites_in kept.new.entries)) }
{
    let spot = cites.spot.copy()?;
    keep(kept, cited, cites)?;
    let mut work = later_citing(alloc, cited, &spot)?;
    work.insert(spot)?;
    work_off(kept, cited, work, Vec::new(alloc))
}

/// The move of a card that goes. Takes memory; `Err` only when it runs out.
fn told_gone(alloc: Global, id: &Id, before: Option<ChatKey>) -> Result<Vec<Moved>, Memory>
    ensures { IfOk result (λ told. told.items ≡ record { id = id.now; before = before; after = None } ∷ []) }
{
    let mut told = Vec::new(alloc);
    told.push(Moved {
        id: id.copy()?,
        before,
        after: None,
    })?;
    Ok(told)
}

/// Keeps the cites of a card that is kept no longer, and answers the cards that moved. Takes memory; `Err` only when it
/// runs out.
pub(crate) fn remove(
    alloc: Global,
    kept: &mut BTreeMap<Id, Kept>,
    cited: &mut SortedById<Spot>,
    id: &Id,
) -> Result<Vec<Moved>, Memory>
    requires settled { IsSettled kept.old.entries cited.old }
    requires there { is_id_among (cites_in kept.old.entries) id.now ≡ true }
    ensures settled { OnOk result (IsSettled kept.new.entries cited.new) }
    ensures cites { OnOk result (cites_in kept.new.entries ≡ without_id id.now (cites_in kept.old.entries)) }
    ensures told { IfOk result (λ told. told.items
        ≡ moves (cites_in kept.old.entries) (cites_in kept.old.entries) (cites_in kept.new.entries)) }
{
    let Some(Kept { cites, chat }) = take_out(kept, cited, id) else {
        return Ok(Vec::new(alloc));
    };
    let told = told_gone(alloc, id, chat)?;
    let work = later_citing(alloc, cited, &cites.spot)?;
    work_off(kept, cited, work, told)
}
