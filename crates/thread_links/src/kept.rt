//! Cites that are kept, and which of them name an id.
ghost use Rattle.std.specs.Prelude.{◌≡◌, ℕ, List, IsSome, Some, None, true, false, not, cond, filter, if◌then◌else◌, IfOk, OnOk};
ghost use Rattle.std.specs.List.{list_any};
ghost use Rattle.std.specs.Option.{option_and_then, option_copied};
ghost use Rattle.std.specs.Ordering.{eq_by_cmp};
ghost use Rattle.std.specs.Str.{bytes_eq};
ghost use Rattle.lists.specs.Sorted.{insert_by};
ghost use Rattle.lists.specs.Ordered.{values_at};
ghost use Rattle.card_type.specs.Effects.{is_among};
ghost use Rattle.card_type.specs.Spots.{spot_cmp};
ghost use Rattle.mailbox_model.specs.Chats.{chat_from, cites_cmp, is_id_among};
ghost use Rattle.thread_links.specs.Linked.{without_id};
ghost use Rattle.thread_links.specs.Kept.{kept_at, chat_in, cites_in, without_chats, parent_in, IsIndex};

use card_type::{ChatKey, Spot};
use kit::{Id, Memory};
use lists::SortedById;
use mailbox_model::Cites;
use std::collections::BTreeMap;

/// The cites of one card, with its chat.
#[derive(Drop)]
pub(crate) struct Kept {
    pub(crate) cites: Cites,
    /// `None` until it is known.
    pub(crate) chat: Option<ChatKey>,
}

/// The first candidate of a card that is kept and stands before it.
fn parent<'a>(kept: &'a BTreeMap<Id, Kept>, cites: &Cites) -> Option<&'a Kept>
    ensures { option_copied result ≡ option_and_then (kept_at kept.now.entries) (parent_in kept.now.entries cites.now) }
{
    for id in cites.candidates.as_slice() {
        if let Some(candidate) = kept.get(id) {
            if candidate.cites.spot < cites.spot {
                return Some(candidate);
            }
        }
    }
    None
}

/// The chat of a card, where that of its parent is given. Takes memory; `Err` only when it runs out.
fn chat_from(cites: &Cites, of_parent: &Option<ChatKey>) -> Result<ChatKey, Memory>
    ensures { IfOk result (λ chat. chat ≡ chat_from cites.now of_parent.now) }
{
    match (&cites.own, of_parent) {
        (Some(own), _) => own.copy(),
        (None, Some(ChatKey::Group(group))) => Ok(ChatKey::Group(group.copy()?)),
        (None, Some(ChatKey::Thread(first))) => Ok(ChatKey::Thread(first.copy()?)),
        (None, _) => Ok(ChatKey::Thread(cites.root.copy()?)),
    }
}

/// The chat that a card is in by the chats of the others. Takes memory; `Err` only when it runs out.
pub(crate) fn next_chat(kept: &BTreeMap<Id, Kept>, cites: &Cites) -> Result<ChatKey, Memory>
    ensures { let entries = kept.now.entries in
        IfOk result (λ chat. chat ≡ chat_from cites.now (option_and_then (chat_in entries) (parent_in entries cites.now))) }
{
    match parent(kept, cites) {
        Some(parent) => chat_from(cites, &parent.chat),
        None => chat_from(cites, &None),
    }
}

/// Gives a card that is kept another chat, and returns the one before. Takes no memory.
pub(crate) fn set_chat(kept: &mut BTreeMap<Id, Kept>, id: &Id, chat: ChatKey) -> Option<ChatKey>
    requires kept { IsSome (kept_at kept.old.entries id.now) }
    ensures before { result ≡ chat_in kept.old.entries id.now }
    ensures cites { without_chats kept.new.entries ≡ without_chats kept.old.entries }
    ensures chat { chat_in kept.new.entries id.now ≡ Some chat }
    ensures others { (other : List ℕ) → bytes_eq id.now other ≡ false → chat_in kept.new.entries other ≡ chat_in kept.old.entries other }
{
    match kept.get_mut(id) {
        Some(kept) => kept.chat.replace(chat),
        None => None,
    }
}

/// Puts a spot under each of these ids, under none of which it is yet. Takes memory; `Err` only when it runs out.
fn cite(cited: &mut SortedById<Spot>, ids: &[Id], spot: &Spot) -> Result<(), Memory>
    requires absent { (id : List ℕ) → list_any (eq_by_cmp spot_cmp spot.now) (values_at cited.old id) ≡ false }
    ensures { (id : List ℕ) → OnOk result (values_at cited.new id
        ≡ (if is_among ids.now id then insert_by spot_cmp spot.now (values_at cited.old id) else values_at cited.old id)) }
{
    for id in ids {
        // An id may come twice among them.
        cited.put(id, spot.copy()?)?;
    }
    Ok(())
}

/// Takes a spot out from under each of these ids. Takes no memory.
fn uncite(cited: &mut SortedById<Spot>, ids: &[Id], spot: &Spot)
    ensures { (id : List ℕ) → values_at cited.new id
        ≡ (if is_among ids.now id then filter (λ other. not (eq_by_cmp spot_cmp spot.now other)) (values_at cited.old id) else values_at cited.old id) }
{
    for id in ids {
        cited.remove(id, spot);
    }
}

/// Keeps the cites of a card that is not kept yet, whose chat is not known. Takes memory; `Err` only when it runs out.
pub(crate) fn keep(
    kept: &mut BTreeMap<Id, Kept>,
    cited: &mut SortedById<Spot>,
    cites: Cites,
) -> Result<(), Memory>
    requires index { IsIndex kept.old.entries cited.old }
    requires absent { is_id_among (cites_in kept.old.entries) cites.spot.id ≡ false }
    ensures index { OnOk result (IsIndex kept.new.entries cited.new) }
    ensures cites { OnOk result (cites_in kept.new.entries ≡ insert_by cites_cmp cites (cites_in kept.old.entries)) }
    ensures chats { (id : List ℕ) → OnOk result (chat_in kept.new.entries id ≡ chat_in kept.old.entries id) }
{
    cite(cited, cites.candidates.as_slice(), &cites.spot)?;
    let id = cites.spot.id.copy()?;
    let _before = kept.insert(id, Kept { cites, chat: None })?;
    Ok(())
}

/// Keeps the cites of a card that is kept no longer, and returns them with its chat. Takes no memory.
pub(crate) fn take_out(
    kept: &mut BTreeMap<Id, Kept>,
    cited: &mut SortedById<Spot>,
    id: &Id,
) -> Option<Kept>
    requires index { IsIndex kept.old.entries cited.old }
    requires there { is_id_among (cites_in kept.old.entries) id.now ≡ true }
    ensures gone { result ≡ kept_at kept.old.entries id.now }
    ensures index { IsIndex kept.new.entries cited.new }
    ensures cites { cites_in kept.new.entries ≡ without_id id.now (cites_in kept.old.entries) }
    ensures chats { (other : List ℕ) → chat_in kept.new.entries other ≡ cond (bytes_eq id.now other) None (chat_in kept.old.entries other) }
{
    let gone = kept.remove(id)?;
    uncite(cited, gone.cites.candidates.as_slice(), &gone.cites.spot);
    Some(gone)
}
