//! How the states of the chats follow single cards. No card but the one that comes, goes or is marked anew is read.
ghost use Rattle.std.specs.Prelude.{◌≡◌, ◌∷◌, ◌++◌, ◌&&◌, ◌||◌, not, List, Option, Some, None, Bool, true, false, IfOk, OnOk};
ghost use Rattle.std.specs.FinMap as map_of;
ghost use Rattle.std.specs.List.Sorted.{IsStrictlySortedBy};
ghost use Rattle.card_type.specs.Keys.{key_eq};
ghost use Rattle.card_type.specs.Kinds.{has_some};
ghost use Rattle.card_type.specs.Spots.{spot_cmp};
ghost use Rattle.card_type.specs.declared.card.Card.{Card};
ghost use Rattle.card_type.specs.declared.key.ChatKey.{ChatKey};
ghost use Rattle.mailbox_model.specs.declared.row.Mark.{Mark};
ghost use Rattle.mailbox_model.specs.Lists.{Bytes};
ghost use Rattle.mailbox_model.specs.States.{Shown};
ghost use Rattle.group_roster.specs.Setters.{RestsOn};
ghost use Rattle.chat_view.specs.Changes.{AreFew, AreInOrder, lets_go, takes_in};
ghost use Rattle.chat_view.specs.declared.state.ChatState.{ChatState};
ghost use Rattle.chat_view.specs.Standing.{StandsFor, placed_at, shown};
ghost use Rattle.chat_states.specs.Families.{Family, AreCardsOf, IsSmall, with_card};
ghost use Rattle.chat_states.specs.States.{AreStatesOf, Follows, MayUnsettle, has_key};

use crate::key_set::KeySet;
use card_type::{Card, ChatKey, KeyMap, Spot};
use chat_view::{ChatState, Mark};
use group_roster::Setters;
use kit::{Addr, Memory};
use mailbox_model::Roster;
use std::alloc::Global;

/// Takes a card into the state of a settled chat, where it can tell the roster with the card; where not, the state stays as
/// it is.
fn put_settled(
    alloc: Global,
    state: &mut ChatState,
    unsettled: &KeySet,
    key: &ChatKey,
    spot: &Spot,
    card: &Card,
    mark: Option<Mark>,
    me: &Addr,
) -> Result<bool, Memory>
    ensures key { OnOk result (state.new.key ≡ state.old.key) }
    ensures settled { IfOk result (λ taken. taken ≡ true → has_key unsettled.now key.now ≡ false) }
    ensures when { IfOk result (λ taken. IsStrictlySortedBy spot_cmp state.old.spots
        → taken ≡ (not (has_key unsettled.now key.now) && takes_in state.old spot.now card.now)) }
    ensures taken { IfOk result (λ taken. taken ≡ true → (before after : List Shown) → AreFew (before ++ after)
        → AreInOrder (before ++ shown spot.now card.now mark ∷ after) → StandsFor me.now (before ++ after) state.old
        → StandsFor me.now (before ++ shown spot.now card.now mark ∷ after) state.new) }
    ensures left { IfOk result (λ taken. taken ≡ false → state.new ≡ state.old) }
{
    if unsettled.has(key) {
        return Ok(false);
    }
    state.put_in(alloc, spot, card, mark, me)
}

/// Takes a card into the state of a chat, which becomes unsettled where it can't tell the roster with the card.
fn put_into(
    alloc: Global,
    state: &mut ChatState,
    unsettled: &mut KeySet,
    key: &ChatKey,
    spot: &Spot,
    card: &Card,
    mark: Option<Mark>,
    me: &Addr,
) -> Result<(), Memory>
    ensures key { OnOk result (state.new.key ≡ state.old.key) }
    ensures follows { OnOk result ((before after : List Shown) → AreFew (before ++ after)
        → AreInOrder (before ++ shown spot.now card.now mark ∷ after)
        → Follows me.now (has_key unsettled.old key.now) (before ++ after) state.old
        → Follows me.now (has_key unsettled.new key.now) (before ++ shown spot.now card.now mark ∷ after) state.new) }
    ensures notes { OnOk result (MayUnsettle key.now unsettled.old unsettled.new) }
    ensures when { OnOk result (IsStrictlySortedBy spot_cmp state.old.spots
        → has_key unsettled.new key.now ≡ (has_key unsettled.old key.now || not (takes_in state.old spot.now card.now))) }
{
    if put_settled(alloc, state, unsettled, key, spot, card, mark, me)? {
        return Ok(());
    }
    state.place(spot, mark)?;
    unsettled.note(key.copy()?)
}

/// Takes the state of a chat out for a while, and leaves an empty one in its place: `None` exactly where the chat has none.
fn lift(alloc: Global, chats: &mut KeyMap<ChatState>, key: &ChatKey) -> Option<ChatState>
    ensures before { result ≡ map_of.get chats.old key.now }
    ensures others { (other : ChatKey) → key_eq key.now other ≡ false → map_of.get chats.new other ≡ map_of.get chats.old other }
{
    chats.replace(key, ChatState::empty(alloc)).ok()
}

/// Puts the state of a chat at its key. Takes memory for the key; `Err` only when it runs out.
fn put_back(chats: &mut KeyMap<ChatState>, key: &ChatKey, state: ChatState) -> Result<(), Memory>
    ensures { OnOk result (chats.new ≡ map_of.insert chats.old key.now state) }
{
    let _before = chats.insert(key.copy()?, state)?;
    Ok(())
}

/// Takes a card into the state of its chat, at its place in mail order, with the mark of its row, and `None` where it is not
/// shown; a chat that has no state gets one. Where the state can't tell the roster with the card, the chat becomes
/// unsettled. Takes memory, and time in proportion to the number of the chat's cards; `Err` only when memory runs out, and
/// then the states may only be dropped.
///
/// - `states`: where the states were those of a family in which the chat has no card with this id, they are those of the
///   family with the card.
/// - `others`: the other chats keep theirs.
/// - `notes`: no other chat becomes unsettled or settled.
/// - `begun`: nor does a chat that has no state yet.
/// - `when`: any other one becomes unsettled exactly where its state doesn't take the card in: `takes_in` in
///   `specs/Changes.antt` of `chat_view`.
pub fn put(
    alloc: Global,
    chats: &mut KeyMap<ChatState>,
    unsettled: &mut KeySet,
    key: &ChatKey,
    spot: &Spot,
    card: &Card,
    mark: Option<Mark>,
    me: &Addr,
) -> Result<(), Memory>
    ensures states { OnOk result ((family : Family) → IsSmall (family key.now) → family key.now spot.now.id ≡ None
        → AreStatesOf me.now (has_key unsettled.old) family chats.old
        → AreStatesOf me.now (has_key unsettled.new)
        (with_card key.now spot.now.id (Some (shown spot.now card.now mark)) family) chats.new) }
    ensures others { OnOk result ((other : ChatKey) → key_eq key.now other ≡ false → map_of.get chats.new other ≡ map_of.get chats.old other) }
    ensures notes { OnOk result (MayUnsettle key.now unsettled.old unsettled.new) }
    ensures begun { OnOk result (map_of.get chats.old key.now ≡ None
        → has_key unsettled.new key.now ≡ has_key unsettled.old key.now) }
    ensures when { OnOk result ((state : ChatState) → map_of.get chats.old key.now ≡ Some state → IsStrictlySortedBy spot_cmp state.spots
        → has_key unsettled.new key.now ≡ (has_key unsettled.old key.now || not (takes_in state spot.now card.now))) }
{
    let mut state = match lift(alloc, chats, key) {
        Some(state) => state,
        None => ChatState::begin(alloc, key.copy()?, me)?,
    };
    put_into(alloc, &mut state, unsettled, key, spot, card, mark, me)?;
    put_back(chats, key, state)?;
    Ok(())
}

/// Lets a card of a settled chat go, where the state can tell the roster without it; where not, the state stays as it is.
fn take_settled(
    state: &mut ChatState,
    unsettled: &KeySet,
    key: &ChatKey,
    spot: &Spot,
) -> Result<bool, Memory>
    ensures key { OnOk result (state.new.key ≡ state.old.key) }
    ensures settled { IfOk result (λ taken. taken ≡ true → has_key unsettled.now key.now ≡ false) }
    ensures when { IfOk result (λ taken. IsStrictlySortedBy spot_cmp state.old.spots
        → taken ≡ (not (has_key unsettled.now key.now) && lets_go state.old spot.now)) }
    ensures taken { IfOk result (λ taken. taken ≡ true → (me : Bytes) (before after : List Shown) (card : Card) (mark : Option Mark) → AreFew (before ++ after)
        → AreInOrder (before ++ shown spot.now card mark ∷ after) → StandsFor me (before ++ shown spot.now card mark ∷ after) state.old
        → StandsFor me (before ++ after) state.new × (has_some (before ++ after) ≡ true)) }
    ensures left { IfOk result (λ taken. taken ≡ false → state.new ≡ state.old) }
{
    if unsettled.has(key) {
        return Ok(false);
    }
    state.take_out(spot)
}

/// Lets a card of a chat go, which becomes unsettled where its state can't tell the roster without the card.
fn take_from(
    state: &mut ChatState,
    unsettled: &mut KeySet,
    key: &ChatKey,
    spot: &Spot,
) -> Result<(), Memory>
    ensures key { OnOk result (state.new.key ≡ state.old.key) }
    ensures follows { OnOk result ((me : Bytes) (before after : List Shown) (card : Card) (mark : Option Mark) → AreFew (before ++ after)
        → AreInOrder (before ++ shown spot.now card mark ∷ after)
        → Follows me (has_key unsettled.old key.now) (before ++ shown spot.now card mark ∷ after) state.old
        → Follows me (has_key unsettled.new key.now) (before ++ after) state.new
        × (has_key unsettled.new key.now ≡ false → has_some (before ++ after) ≡ true)) }
    ensures notes { OnOk result (MayUnsettle key.now unsettled.old unsettled.new) }
    ensures when { OnOk result (IsStrictlySortedBy spot_cmp state.old.spots
        → has_key unsettled.new key.now ≡ (has_key unsettled.old key.now || not (lets_go state.old spot.now))) }
{
    if take_settled(state, unsettled, key, spot)? {
        return Ok(());
    }
    state.displace(spot)?;
    unsettled.note(key.copy()?)
}

/// Lets a card of a chat go. Where the state of the chat can't tell the roster without the card, the chat becomes unsettled,
/// as it does without its only card. Takes memory, and time in proportion to the number of the chat's cards; `Err` only when
/// memory runs out, and then the states may only be dropped.
///
/// - `states`: where the states were those of a family in which the chat has this card, whatever its mark, they are those of
///   the family without it.
/// - `others`: the other chats keep theirs.
/// - `notes`: no other chat becomes unsettled or settled.
/// - `when`: this one becomes unsettled exactly where its state doesn't let the card go: `lets_go` in `specs/Changes.antt` of
///   `chat_view`.
pub fn take(
    alloc: Global,
    chats: &mut KeyMap<ChatState>,
    unsettled: &mut KeySet,
    key: &ChatKey,
    spot: &Spot,
) -> Result<(), Memory>
    ensures states { OnOk result ((me : Bytes) (family : Family) (card : Card) (mark : Option Mark) → IsSmall (family key.now)
        → family key.now spot.now.id ≡ Some (shown spot.now card mark)
        → AreStatesOf me (has_key unsettled.old) family chats.old
        → AreStatesOf me (has_key unsettled.new) (with_card key.now spot.now.id None family) chats.new) }
    ensures others { OnOk result ((other : ChatKey) → key_eq key.now other ≡ false → map_of.get chats.new other ≡ map_of.get chats.old other) }
    ensures notes { OnOk result (MayUnsettle key.now unsettled.old unsettled.new) }
    ensures when { OnOk result ((state : ChatState) → map_of.get chats.old key.now ≡ Some state → IsStrictlySortedBy spot_cmp state.spots
        → has_key unsettled.new key.now ≡ (has_key unsettled.old key.now || not (lets_go state spot.now))) }
{
    let Some(mut state) = lift(alloc, chats, key) else {
        return Ok(());
    };
    take_from(&mut state, unsettled, key, spot)?;
    put_back(chats, key, state)?;
    Ok(())
}

/// Marks a card of a chat anew: `None` where it is no longer shown. Takes memory, and time in proportion to the number of the
/// chat's cards; `Err` only when memory runs out, and then the states may only be dropped.
///
/// - `states`: where the states were those of a family in which the chat has a card at this spot, they are those of the
///   family with the other mark. The chats that were unsettled still are.
/// - `others`: the other chats keep theirs.
pub fn mark(
    alloc: Global,
    chats: &mut KeyMap<ChatState>,
    key: &ChatKey,
    spot: &Spot,
    mark: Option<Mark>,
) -> Result<(), Memory>
    ensures states { OnOk result ((me : Bytes) (unsettled : ChatKey → Bool) (family : Family) (card : Card) (before : Option Mark)
        → IsSmall (family key.now) → family key.now spot.now.id ≡ Some (shown spot.now card before)
        → AreStatesOf me unsettled family chats.old
        → AreStatesOf me unsettled (with_card key.now spot.now.id (Some (shown spot.now card mark)) family) chats.new) }
    ensures others { OnOk result ((other : ChatKey) → key_eq key.now other ≡ false → map_of.get chats.new other ≡ map_of.get chats.old other) }
{
    let Some(mut state) = lift(alloc, chats, key) else {
        return Ok(());
    };
    state.remark(spot, mark)?;
    put_back(chats, key, state)?;
    Ok(())
}

/// Settles a chat: gives it the roster and the setters that were folded of all its cards, and lets its state go where it has
/// no card. Takes memory for the key; `Err` only when it runs out, and then the states may only be dropped.
///
/// - `states`: where the states were those of a family, and the roster and the setters rest on the cards of the chat, it
///   need no longer count as unsettled.
/// - `others`: the other chats keep theirs.
pub fn settle(
    chats: &mut KeyMap<ChatState>,
    key: &ChatKey,
    roster: Roster,
    setters: Setters,
) -> Result<(), Memory>
    ensures states { OnOk result ((me : Bytes) (unsettled : ChatKey → Bool) (family : Family) (cards : List Shown)
        → AreCardsOf (family key.now) cards → RestsOn me key.now (placed_at cards) roster setters
        → AreStatesOf me (λ other. key_eq other key.now || unsettled other) family chats.old
        → AreStatesOf me unsettled family chats.new) }
    ensures others { OnOk result ((other : ChatKey) → key_eq key.now other ≡ false → map_of.get chats.new other ≡ map_of.get chats.old other) }
{
    let Some(mut state) = chats.remove(key) else {
        return Ok(());
    };
    if state.spots.len() > 0 {
        state.roster = roster;
        state.setters = setters;
        put_back(chats, key, state)?;
    }
    Ok(())
}
