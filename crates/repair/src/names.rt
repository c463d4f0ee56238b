//! The names under which the people of a turn are shown, before and after.
ghost use Rattle.std.specs.Prelude.{◌≡◌, ◌++◌, ◌&&◌, ◌||◌, is_some, map, IfOk, OnOk};
ghost use Rattle.std.specs.FinMap as map_of;
ghost use Rattle.std.specs.Option.{option_copied, option_to_list};
ghost use Rattle.card_type.specs.declared.key.ChatKey.{ChatKey};
ghost use Rattle.card_type.specs.Keys.{key_eq};
ghost use Rattle.mailbox_model.specs.declared.turn.Turn.{Turn};
ghost use Rattle.mailbox_model.specs.Mailbox.{Mailbox};
ghost use Rattle.mailbox_model.specs.Present.{present_cards};
ghost use Rattle.chat_states.specs.States.{has_key};
ghost use Rattle.touched_chats.specs.Suspects.{is_renamed};
ghost use Rattle.contacts.specs.Kept.{Kept, StandsFor as AreContacts};
ghost use Rattle.repair.specs.declared.turned.TurnedCards.{TurnedCards};
ghost use Rattle.repair.specs.Turned.{AreTurned};
ghost use Rattle.repair.specs.Named.{named_by, has_other_name, AreNamed};

use crate::turned::TurnedCards;
use card_type::{Card, ChatKey, KeyMap};
use chat_states::KeySet;
use chat_view::ChatState;
use contacts::Contacts;
use kit::{Addr, Memory, Text};
use std::alloc::Global;

/// The name under which an address was shown.
#[derive(Drop)]
pub(crate) struct Named {
    addr: Addr,
    name: Text,
}

/// Adds who wrote a card that may be missing.
fn add_name(
    alloc: Global,
    contacts: &Contacts,
    card: Option<&Card>,
    named: &mut Vec<Named>,
) -> Result<(), Memory>
    ensures { OnOk result (named.new.items ≡ named.old.items ++ map (named_by contacts.now) (option_to_list (option_copied card.entry))) }
{
    let Some(card) = card else {
        return Ok(());
    };
    let addr = card.from.copy()?;
    let name = contacts.shown_name(alloc, &addr)?;
    named.push(Named { addr, name })?;
    Ok(())
}

/// Who wrote each of these cards, with the name under which he is shown. Takes memory; `Err` only when it runs out.
pub(crate) fn names_of(
    alloc: Global,
    contacts: &Contacts,
    cards: &TurnedCards<'_>,
) -> Result<Vec<Named>, Memory>
    ensures { IfOk result (λ named. AreNamed contacts.now cards.now named.items) }
{
    let mut named = Vec::new(alloc);
    add_name(alloc, contacts, cards.first, &mut named)?;
    add_name(alloc, contacts, cards.second, &mut named)?;
    Ok(named)
}

/// Puts in the key of a chat that has a state.
fn note_chat(chats: &KeyMap<ChatState>, key: ChatKey, keys: &mut KeySet) -> Result<(), Memory>
    ensures { OnOk result ((other : ChatKey) → has_key keys.new other
        ≡ (has_key keys.old other || (key_eq other key && is_some (map_of.get chats.now key)))) }
{
    if chats.get(&key).is_some() {
        return keys.note(key);
    }
    Ok(())
}

/// Puts in the chat with an address, where that is shown under another name than it was, and the chat has a state.
fn note_if_renamed(
    alloc: Global,
    contacts: &Contacts,
    chats: &KeyMap<ChatState>,
    named: &Named,
    keys: &mut KeySet,
) -> Result<(), Memory>
    ensures { OnOk result ((key : ChatKey) → has_key keys.new key
        ≡ (has_key keys.old key || (has_other_name contacts.now key named.now && is_some (map_of.get chats.now key)))) }
{
    let name = contacts.shown_name(alloc, &named.addr)?;
    if name == named.name {
        return Ok(());
    }
    note_chat(chats, ChatKey::Single(named.addr.copy()?), keys)
}

/// Puts in the chat with each address that is shown under another name than it was, where the chat has a state. Takes
/// memory; `Err` only when it runs out, and after it the set may only be dropped.
pub(crate) fn note_renamed(
    alloc: Global,
    contacts: &Contacts,
    chats: &KeyMap<ChatState>,
    named: &[Named],
    keys: &mut KeySet,
) -> Result<(), Memory>
    ensures { OnOk result ((m n : Mailbox) (turn : Turn) (before : Kept) (cards : TurnedCards)
        → AreContacts before (present_cards m) → AreContacts contacts.now (present_cards n)
        → AreTurned m n turn cards → AreNamed before cards named.now
        → (key : ChatKey) → has_key keys.new key
        ≡ (has_key keys.old key || (is_renamed m n turn key && is_some (map_of.get chats.now key)))) }
{
    for one in named {
        note_if_renamed(alloc, contacts, chats, one, keys)?;
    }
    Ok(())
}
