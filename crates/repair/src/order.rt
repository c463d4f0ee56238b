//! The places of touched chats in the list are renewed.
ghost use Rattle.std.specs.Prelude.{◌≡◌, IfOk, OnOk, option_map, if◌then◌else◌, false};
ghost use Rattle.std.specs.FinMap as map_of;
ghost use Rattle.std.specs.List.Sorted.{IsStrictlySortedBy};
ghost use Rattle.card_type.specs.declared.key.ChatKey.{ChatKey};
ghost use Rattle.card_type.specs.Keys.{key_cmp, key_eq};
ghost use Rattle.chat_states.specs.States.{has_key};
ghost use Rattle.chat_view.specs.Standing.{last_date};
ghost use Rattle.indexes.specs.Kept.{AreDated, date_at};

use card_type::{ChatKey, KeyMap};
use chat_states::KeySet;
use chat_view::ChatState;
use chatlist::ChatList;
use kit::Memory;
use std::alloc::Global;

/// Puts a chat at the place that its state gives it, and drops it where it has none.
fn renew_place(order: &mut ChatList, chats: &KeyMap<ChatState>, key: &ChatKey) -> Result<(), Memory>
    ensures { OnOk result ((other : ChatKey) → date_at order.new other
        ≡ (if key_eq key.now other then option_map last_date (map_of.get chats.now key.now) else date_at order.old other)) }
{
    match chats.get(key) {
        Some(state) => order.set(key, state.last_date()),
        None => {
            order.drop_key(key);
            Ok(())
        }
    }
}

/// Renews the places of these chats, and answers their keys in order.
///
/// - `order`: where the order was that of states from which these differ at most in the chats of these keys, it is that of
///   these.
pub(crate) fn renew_places(
    alloc: Global,
    order: &mut ChatList,
    chats: &KeyMap<ChatState>,
    mut touched: KeySet,
) -> Result<Vec<ChatKey>, Memory>
    ensures order { OnOk result ((start : map_of.FinMap key_cmp ChatState) → AreDated start order.old
        → ((key : ChatKey) → has_key touched key ≡ false → map_of.get chats.now key ≡ map_of.get start key)
        → AreDated chats.now order.new) }
    ensures keys { IfOk result (λ keys. keys.items ≡ touched) }
    ensures sorted { IsStrictlySortedBy key_cmp touched }
{
    let mut keys = Vec::with_capacity(alloc, touched.len())?;
    while let Some(key) = touched.pop() {
        renew_place(order, chats, &key)?;
        keys.push(key)?;
    }
    Ok(keys)
}
