//! The list of chats in order.
ghost use Rattle.std.specs.Prelude.{◌≡◌, [], map, OnOk, OnErr};
ghost use Rattle.std.specs.List.{IsDistinct};
ghost use Rattle.std.specs.List.Sorted.{IsStrictlySortedBy};
ghost use Rattle.card_type.specs.Keys.{key_eq};
ghost use Rattle.mailbox_model.specs.ChatList.{dated_cmp};
ghost use Rattle.chatlist.specs.Places.{with_place, without_key};

use crate::order::Order;
use card_type::{ChatKey, KeyMap};
use kit::Memory;
use std::alloc::Global;
use std::marker::Model;

/// Chats in the order of the list, each with the effective date of its last shown row, in seconds since 1970-01-01
/// 00:00:00 UTC, where it has one. A contract sees the list of keys with their dates.
#[derive(Drop)]
pub struct ChatList {
    order: Order,
    dates: KeyMap<Option<u64>>,
}

impl Model for ChatList {
    ghost use Rattle.std.specs.Prelude.{◌≡◌, List};
    ghost use Rattle.std.specs.FinMap as map;
    ghost use Rattle.mailbox_model.specs.ChatList.{Dated};

    ghost Value = { List Dated };

    ghost view = { λ list. list.order.chats };

    ghost invariant = { λ list. list.dates ≡ map.from_entries list.order.chats };
}

impl ChatList {
    /// No chats. Takes no memory.
    pub fn new(alloc: Global) -> Self
        ensures { result ≡ [] }
    {
        ChatList {
            order: Order::new(alloc),
            dates: KeyMap::new(alloc),
        }
    }

    /// Puts a chat at the place that the date of its last shown row gives it, and `None` where no row is shown; an
    /// earlier place is given up. Takes memory; `Err` only when it runs out, and then the list is as before.
    pub fn set(&mut self, key: &ChatKey, last: Option<u64>) -> Result<(), Memory>
        ensures ok { OnOk result (self.new ≡ with_place key.now last self.old) }
        ensures err { OnErr result (self.new ≡ self.old) }
    {
        self.order.reserve()?;
        if let Ok(before) = self.dates.replace(key, last) {
            self.order.shift(key, before, last);
            return Ok(());
        }
        let own = key.copy()?;
        self.dates.insert(key.copy()?, last)?;
        self.order.insert(own, last);
        Ok(())
    }

    /// Drops a chat from the list, if it is there. Takes no memory.
    pub fn drop_key(&mut self, key: &ChatKey)
        ensures { self.new ≡ without_key key.now self.old }
    {
        if let Some(date) = self.dates.remove(key) {
            self.order.remove(key, date);
        }
    }

    /// The keys of the chats in the order of the list: the latest first, those without a shown row last, and then by
    /// key. Takes no memory.
    pub fn order(&self) -> &[ChatKey]
        ensures keys { result.now ≡ map (λ d. d.0) self.now }
        ensures sorted { IsStrictlySortedBy dated_cmp self.now }
        ensures once { IsDistinct (λ d e. key_eq d.0 e.0) self.now }
    {
        self.order.keys()
    }
}
