//! Chats in order, each with its date.
ghost use Rattle.std.specs.Prelude.{◌≡◌, ◌<◌, ◌≤◌, ◌+◌, ◌⊎◌, true, None, Some, [], length, map, OnOk};
ghost use Rattle.std.specs.BTreeMap.{is_at};
ghost use Rattle.std.specs.List.{IsDistinct};
ghost use Rattle.std.specs.List.Sorted.{IsStrictlySortedBy};
ghost use Rattle.std.specs.Map.{lookup};
ghost use Rattle.std.specs.Ordering.{is_lt};
ghost use Rattle.card_type.specs.Keys.{key_cmp};
ghost use Rattle.lists.specs.Sorted.{insert_by};
ghost use Rattle.mailbox_model.specs.ChatList.{dated_cmp};
ghost use Rattle.chatlist.specs.Places.{with_place, without_key};
ghost use Rattle.chatlist.specs.Orders.{IsPlaceOf, same_key};

use crate::dates::Dates;
use crate::two_ended::TwoEnded;
use card_type::ChatKey;
use kit::Memory;
use std::alloc::Global;
use std::cmp::Ordering;
use std::marker::Model;

/// Chats, each with the date of its last shown row, in the order of the list; no key is there twice. The keys stand
/// alone, so that they can be lent.
#[derive(Drop)]
pub(crate) struct Order {
    // With room at the front, since a chat that begins is most often among the latest.
    keys: TwoEnded<ChatKey>,
    // The date of each, at the index of its key.
    dates: Dates,
}

impl Model for Order {
    ghost use Rattle.std.specs.Prelude.{◌≡◌, ◌&&◌, length};
    ghost use Rattle.std.specs.List.{zip, IsDistinct};
    ghost use Rattle.std.specs.List.Sorted.{IsStrictlySortedBy};
    ghost use Rattle.mailbox_model.specs.ChatList.{dated_cmp};
    ghost use Rattle.chatlist.specs.Orders.{Order, same_key};

    ghost Value = { Order };

    ghost view = { λ order. record {
      chats = zip order.keys.values order.dates.values;
      has_room = order.keys.has_room && order.dates.has_room;
    } };

    ghost invariant = { λ order. (length order.keys.values ≡ length order.dates.values)
        × IsStrictlySortedBy dated_cmp (zip order.keys.values order.dates.values)
        × IsDistinct same_key (zip order.keys.values order.dates.values) };
}

/// Whether a chat comes before another one: the later first, chats without a date last, and then by key.
fn is_before(key: &ChatKey, date: Option<u64>, other: &ChatKey, other_date: Option<u64>) -> bool
    ensures { result ≡ is_lt (dated_cmp (key.now, date) (other.now, other_date)) }
{
    // The keys are read only where the dates are equal.
    match other_date.cmp(&date) {
        Ordering::Less => true,
        Ordering::Equal => key.cmp(other).is_lt(),
        Ordering::Greater => false,
    }
}

/// The index that a place in a list has after the value at another index was taken out.
fn place_without(place: usize, from: usize) -> usize
    ensures { ((from < place) × (result + 1 ≡ place)) ⊎ ((place ≤ from) × (result ≡ place)) }
{
    if from < place { place - 1 } else { place }
}

impl Order {
    /// No chats. Takes no memory.
    pub(crate) fn new(alloc: Global) -> Self
        ensures { result.chats ≡ [] }
    {
        Order {
            keys: TwoEnded::new(alloc),
            dates: Dates::new(alloc),
        }
    }

    /// The keys, in order. Takes no memory.
    pub(crate) fn keys(&self) -> &[ChatKey]
        ensures keys { result.now ≡ map (λ d. d.0) self.now.chats }
        ensures sorted { IsStrictlySortedBy dated_cmp self.now.chats }
        ensures once { IsDistinct same_key self.now.chats }
    {
        self.keys.as_slice()
    }

    /// Makes room for one more chat. Takes memory; `Err` only when it runs out.
    pub(crate) fn reserve(&mut self) -> Result<(), Memory>
        ensures room { OnOk result (self.new.has_room ≡ true) }
        ensures same { self.new.chats ≡ self.old.chats }
    {
        self.keys.reserve()?;
        self.dates.reserve()
    }

    /// The index of the first chat that does not come before this one, and the number of chats where there is none.
    fn place_of(&self, key: &ChatKey, date: Option<u64>) -> usize
        ensures bound { result ≤ length self.now.chats }
        ensures place { IsPlaceOf (key.now, date) self.now.chats result }
    {
        let mut start = 0;
        let mut end = self.keys.len();
        while start < end {
            let middle = start + (end - start) / 2;
            if is_before(self.keys.at(middle), self.dates.at(middle), key, date) {
                start = middle + 1;
            } else {
                end = middle;
            }
        }
        start
    }

    /// Puts a chat that is not there at its place. Takes no memory: room for it was made before.
    pub(crate) fn insert(&mut self, key: ChatKey, date: Option<u64>)
        requires room { self.old.has_room ≡ true }
        requires absent { lookup (is_at (key_cmp key)) self.old.chats ≡ None }
        ensures { self.new.chats ≡ insert_by dated_cmp (key, date) self.old.chats }
    {
        let place = self.place_of(&key, date);
        self.keys.insert(place, key);
        self.dates.insert(place, date);
    }

    /// Takes out a chat that has this date. Takes no memory.
    pub(crate) fn remove(&mut self, key: &ChatKey, date: Option<u64>)
        requires { lookup (is_at (key_cmp key.now)) self.old.chats ≡ Some date }
        ensures { self.new.chats ≡ without_key key.now self.old.chats }
    {
        let place = self.place_of(key, date);
        self.keys.remove(place);
        self.dates.remove(place);
    }

    /// Puts a chat that has the date `before` at the place that another date gives it. Takes no memory: room for one was made
    /// before.
    pub(crate) fn shift(&mut self, key: &ChatKey, before: Option<u64>, date: Option<u64>)
        requires room { self.old.has_room ≡ true }
        requires date { lookup (is_at (key_cmp key.now)) self.old.chats ≡ Some before }
        ensures { self.new.chats ≡ with_place key.now date self.old.chats }
    {
        // For its clauses `sorted` and `once`.
        let _keys = self.keys();
        if before == date {
            return;
        }
        let from = self.place_of(key, before);
        let to = place_without(self.place_of(key, date), from);
        self.keys.turn(from, to);
        self.dates.turn(from, to, date);
    }
}
