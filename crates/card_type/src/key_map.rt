//! A map by the keys of chats.
ghost use Rattle.std.specs.Prelude.{◌≡◌, None, Some, IfErr, IfOk, OnOk, OnErr};
ghost use Rattle.std.specs.FinMap as map;
ghost use Rattle.std.specs.Option.{option_copied};
ghost use Rattle.std.specs.Map.Iter.{ShowsInOrder, deref_pair};
ghost use Rattle.card_type.specs.Keys.{key_cmp, coded_key};

use crate::key::ChatKey;
use kit::Memory;
use std::alloc::Global;
use std::collections::BTreeMap;
use std::collections::btree_map::Iter;
use std::marker::Model;
use std::mem;

/// A value for each of some chats, by key. A contract sees it as a finite map.
#[derive(Drop)]
pub struct KeyMap<V> {
    values: BTreeMap<ChatKey, V>,
}

impl<V> Model for KeyMap<V> {
    ghost Value = { map.FinMap key_cmp V };

    ghost coded = { map.code coded_key V.code };

    ghost view = { λ key_map. map.from_entries key_map.values.entries };
}

impl<V: Drop> KeyMap<V> {
    /// A map without keys. Takes no memory.
    pub fn new(alloc: Global) -> Self
        ensures { result ≡ map.empty }
    {
        KeyMap {
            values: BTreeMap::new(alloc),
        }
    }

    /// The value of a key: `None` exactly where it has none. Takes no memory.
    pub fn get(&self, key: &ChatKey) -> Option<&V>
        ensures { option_copied result ≡ map.get self.now key.now }
    {
        self.values.get(key)
    }

    /// The entries, each once, in the order of their keys. Takes no memory.
    pub fn iter(&self) -> Iter<'_, ChatKey, V>
        ensures rest { result ≡ map.entries self.now }
        ensures runs { ShowsInOrder (deref_pair {K = ChatKey} {X = V}) }
    {
        self.values.iter()
    }

    /// Gives a key a value, and returns the value that it had. Takes memory; `Err` only when it runs out, and
    /// then the map is as before.
    pub fn insert(&mut self, key: ChatKey, value: V) -> Result<Option<V>, Memory>
        ensures before { IfOk result (λ before. before ≡ map.get self.old key) }
        ensures ok { OnOk result (self.new ≡ map.insert self.old key value) }
        ensures err { OnErr result (self.new ≡ self.old) }
    {
        Ok(self.values.insert(key, value)?)
    }

    /// Takes the value of a key out of the map: `None` exactly where it has none. Takes no memory.
    pub fn remove(&mut self, key: &ChatKey) -> Option<V>
        ensures before { result ≡ map.get self.old key.now }
        ensures after { self.new ≡ map.remove self.old key.now }
    {
        self.values.remove(key)
    }

    /// Gives another value to a key that has one, and returns the one before. `Err` gives the value back, exactly where the
    /// key has none, and then the map is as before. Takes no memory.
    pub fn replace(&mut self, key: &ChatKey, value: V) -> Result<V, V>
        ensures before { IfOk result (λ before. map.get self.old key.now ≡ Some before) }
        ensures ok { OnOk result (self.new ≡ map.insert self.old key.now value) }
        ensures back { IfErr result (λ back. (back ≡ value) × (map.get self.old key.now ≡ None)) }
        ensures err { OnErr result (self.new ≡ self.old) }
    {
        match self.values.get_mut(key) {
            Some(place) => Ok(mem::replace(place, value)),
            None => Err(value),
        }
    }
}
