//! A list of values in order for each of some ids.
ghost use Rattle.std.specs.Prelude.{◌≡◌, ◌<◌, ℕ, List, [], false, not, filter, OnOk};
ghost use Rattle.std.specs.List.{list_any};
ghost use Rattle.std.specs.Ordering.{eq_by_cmp};
ghost use Rattle.std.specs.Str.{bytes_eq};
ghost use Rattle.lists.specs.Sorted.{insert_by};
ghost use Rattle.lists.specs.Ordered.{values_at, spare_at};

use crate::sorted_list::SortedList;
use kit::{Id, Memory};
use std::alloc::Global;
use std::collections::BTreeMap;
use std::marker::Model;

/// Values by id, those of each id in their order. A contract asks for the values of an id, by `values_at`, and for
/// the number of values that can be inserted there without memory, by `spare_at`. An id without values is as one that
/// is not there.
#[derive(Drop)]
pub struct SortedById<T: Ord> {
    alloc: Global,
    lists: BTreeMap<Id, SortedList<T>>,
}

impl<T: Ord> Model for SortedById<T> {
    ghost use Rattle.std.specs.Prelude.{ℕ, List};
    ghost use Rattle.std.specs.Coded.{coded_list, coded×, coded_ℕ};
    ghost use Rattle.lists.specs.Ordered.{Ordered, ordered_code};

    ghost Value = { List (List ℕ × Ordered T) };

    ghost coded = { coded_list (coded× (coded_list coded_ℕ) (ordered_code T.code)) };

    ghost view = { λ by_id. by_id.lists.entries };
}

impl<T: Ord + Drop> SortedById<T> {
    /// No values. Takes no memory.
    pub fn new(alloc: Global) -> Self
        ensures { (id : List ℕ) → values_at result id ≡ [] }
    {
        SortedById {
            alloc,
            lists: BTreeMap::new(alloc),
        }
    }

    /// The values of an id, in their order. Takes no memory, and time that grows with the logarithm of the number of ids.
    pub fn get(&self, id: &Id) -> &[T]
        ensures { result.now ≡ values_at self.now id.now }
    {
        match self.lists.get(id) {
            Some(list) => list.as_slice(),
            None => &[],
        }
    }

    /// Makes room for one more value of an id, and changes no values, also where memory runs out. Takes memory; `Err` only
    /// when it runs out.
    pub fn reserve(&mut self, id: &Id) -> Result<(), Memory>
        ensures room { OnOk result (0 < spare_at self.new id.now) }
        ensures same { (other : List ℕ) → values_at self.new other ≡ values_at self.old other }
    {
        if let Some(list) = self.lists.get_mut(id) {
            return list.reserve();
        }
        let mut list = SortedList::new(self.alloc);
        list.reserve()?;
        self.lists.insert(id.copy()?, list)?;
        Ok(())
    }

    /// Inserts a value that ties with none of an id, in its place. Takes no memory: room for it was made before.
    pub fn insert(&mut self, id: &Id, value: T)
        requires room { 0 < spare_at self.old id.now }
        requires absent { list_any (eq_by_cmp T.cmp value) (values_at self.old id.now) ≡ false }
        ensures at { values_at self.new id.now ≡ insert_by T.cmp value (values_at self.old id.now) }
        ensures others { (other : List ℕ) → bytes_eq id.now other ≡ false → values_at self.new other ≡ values_at self.old other }
    {
        if let Some(list) = self.lists.get_mut(id) {
            list.insert(value);
        }
    }

    /// Puts a value of an id in its place, instead of the one that ties with it, where there is one. Takes memory; `Err` only
    /// when it runs out.
    pub fn put(&mut self, id: &Id, value: T) -> Result<(), Memory>
        ensures at { OnOk result (values_at self.new id.now ≡ insert_by T.cmp value (filter (λ other. not (eq_by_cmp T.cmp value other)) (values_at self.old id.now))) }
        ensures others { OnOk result ((other : List ℕ) → bytes_eq id.now other ≡ false → values_at self.new other ≡ values_at self.old other) }
    {
        if let Some(list) = self.lists.get_mut(id) {
            return list.put(value);
        }
        let mut list = SortedList::new(self.alloc);
        list.put(value)?;
        self.lists.insert(id.copy()?, list)?;
        Ok(())
    }

    /// Takes the value of an id out that ties with this one, where there is one. Takes no memory.
    pub fn remove(&mut self, id: &Id, value: &T)
        ensures at { values_at self.new id.now ≡ filter (λ other. not (eq_by_cmp T.cmp value.now other)) (values_at self.old id.now) }
        ensures others { (other : List ℕ) → bytes_eq id.now other ≡ false → values_at self.new other ≡ values_at self.old other }
    {
        self.take_out(id, value);
        self.drop_empty(id);
    }

    /// Takes the value of an id out that ties with this one, and keeps the list of the id also where it has no values.
    fn take_out(&mut self, id: &Id, value: &T)
        ensures at { values_at self.new id.now ≡ filter (λ other. not (eq_by_cmp T.cmp value.now other)) (values_at self.old id.now) }
        ensures others { (other : List ℕ) → bytes_eq id.now other ≡ false → values_at self.new other ≡ values_at self.old other }
    {
        if let Some(list) = self.lists.get_mut(id) {
            list.remove(value);
        }
    }

    /// Drops the list of an id that has no values.
    fn drop_empty(&mut self, id: &Id)
        ensures { (other : List ℕ) → values_at self.new other ≡ values_at self.old other }
    {
        if self.get(id).is_empty() {
            let _empty = self.lists.remove(id);
        }
    }
}
