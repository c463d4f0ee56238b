//! One list of values in order.
ghost use Rattle.std.specs.Prelude.{◌≡◌, ◌<◌, ◌≤◌, [], false, not, length, filter, IfSome, IfNone, OnOk, OnErr};
ghost use Rattle.std.specs.List.{list_any, insert, remove};
ghost use Rattle.std.specs.List.Sorted.{IsStrictlySortedBy};
ghost use Rattle.std.specs.Ordering.{eq_by_cmp};
ghost use Rattle.lists.specs.Sorted.{insert_by};

use kit::Memory;
use std::alloc::Global;
use std::marker::Model;

/// Values in their order, no two of which tie. A contract sees the list of them, and beside it the number of values that
/// can be inserted without memory.
#[derive(Drop)]
pub struct SortedList<T: Ord> {
    values: Vec<T>,
}

impl<T: Ord> Model for SortedList<T> {
    ghost use Rattle.std.specs.Prelude.{◌-◌, vec_len, vec_capacity};
    ghost use Rattle.std.specs.List.Sorted.{IsStrictlySortedBy};
    ghost use Rattle.lists.specs.Ordered.{Ordered, ordered_code};

    ghost Value = { Ordered T };

    ghost coded = { ordered_code T.code };

    ghost view = { λ list. record { values = list.values.items; spare = vec_capacity list.values - vec_len list.values } };

    ghost invariant = { λ list. IsStrictlySortedBy T.cmp list.values.items };
}

impl<T: Ord + Drop> SortedList<T> {
    /// No values. Takes no memory.
    pub fn new(alloc: Global) -> Self
        ensures { result.values ≡ [] }
    {
        SortedList {
            values: Vec::new(alloc),
        }
    }

    /// The values, in their order. Takes no memory.
    pub fn as_slice(&self) -> &[T]
        ensures values { result.now ≡ self.now.values }
        ensures order { IsStrictlySortedBy T.cmp self.now.values }
    {
        self.values.as_slice()
    }

    /// Makes room for one more value, and changes nothing else, also where memory runs out. Takes memory; `Err` only when
    /// it runs out.
    pub fn reserve(&mut self) -> Result<(), Memory>
        ensures room { OnOk result (0 < self.new.spare) }
        ensures same { self.new.values ≡ self.old.values }
    {
        Ok(self.values.reserve(1)?)
    }

    /// Whether a value ties with this one. Takes no memory, and time that grows with the logarithm of their number.
    pub fn contains(&self, value: &T) -> bool
        ensures { result ≡ list_any (eq_by_cmp T.cmp value.now) self.now.values }
    {
        self.values.binary_search(value).is_ok()
    }

    /// Inserts a value that ties with none, in its place, and returns the index of that place. Takes no memory: room for it
    /// was made before.
    pub fn insert(&mut self, value: T) -> usize
        requires room { 0 < self.old.spare }
        requires absent { list_any (eq_by_cmp T.cmp value) self.old.values ≡ false }
        ensures values { self.new.values ≡ insert_by T.cmp value self.old.values }
        ensures within { result ≤ length self.old.values }
        ensures place { self.new.values ≡ insert self.old.values result value }
    {
        let (Ok(index) | Err(index)) = self.values.binary_search(&value);
        let inserted: Result<_, _> = self.values.insert(index, value);
        inserted.unwrap();
        index
    }

    /// Puts a value in its place, instead of the one that ties with it, where there is one. Takes memory; `Err` only when it
    /// runs out, and then the values are as before.
    pub fn put(&mut self, value: T) -> Result<(), Memory>
        ensures ok { OnOk result (self.new.values ≡ insert_by T.cmp value (filter (λ other. not (eq_by_cmp T.cmp value other)) self.old.values)) }
        ensures err { OnErr result (self.new.values ≡ self.old.values) }
    {
        match self.values.binary_search(&value) {
            Ok(index) => self.values[index] = value,
            Err(index) => self.values.insert(index, value)?,
        }
        Ok(())
    }

    /// Takes the value out that ties with this one, and returns the index that it had: `None` exactly where there is none.
    /// Takes no memory.
    pub fn remove(&mut self, value: &T) -> Option<usize>
        ensures values { self.new.values ≡ filter (λ other. not (eq_by_cmp T.cmp value.now other)) self.old.values }
        ensures within { IfSome result (λ index. index < length self.old.values) }
        ensures place { IfSome result (λ index. self.new.values ≡ remove self.old.values index) }
        ensures none { IfNone result (self.new.values ≡ self.old.values) }
    {
        match self.values.binary_search(value) {
            Ok(index) => {
                let _removed = self.values.remove(index);
                Some(index)
            }
            Err(_) => None,
        }
    }
}
