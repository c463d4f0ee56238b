//! Lists that contracts see as plain lists.
ghost use Rattle.std.specs.Prelude.{◌≡◌, ◌==◌, List, [], ◌∷◌, ◌++◌, ◌≤◌, length, take, drop, IfOk, OnOk, OnErr, slice_set};
ghost use Rattle.std.specs.Fn.{CalledAt};
ghost use Rattle.std.specs.List.{insert, remove};
ghost use Rattle.std.specs.List.Retain.{IsFiltered};
ghost use Rattle.std.specs.Cmp.Lexicographic.{pointwise, lists_per, lists_equiv};
ghost use Rattle.std.proofs.Common.{rules};

use kit::{Addr, Id, Memory, Text};
use std::alloc::{AllocError, Global};
use std::marker::Model;

/// A type whose clones equal their source, as far as a contract sees them.
pub trait Exact: Clone {
    ghost same: { (source copy : Self) → Self.is_clone source copy → copy ≡ source };
}

impl Exact for Text {
    ghost same = { Prim.search rules };
}

impl Exact for Id {
    ghost same = { Prim.search rules };
}

impl Exact for Addr {
    ghost same = { Prim.search rules };
}

/// Values in their order. A contract sees them as the list of them, where of a `Vec` it would also see
/// how much memory it has.
#[derive(Debug, Drop)]
pub struct Items<T> {
    values: Vec<T>,
}

impl<T> Model for Items<T> {
    ghost Value = { List T };

    ghost view = { λ items. items.values.items };
}

impl<T: Drop> From<Vec<T>> for Items<T> {
    ghost from_gives = { λ values items. items ≡ values.items };

    /// The values of the vector, in their order. Takes no memory.
    fn from(values: Vec<T>) -> Self {
        Items { values }
    }
}

impl<T> Items<T> {
    /// No values. Takes no memory.
    pub fn new(alloc: Global) -> Self
        ensures { result ≡ [] }
    {
        Items {
            values: Vec::new(alloc),
        }
    }

    /// The values as a slice. Takes no memory.
    pub fn as_slice(&self) -> &[T]
        ensures { result.now ≡ self.now }
    {
        self.values.as_slice()
    }

    /// The number of values. Takes no memory.
    pub fn len(&self) -> usize
        ensures { result ≡ length self.now }
    {
        self.values.len()
    }

    /// Whether there are none. Takes no memory.
    pub fn is_empty(&self) -> bool
        ensures { result ≡ (length self.now == 0) }
    {
        self.values.is_empty()
    }
}

impl<T: Drop> Items<T> {
    /// Puts a value after the last one. Takes memory; `Err` only when it runs out, and then the values are as
    /// before.
    pub fn push(&mut self, value: T) -> Result<(), Memory>
        ensures ok { OnOk result (self.new ≡ self.old ++ value ∷ []) }
        ensures err { OnErr result (self.new ≡ self.old) }
    {
        self.values.push(value)?;
        Ok(())
    }

    /// Puts a value in at an index, before those that are there and after, and after the last one where there are fewer.
    /// Takes memory; `Err` only when it runs out, and then the values are as before.
    pub fn insert(&mut self, index: usize, value: T) -> Result<(), Memory>
        ensures ok { OnOk result (self.new ≡ insert self.old index value) }
        ensures err { OnErr result (self.new ≡ self.old) }
    {
        if index < self.values.len() {
            self.values.insert(index, value)?;
        } else {
            self.values.push(value)?;
        }
        Ok(())
    }

    /// Takes out the value at an index, if there is one. Takes no memory.
    pub fn remove(&mut self, index: usize)
        ensures { self.new ≡ remove self.old index }
    {
        if index < self.values.len() {
            let _removed = self.values.remove(index);
        }
    }

    /// Keeps the values that pass a test, in their order. Takes no memory.
    pub fn retain<F: FnMut(&T) -> bool>(&mut self, test: F)
        requires { F.IsAlwaysCallable test }
        ensures { IsFiltered (CalledAt F.FnMut) test self.old self.new }
    {
        self.values.retain(test);
    }

    /// Takes out the values from an index on. Takes memory for them; `Err` only when it runs out, and then the values are
    /// as before.
    pub fn split_off(&mut self, index: usize) -> Result<Self, Memory>
        requires within { index ≤ length self.old }
        ensures left { OnOk result (self.new ≡ take index self.old) }
        ensures taken { IfOk result (λ taken. taken ≡ drop index self.old) }
        ensures err { OnErr result (self.new ≡ self.old) }
    {
        Ok(Items {
            values: self.values.split_off(index)?,
        })
    }

    /// Puts a value in place of the one at an index, if there is one. Takes no memory.
    pub fn set(&mut self, index: usize, value: T)
        ensures { self.new ≡ slice_set self.old index value }
    {
        if let Some(there) = self.values.get_mut(index) {
            *there = value;
        }
    }
}

impl<T: Exact> Items<T> {
    /// A copy of the values. Takes memory; `Err` only when it runs out.
    pub fn copy(&self) -> Result<Self, Memory>
        ensures { IfOk result (λ copy. copy ≡ self.now) }
    {
        Ok(self.clone()?)
    }
}

/// A copy of a value that may be missing. Takes memory; `Err` only when it runs out.
pub fn copy_option<T: Exact>(value: &Option<T>) -> Result<Option<T>, Memory>
    ensures { IfOk result (λ copy. copy ≡ value.now) }
{
    match value {
        Some(value) => Ok(Some(value.clone()?)),
        None => Ok(None),
    }
}

impl<T: Exact> Clone for Items<T> {
    ghost is_clone = { λ source copy. copy ≡ source };

    // A loop of our own: it asks less of the prover than what the vector's clone promises.
    fn clone(&self) -> Result<Self, AllocError> {
        let mut values = Vec::with_capacity(*self.values.allocator(), self.values.len())?;
        for value in &self.values {
            values.push(value.clone()?)?;
        }
        Ok(Items { values })
    }
}

impl<T: Exact> Exact for Items<T> {
    ghost same = { λ source copy h. h };
}

impl<T: PartialEq> PartialEq for Items<T> {
    ghost eq = { pointwise T.eq };

    ghost laws = { lists_per T.PartialEq.laws };

    fn eq(&self, other: &Self) -> bool {
        self.values == other.values
    }
}

impl<T: Eq> Eq for Items<T> {
    ghost laws = { lists_equiv T.Eq.laws };
}
