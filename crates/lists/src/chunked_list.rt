//! Values one after the other, that come and go anywhere.
ghost use Rattle.std.specs.Prelude.{◌≡◌, [], ◌∷◌, ◌++◌, length, OnOk, OnErr, slice_get, slice_set};
ghost use Rattle.std.specs.List.{insert, remove};
ghost use Rattle.std.specs.List.Sorted.{IsBinarySearchResult, IsSearchInRange};
ghost use Rattle.std.specs.Option.{option_copied};
ghost use Rattle.lists.specs.Chunks.{joined};

use crate::chunks::{get, insert, make_room, push, remove, set};
use crate::items::Items;
use kit::Memory;
use std::alloc::Global;
use std::cmp::Ordering;
use std::marker::Model;

/// Values in their order, one of which may be put in or taken out at any index. They stand in chunks of at most 256, so
/// that only the others of its chunk move. A contract sees them as the list of them.
#[derive(Debug, Drop)]
pub struct ChunkedList<T> {
    chunks: Vec<Items<T>>,
    len: usize,
}

impl<T> Model for ChunkedList<T> {
    ghost use Rattle.std.specs.Prelude.{◌≡◌, List, length};
    ghost use Rattle.lists.specs.Chunks.{joined};

    ghost Value = { List T };

    ghost view = { λ list. joined list.chunks.items };

    ghost invariant = { λ list. list.len ≡ length (joined list.chunks.items) };
}

impl<T> ChunkedList<T> {
    /// No values. Takes no memory.
    pub fn new(alloc: Global) -> Self
        ensures { result ≡ [] }
    {
        ChunkedList {
            chunks: Vec::new(alloc),
            len: 0,
        }
    }

    /// The number of values. Takes no memory.
    pub fn len(&self) -> usize
        ensures { result ≡ length self.now }
    {
        self.len
    }

    /// The value at an index, if there is one. Takes no memory.
    pub fn get(&self, index: usize) -> Option<&T>
        ensures { option_copied result ≡ slice_get self.now index }
    {
        get(&self.chunks, index)
    }

    /// The values, chunk by chunk. Takes no memory.
    pub fn chunks(&self) -> &[Items<T>]
        ensures { joined result.now ≡ self.now }
    {
        &self.chunks
    }
}

impl<T: Ord> ChunkedList<T> {
    /// The index of a value that ties with this one, or else, where the values are in order, the index at which this one
    /// comes. Takes no memory.
    pub fn binary_search(&self, value: &T) -> Result<usize, usize>
        ensures bound { IsSearchInRange result (length self.now) }
        ensures position { IsBinarySearchResult (λ other. T.cmp other value.now) self.now result }
    {
        let mut start = 0;
        let mut end = self.len;
        while start < end {
            let middle = start + (end - start) / 2;
            match get(&self.chunks, middle).unwrap().cmp(value) {
                Ordering::Less => start = middle + 1,
                Ordering::Equal => return Ok(middle),
                Ordering::Greater => end = middle,
            }
        }
        Err(start)
    }
}

impl<T: Drop> ChunkedList<T> {
    /// Puts a value after the last one. Takes memory; `Err` only when it runs out, and then the values are as before.
    pub fn push(&mut self, value: T) -> Result<(), Memory>
        ensures ok { OnOk result (self.new ≡ self.old ++ value ∷ []) }
        ensures err { OnErr result (self.new ≡ self.old) }
    {
        let len = self.len.checked_add(1).ok_or(Memory)?;
        push(*self.chunks.allocator(), &mut self.chunks, value)?;
        self.len = len;
        Ok(())
    }

    /// Puts a value in at an index, before those that are there and after, and after the last one where there are fewer.
    /// Takes memory; `Err` only when it runs out, and then the values are as before.
    pub fn insert(&mut self, index: usize, value: T) -> Result<(), Memory>
        ensures ok { OnOk result (self.new ≡ insert self.old index value) }
        ensures err { OnErr result (self.new ≡ self.old) }
    {
        let len = self.len.checked_add(1).ok_or(Memory)?;
        make_room(&mut self.chunks, index)?;
        insert(*self.chunks.allocator(), &mut self.chunks, index, value)?;
        self.len = len;
        Ok(())
    }

    /// Takes out the value at an index, if there is one. Takes no memory.
    pub fn remove(&mut self, index: usize)
        ensures { self.new ≡ remove self.old index }
    {
        if index < self.len {
            remove(&mut self.chunks, index);
            self.len -= 1;
        }
    }

    /// Puts a value in place of the one at an index, if there is one. Takes no memory.
    pub fn set(&mut self, index: usize, value: T)
        ensures { self.new ≡ slice_set self.old index value }
    {
        set(&mut self.chunks, index, value);
    }
}
