//! The dates of chats in order.
ghost use Rattle.std.specs.Prelude.{◌≡◌, ◌<◌, ◌≤◌, [], true, length, slice_index_or, OnOk};
ghost use Rattle.std.specs.List.{insert, remove};
ghost use Rattle.chatlist.specs.Dates.{IsDateFit};

use crate::two_ended::TwoEnded;
use kit::Memory;
use std::alloc::Global;
use std::marker::Model;

/// The date of each of some chats, of which those without one come last: so only the dates that are there are kept. A
/// contract sees the list of all, and whether one can come in without memory.
#[derive(Drop)]
pub(crate) struct Dates {
    known: TwoEnded<u64>,
    // Of how many chats, those without a date among them.
    len: usize,
}

impl Model for Dates {
    ghost use Rattle.std.specs.Prelude.{◌≤◌, ◌&&◌, ℕ, Option, length, nat_lt};
    ghost use Rattle.chatlist.specs.Dates.{padded};
    ghost use Rattle.chatlist.specs.Ends.{Ends};

    ghost Value = { Ends (Option ℕ) };

    ghost view = { λ dates. record { values = padded dates.known.values dates.len; has_room = dates.known.has_room && nat_lt dates.len 18446744073709551615 } };

    ghost invariant = { λ dates. length dates.known.values ≤ dates.len };
}

impl Dates {
    /// No dates. Takes no memory.
    pub(crate) fn new(alloc: Global) -> Self
        ensures { result.values ≡ [] }
    {
        Dates {
            known: TwoEnded::new(alloc),
            len: 0,
        }
    }

    /// The date at an index, if one is known. Takes no memory.
    pub(crate) fn at(&self, index: usize) -> Option<u64>
        requires { index < length self.now.values }
        ensures { result ≡ slice_index_or self.now.values index result }
    {
        self.known.as_slice().get(index).copied()
    }

    /// Makes room for one more date. Takes memory; `Err` only when it runs out.
    pub(crate) fn reserve(&mut self) -> Result<(), Memory>
        ensures room { OnOk result (self.new.has_room ≡ true) }
        ensures same { self.new.values ≡ self.old.values }
    {
        self.len.checked_add(1).ok_or(Memory)?;
        self.known.reserve()
    }

    /// Puts a date in at an index. Takes no memory: room for it was made before.
    pub(crate) fn insert(&mut self, index: usize, date: Option<u64>)
        requires room { self.old.has_room ≡ true }
        requires within { index ≤ length self.old.values }
        requires fit { IsDateFit date index self.old.values }
        ensures { self.new.values ≡ insert self.old.values index date }
    {
        self.len += 1;
        if let Some(date) = date {
            self.known.insert(index, date);
        }
    }

    /// Takes the date at an index out. Takes no memory.
    pub(crate) fn remove(&mut self, index: usize)
        requires { index < length self.old.values }
        ensures { self.new.values ≡ remove self.old.values index }
    {
        self.len -= 1;
        if index < self.known.len() {
            self.known.remove(index);
        }
    }

    /// Takes the date at one index out and puts another one in at another index. Where both are known, only those between the
    /// two move. Takes no memory: room for one was made before.
    pub(crate) fn turn(&mut self, from: usize, to: usize, date: Option<u64>)
        requires room { self.old.has_room ≡ true }
        requires from { from < length self.old.values }
        requires to { to < length self.old.values }
        requires fit { IsDateFit date to (remove self.old.values from) }
        ensures { self.new.values ≡ insert (remove self.old.values from) to date }
    {
        let was_known = from < self.known.len();
        match date {
            Some(date) if was_known => {
                self.known.set(from, date);
                self.known.turn(from, to);
            }
            Some(date) => self.known.insert(to, date),
            None if was_known => self.known.remove(from),
            None => {}
        }
    }
}
