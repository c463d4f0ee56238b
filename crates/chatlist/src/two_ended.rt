//! Values with room at both ends.
ghost use Rattle.std.specs.Prelude.{◌≡◌, ◌≤◌, ◌<◌, [], true, length, drop, slice_set, IfOk, OnOk, OnErr};
ghost use Rattle.std.specs.List.{insert, remove, slice_index_or};

use card_type::ChatKey;
use kit::Memory;
use std::alloc::Global;
use std::marker::Model;

/// A value that can fill room that is not used.
pub(crate) trait Filler {
    /// Any value of the type that takes no memory.
    fn filler() -> Self;
}

impl Filler for ChatKey {
    fn filler() -> Self {
        ChatKey::SelfChat
    }
}

impl Filler for u64 {
    fn filler() -> Self {
        0
    }
}

/// Values in one piece of memory, with room before the first and after the last one, so that one that comes in moves only
/// those on its shorter side. A contract sees the list of them, and whether one can come in without memory.
#[derive(Drop)]
pub(crate) struct TwoEnded<T> {
    // Up to `start` stands what fills the room at the front.
    start: usize,
    items: Vec<T>,
}

impl<T> Model for TwoEnded<T> {
    ghost use Rattle.std.specs.Prelude.{◌≤◌, drop, length, nat_lt, vec_len, vec_capacity};
    ghost use Rattle.chatlist.specs.Ends.{Ends, ends_code};

    ghost Value = { Ends T };

    ghost coded = { ends_code T.code };

    ghost view = { λ ends. record { values = drop ends.start ends.items.items; has_room = nat_lt (vec_len ends.items) (vec_capacity ends.items) } };

    ghost invariant = { λ ends. ends.start ≤ length ends.items.items };
}

/// So many fillers.
fn fillers<T: Filler + Drop>(alloc: Global, count: usize) -> Result<Vec<T>, Memory>
    ensures { IfOk result (λ made. length made.items ≡ count) }
{
    let mut made = Vec::new(alloc);
    for _ in 0..count {
        made.push(T::filler())?;
    }
    Ok(made)
}

/// Makes as much room before the values as they take, and answers how many fillers stand there now. Takes memory; `Err` only
/// when it runs out, and then they are as before.
fn make_front<T: Filler + Drop>(items: &mut Vec<T>) -> Result<usize, Memory>
    ensures values { IfOk result (λ room. drop room items.new.items ≡ items.old.items) }
    ensures within { IfOk result (λ room. room ≤ length items.new.items) }
    ensures err { OnErr result (items.new.items ≡ items.old.items) }
{
    let room = items.len().max(1);
    let mut longer = fillers(*items.allocator(), room)?;
    longer.append(items)?;
    *items = longer;
    Ok(room)
}

/// Moves a value from one index to another one. Only the values between the two move with it.
fn turn<T>(values: &mut [T], from: usize, to: usize)
    requires from { from < length values.old }
    requires to { to < length values.old }
    ensures { (d : T) → values.new ≡ insert (remove values.old from) to (slice_index_or values.old from d) }
{
    if from < to {
        values[from..to + 1].rotate_left(1);
    } else {
        values[to..from + 1].rotate_right(1);
    }
}

impl<T: Filler + Drop> TwoEnded<T> {
    /// No values. Takes no memory.
    pub(crate) fn new(alloc: Global) -> Self
        ensures { result.values ≡ [] }
    {
        TwoEnded {
            start: 0,
            items: Vec::new(alloc),
        }
    }

    /// The values. Takes no memory.
    pub(crate) fn as_slice(&self) -> &[T]
        ensures { result.now ≡ self.now.values }
    {
        &self.items[self.start..]
    }

    /// The number of values. Takes no memory.
    pub(crate) fn len(&self) -> usize
        ensures { result ≡ length self.now.values }
    {
        self.items.len() - self.start
    }

    /// The value at an index. Takes no memory.
    pub(crate) fn at(&self, index: usize) -> &T
        requires { index < length self.now.values }
        ensures { result.now ≡ slice_index_or self.now.values index result.now }
    {
        &self.as_slice()[index]
    }

    /// Makes room for one more value, and changes nothing else, also where memory runs out. Takes memory; `Err` only when it
    /// runs out.
    pub(crate) fn reserve(&mut self) -> Result<(), Memory>
        ensures room { OnOk result (self.new.has_room ≡ true) }
        ensures same { self.new.values ≡ self.old.values }
    {
        if self.start == 0 {
            self.start = make_front(&mut self.items)?;
        }
        self.items.reserve(1)?;
        Ok(())
    }

    /// Puts a value in at an index. Takes no memory: room for it was made before.
    pub(crate) fn insert(&mut self, index: usize, value: T)
        requires room { self.old.has_room ≡ true }
        requires within { index ≤ length self.old.values }
        ensures { self.new.values ≡ insert self.old.values index value }
    {
        let after = self.len() - index;
        if index < after && 0 < self.start {
            self.start -= 1;
            self.items[self.start] = value;
            turn(&mut self.items, self.start, self.start + index);
        } else {
            let inserted: Result<_, _> = self.items.insert(self.start + index, value);
            let _ = inserted.unwrap();
        }
    }

    /// Takes the value at an index out. Takes no memory.
    pub(crate) fn remove(&mut self, index: usize)
        requires { index < length self.old.values }
        ensures { self.new.values ≡ remove self.old.values index }
    {
        self.items.remove(self.start + index);
    }

    /// Puts a value in place of the one at an index. Takes no memory.
    pub(crate) fn set(&mut self, index: usize, value: T)
        requires { index < length self.old.values }
        ensures { self.new.values ≡ slice_set self.old.values index value }
    {
        self.items[self.start + index] = value;
    }

    /// Moves a value from one index to another one. Only the values between the two move with it. Takes no memory.
    pub(crate) fn turn(&mut self, from: usize, to: usize)
        requires from { from < length self.old.values }
        requires to { to < length self.old.values }
        ensures { (d : T) → self.new.values ≡ insert (remove self.old.values from) to (slice_index_or self.old.values from d) }
    {
        turn(&mut self.items, self.start + from, self.start + to);
    }
}
