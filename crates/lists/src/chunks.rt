//! Values in chunks, one chunk after the other.
ghost use Rattle.std.specs.Prelude.{◌≡◌, ◌<◌, ◌≤◌, ◌++◌, [], ◌∷◌, true, length, slice_get, slice_index_or, slice_set, IfSome, IfNone, OnOk, OnErr};
ghost use Rattle.std.specs.List.{insert, remove};
ghost use Rattle.std.specs.Option.{option_copied};
ghost use Rattle.lists.specs.Chunks.{IsPlace, joined};

use crate::items::Items;
use kit::Memory;
use std::alloc::Global;

/// A chunk with so many values gets no further one.
const FULL: usize = 256;

/// Where a value stands.
#[derive(Clone, Copy)]
pub(crate) struct Place {
    /// The index of its chunk.
    chunk: usize,
    /// Its index in that chunk.
    index: usize,
}

/// Where the value at an index of all stands: `None` exactly where there are fewer.
fn place_of<T>(chunks: &[Items<T>], index: usize) -> Option<Place>
    ensures some { IfSome result (λ place. IsPlace chunks.now index place.chunk place.index) }
    ensures none { IfNone result (length (joined chunks.now) ≤ index) }
{
    let mut chunk = 0;
    let mut rest = index;
    while chunk < chunks.len() {
        let len = chunks[chunk].len();
        if rest < len {
            return Some(Place { chunk, index: rest });
        }
        rest -= len;
        chunk += 1;
    }
    None
}

/// The value at an index of all.
pub(crate) fn get<T>(chunks: &[Items<T>], index: usize) -> Option<&T>
    ensures { option_copied result ≡ slice_get (joined chunks.now) index }
{
    let place = place_of(chunks, index)?;
    let values = chunks[place.chunk].as_slice();
    Some(&values[place.index])
}

/// Moves the later half of the values of a chunk into one of their own.
fn split<T: Drop>(chunks: &mut Vec<Items<T>>, chunk: usize) -> Result<(), Memory>
    ensures { joined chunks.new.items ≡ joined chunks.old.items }
{
    chunks.reserve(1)?;
    let Some(values) = chunks.get_mut(chunk) else {
        return Ok(());
    };
    let half = values.len() / 2;
    let later = values.split_off(half)?;
    let inserted: Result<_, _> = chunks.insert(chunk + 1, later);
    let _ = inserted.unwrap();
    Ok(())
}

/// Sees to it that the chunk of the value at an index of all is not full.
pub(crate) fn make_room<T: Drop>(chunks: &mut Vec<Items<T>>, index: usize) -> Result<(), Memory>
    ensures { joined chunks.new.items ≡ joined chunks.old.items }
{
    match place_of(chunks, index) {
        Some(place) if chunks[place.chunk].len() >= FULL => split(chunks, place.chunk),
        _ => Ok(()),
    }
}

/// Puts a value in at a place.
fn insert_at<T: Drop>(chunks: &mut Vec<Items<T>>, place: Place, value: T) -> Result<(), Memory>
    ensures ok { OnOk result (chunks.new.items ≡ slice_set chunks.old.items place.chunk (insert (slice_index_or chunks.old.items place.chunk []) place.index value)) }
    ensures err { OnErr result (chunks.new.items ≡ chunks.old.items) }
{
    if let Some(values) = chunks.get_mut(place.chunk) {
        values.insert(place.index, value)?;
    }
    Ok(())
}

/// Whether a value can be put in the last chunk.
fn last_has_room<T>(chunks: &[Items<T>]) -> bool
    ensures { result ≡ true → 0 < length chunks.now }
{
    match chunks.last() {
        Some(last) => last.len() < FULL,
        None => false,
    }
}

/// Puts a value in after all others of the last chunk.
fn push_to_last<T: Drop>(chunks: &mut Vec<Items<T>>, value: T) -> Result<(), Memory>
    requires { 0 < length chunks.old.items }
    ensures ok { OnOk result (joined chunks.new.items ≡ joined chunks.old.items ++ value ∷ []) }
    ensures err { OnErr result (joined chunks.new.items ≡ joined chunks.old.items) }
{
    chunks.last_mut().unwrap().push(value)
}

/// Sees to it that the last chunk is there and not full.
fn open_last<T: Drop>(alloc: Global, chunks: &mut Vec<Items<T>>) -> Result<(), Memory>
    ensures there { OnOk result (0 < length chunks.new.items) }
    ensures same { joined chunks.new.items ≡ joined chunks.old.items }
{
    if last_has_room(chunks) {
        return Ok(());
    }
    chunks.push(Items::new(alloc))?;
    Ok(())
}

/// Puts a value in after all others.
pub(crate) fn push<T: Drop>(
    alloc: Global,
    chunks: &mut Vec<Items<T>>,
    value: T,
) -> Result<(), Memory>
    ensures ok { OnOk result (joined chunks.new.items ≡ joined chunks.old.items ++ value ∷ []) }
    ensures err { OnErr result (joined chunks.new.items ≡ joined chunks.old.items) }
{
    open_last(alloc, chunks)?;
    push_to_last(chunks, value)
}

/// Puts a value in at an index of all, and after the last one where there are fewer.
pub(crate) fn insert<T: Drop>(
    alloc: Global,
    chunks: &mut Vec<Items<T>>,
    index: usize,
    value: T,
) -> Result<(), Memory>
    ensures ok { OnOk result (joined chunks.new.items ≡ insert (joined chunks.old.items) index value) }
    ensures err { OnErr result (joined chunks.new.items ≡ joined chunks.old.items) }
{
    match place_of(chunks, index) {
        Some(place) => insert_at(chunks, place, value),
        None => push(alloc, chunks, value),
    }
}

/// Drops a chunk that has no values.
fn drop_empty<T: Drop>(chunks: &mut Vec<Items<T>>, chunk: usize)
    ensures { joined chunks.new.items ≡ joined chunks.old.items }
{
    if chunk < chunks.len() && chunks[chunk].is_empty() {
        let _empty = chunks.remove(chunk);
    }
}

/// Takes out the value at a place.
fn remove_at<T: Drop>(chunks: &mut Vec<Items<T>>, place: Place)
    ensures { chunks.new.items ≡ slice_set chunks.old.items place.chunk (remove (slice_index_or chunks.old.items place.chunk []) place.index) }
{
    if let Some(values) = chunks.get_mut(place.chunk) {
        values.remove(place.index);
    }
}

/// Takes out the value at an index of all, if there is one.
pub(crate) fn remove<T: Drop>(chunks: &mut Vec<Items<T>>, index: usize)
    ensures { joined chunks.new.items ≡ remove (joined chunks.old.items) index }
{
    if let Some(place) = place_of(chunks, index) {
        remove_at(chunks, place);
        drop_empty(chunks, place.chunk);
    }
}

/// Puts a value in place of the one at a place.
fn set_at<T: Drop>(chunks: &mut Vec<Items<T>>, place: Place, value: T)
    ensures { chunks.new.items ≡ slice_set chunks.old.items place.chunk (slice_set (slice_index_or chunks.old.items place.chunk []) place.index value) }
{
    if let Some(values) = chunks.get_mut(place.chunk) {
        values.set(place.index, value);
    }
}

/// Puts a value in place of the one at an index of all, if there is one.
pub(crate) fn set<T: Drop>(chunks: &mut Vec<Items<T>>, index: usize, value: T)
    ensures { joined chunks.new.items ≡ slice_set (joined chunks.old.items) index value }
{
    if let Some(place) = place_of(chunks, index) {
        set_at(chunks, place, value);
    }
}
