//! What a transcript says of the end of a run, and of the shelf after it.
use crate::runs::Ended;
use follow::Status;
use kit::Memory;
use outside::Place;
use scripts::{add_lines, add_number};
use shelves::{Did, MemoryShelf, ShelfCall};
use std::alloc::Global;

/// The words for a status.
fn status_words(status: Status) -> &'static [u8] {
    match status {
        Status::Ok => b"ok",
        Status::Usage => b"usage",
        Status::Read => b"read",
        Status::Steps => b"steps",
        Status::Disk => b"disk",
        Status::Write => b"write",
        Status::Memory => b"memory",
        Status::Full => b"full",
        Status::NoChat => b"no chat",
        Status::Damaged => b"damaged",
        Status::Short => b"short",
        Status::OtherFiles => b"other input",
        Status::OtherMe => b"other address",
        Status::Endless => b"endless",
        Status::NoApp => b"no app",
    }
}

/// Says what a run put, how it ended, and how often it asked the clock, if it did.
pub fn add_ended(said: &mut Vec<u8>, alloc: Global, ended: &Ended) -> Result<(), Memory> {
    add_lines(said, &ended.put)?;
    said.extend_from_slice(b"= ")?;
    said.extend_from_slice(status_words(ended.status))?;
    if ended.asked > 0 {
        said.extend_from_slice(b", clock asked ")?;
        add_number(said, alloc, ended.asked)?;
    }
    Ok(())
}

/// Says in some words how a run ended: `ok` where it put the same as another, `other` where it put something else.
pub fn add_outcome(said: &mut Vec<u8>, ended: &Ended, first: &Ended) -> Result<(), Memory> {
    if ended.status == Status::Ok && ended.put != first.put {
        said.extend_from_slice(b"other")?;
    } else {
        said.extend_from_slice(status_words(ended.status))?;
    }
    Ok(())
}

/// Says how many bytes are kept in each place.
pub fn add_sizes(said: &mut Vec<u8>, alloc: Global, shelf: &MemoryShelf) -> Result<(), Memory> {
    for &place in &[Place::A, Place::B, Place::T] {
        said.extend_from_slice(b", ")?;
        said.extend_from_slice(place_name(place))?;
        said.push(b' ')?;
        add_number(said, alloc, shelf.bytes(place).len() as u64)?;
    }
    Ok(())
}

fn place_name(place: Place) -> &'static [u8] {
    match place {
        Place::A => b"A",
        Place::B => b"B",
        Place::T => b"T",
    }
}

/// Says how many calls of the shelf there were, and each of them.
pub fn add_calls(said: &mut Vec<u8>, alloc: Global, shelf: &MemoryShelf) -> Result<(), Memory> {
    add_number(said, alloc, shelf.calls().len() as u64)?;
    said.extend_from_slice(b" calls\n")?;
    for &call in shelf.calls() {
        add_call(said, alloc, call)?;
    }
    Ok(())
}

/// Says what was done where, and of a read, a write or a cut at which offset and with how many bytes.
fn add_call(said: &mut Vec<u8>, alloc: Global, call: ShelfCall) -> Result<(), Memory> {
    said.extend_from_slice(did_word(call.did))?;
    said.push(b' ')?;
    said.extend_from_slice(place_name(call.place))?;
    if call.did != Did::Size && call.did != Did::Sync {
        said.push(b' ')?;
        add_number(said, alloc, call.at)?;
        said.push(b' ')?;
        add_number(said, alloc, call.len)?;
    }
    said.push(b'\n')?;
    Ok(())
}

fn did_word(did: Did) -> &'static [u8] {
    match did {
        Did::Size => b"size",
        Did::Read => b"read",
        Did::Write => b"write",
        Did::Cut => b"cut",
        Did::Sync => b"sync",
    }
}
