//! The shelf of a script: how it is made, and what it is made into.
use crate::kept::{changed, place_of};
use kit::Memory;
use outside::Place;
use scripts::{first_word, number};
use shelves::{Crash, MemoryShelf};
use std::alloc::Global;

/// The number of bytes for which each place of a shelf has room.
const ROOM: usize = 120_000;

/// The number of calls that a shelf records.
const CALLS: usize = 128;

/// The calls of a shelf that fail: the one with the number `fails`, and all from the number `stop` on. 0 is no call.
#[derive(Clone, Copy)]
pub struct Faults {
    pub fails: u64,
    pub stop: u64,
}

impl Faults {
    pub const NONE: Faults = Faults { fails: 0, stop: 0 };
}

/// A shelf with these contents, or with none where there is no room for them.
fn shelf_of(
    alloc: Global,
    a: &[u8],
    b: &[u8],
    t: &[u8],
    faults: Faults,
) -> Result<MemoryShelf, Memory> {
    let stop = if faults.stop == 0 {
        None
    } else {
        Some(faults.stop)
    };
    let fails = [faults.fails].to_vec(alloc)?;
    if a.len() > ROOM || b.len() > ROOM || t.len() > ROOM {
        return MemoryShelf::new(alloc, &[], &[], &[], ROOM, CALLS, fails, stop);
    }
    MemoryShelf::new(alloc, a, b, t, ROOM, CALLS, fails, stop)
}

/// A shelf in which nothing is kept, and whose calls don't fail.
pub fn empty_shelf(alloc: Global) -> Result<MemoryShelf, Memory> {
    shelf_of(alloc, &[], &[], &[], Faults::NONE)
}

/// The same contents in a shelf whose calls fail so.
pub fn with_faults(
    alloc: Global,
    shelf: &MemoryShelf,
    faults: Faults,
) -> Result<MemoryShelf, Memory> {
    let (a, b, t) = (
        shelf.bytes(Place::A),
        shelf.bytes(Place::B),
        shelf.bytes(Place::T),
    );
    shelf_of(alloc, a, b, t, faults)
}

/// The same contents with other bytes in one place.
pub fn with_place(
    alloc: Global,
    shelf: &MemoryShelf,
    place: Place,
    bytes: &[u8],
) -> Result<MemoryShelf, Memory> {
    let (a, b, t) = (
        shelf.bytes(Place::A),
        shelf.bytes(Place::B),
        shelf.bytes(Place::T),
    );
    match place {
        Place::A => shelf_of(alloc, bytes, b, t, Faults::NONE),
        Place::B => shelf_of(alloc, a, bytes, t, Faults::NONE),
        Place::T => shelf_of(alloc, a, b, bytes, Faults::NONE),
    }
}

/// The crash that a word names.
fn crash_of(word: &[u8]) -> Crash {
    match word {
        b"old" => Crash::Old,
        b"new" => Crash::New,
        _ => Crash::Ones,
    }
}

/// The faults of a shelf that a command has one call or all calls from it on fail.
fn faults_of(command: &[u8], call: u64) -> Faults {
    if command == b"stop".as_slice() {
        Faults {
            fails: 0,
            stop: call,
        }
    } else {
        Faults {
            fails: call,
            stop: 0,
        }
    }
}

/// The shelf that a command makes of one and of some fields, or `None` where the command makes none.
pub fn next_shelf(
    alloc: Global,
    shelf: &MemoryShelf,
    fields: &[Vec<u8>],
    command: &[u8],
    words: &[u8],
) -> Result<Option<MemoryShelf>, Memory> {
    let (word, rest) = first_word(words);
    match command {
        b"copy" => copied(alloc, shelf, word, rest),
        b"shelf" | b"anew" => Ok(Some(empty_shelf(alloc)?)),
        b"crash" => Ok(Some(shelf.crash(crash_of(word))?)),
        b"fail" | b"stop" if word == b"shelf".as_slice() => {
            Ok(Some(with_faults(alloc, shelf, faults_of(command, number(rest)))?))
        }
        _ => match place_of(word) {
            Some(place) => changed_place(alloc, shelf, fields, command, place, rest),
            None => Ok(None),
        },
    }
}

/// The same contents with those of one place in another one too, where the words name places.
fn copied(
    alloc: Global,
    shelf: &MemoryShelf,
    from: &[u8],
    to: &[u8],
) -> Result<Option<MemoryShelf>, Memory> {
    match (place_of(from), place_of(to)) {
        (Some(from), Some(to)) => Ok(Some(with_place(alloc, shelf, to, shelf.bytes(from))?)),
        _ => Ok(None),
    }
}

/// The shelf that a command makes by a change of one place.
fn changed_place(
    alloc: Global,
    shelf: &MemoryShelf,
    fields: &[Vec<u8>],
    command: &[u8],
    place: Place,
    rest: &[u8],
) -> Result<Option<MemoryShelf>, Memory> {
    match changed(alloc, shelf.bytes(place), fields, command, rest)? {
        Some(bytes) => Ok(Some(with_place(alloc, shelf, place, &bytes)?)),
        None => Ok(None),
    }
}
