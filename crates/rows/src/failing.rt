//! Runs of which one call of a device fails, and runs that are made again over what they kept.
use crate::disk::{Faults, with_faults};
use crate::ends::add_outcome;
use crate::loops::Numbers;
use crate::runs::{Ended, Fails, Files, run_words};
use kit::{Memory, Text};
use outside::Place;
use scripts::Ranges;
use shelves::MemoryShelf;
use std::alloc::Global;

/// How the run ends of which no call fails, and what it keeps.
#[derive(Drop)]
struct Whole {
    ended: Ended,
    shelf: MemoryShelf,
}

/// The call of the shelf that fails, where the shelf is the device with this name.
fn shelf_faults(device: &[u8], call: u64) -> Faults {
    if device == b"shelf".as_slice() {
        Faults {
            fails: call,
            stop: 0,
        }
    } else {
        Faults::NONE
    }
}

/// The call of another device that fails.
fn other_fails(device: &[u8], call: u64) -> Fails {
    let mut fails = Fails::NONE;
    fails.set(device, call);
    fails
}

/// The run over a shelf of which no call fails.
fn whole_run(
    alloc: Global,
    words: &[Text],
    files: &Files,
    shelf: &MemoryShelf,
) -> Result<Whole, Memory> {
    let mut shelf = with_faults(alloc, shelf, Faults::NONE)?;
    let ended = run_words(alloc, words, files, Fails::NONE, &mut shelf)?;
    Ok(Whole { ended, shelf })
}

/// Whether two shelves keep the same bytes in each place.
fn keep_the_same(one: &MemoryShelf, other: &MemoryShelf) -> bool {
    one.bytes(Place::A) == other.bytes(Place::A)
        && one.bytes(Place::B) == other.bytes(Place::B)
        && one.bytes(Place::T) == other.bytes(Place::T)
}

/// Adds whether a run put a prefix of what the whole one puts, and whether it kept all that that one keeps.
fn add_put(
    told: &mut Vec<u8>,
    ended: &Ended,
    kept: &MemoryShelf,
    whole: &Whole,
) -> Result<(), Memory> {
    told.extend_from_slice(if whole.ended.put.starts_with(&ended.put) {
        b", a prefix put"
    } else {
        b", other bytes put"
    })?;
    told.extend_from_slice(if keep_the_same(kept, &whole.shelf) {
        b", all kept"
    } else {
        b", not all kept"
    })?;
    Ok(())
}

/// Adds how the run goes that is made again over what one kept of which a call failed.
fn add_again(
    told: &mut Vec<u8>,
    alloc: Global,
    words: &[Text],
    files: &Files,
    kept: &MemoryShelf,
    whole: &Whole,
) -> Result<(), Memory> {
    let again = whole_run(alloc, words, files, kept)?;
    told.extend_from_slice(b", again ")?;
    add_outcome(told, &again.ended, &whole.ended)
}

/// How the run ends of which a call of a device fails, and how it goes again.
fn told_of_fail(
    alloc: Global,
    words: &[Text],
    files: &Files,
    shelf: &MemoryShelf,
    whole: &Whole,
    device: &[u8],
    call: u64,
) -> Result<Vec<u8>, Memory> {
    let mut told = Vec::new(alloc);
    let mut kept = with_faults(alloc, shelf, shelf_faults(device, call))?;
    let fails = other_fails(device, call);
    let ended = run_words(alloc, words, files, fails, &mut kept)?;
    add_outcome(&mut told, &ended, &whole.ended)?;
    if device == b"put".as_slice() {
        add_put(&mut told, &ended, &kept, whole)?;
    }
    add_again(&mut told, alloc, words, files, &kept, whole)?;
    Ok(told)
}

/// Says how the run over a shelf goes of which each of these calls of a device fails, and how it goes again.
pub fn add_fails(
    said: &mut Vec<u8>,
    alloc: Global,
    words: &[Text],
    files: &Files,
    shelf: &MemoryShelf,
    device: &[u8],
    calls: Numbers,
) -> Result<(), Memory> {
    let whole = whole_run(alloc, words, files, shelf)?;
    let mut ranges = Ranges::new(alloc);
    for call in calls.first..calls.last.saturating_add(1) {
        let told = told_of_fail(alloc, words, files, shelf, &whole, device, call)?;
        ranges.tell(said, alloc, call, told)?;
    }
    ranges.end(said, alloc)
}
