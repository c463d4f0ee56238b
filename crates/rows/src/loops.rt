//! Runs that are made at each of many numbers: of the call at which they are stopped, or of the bytes that are kept.
use crate::disk::{Faults, empty_shelf, with_faults, with_place};
use crate::ends::add_outcome;
use crate::kept::{first_bytes, joined, slot};
use crate::runs::{Ended, Fails, Files, run_words};
use follow::Status;
use kit::{Memory, Text};
use outside::Place;
use scripts::{Ranges, add_number, first_line};
use shelves::{Crash, MemoryShelf};
use std::alloc::Global;

/// Some numbers that follow each other.
#[derive(Clone, Copy)]
pub struct Numbers {
    pub first: u64,
    pub last: u64,
}

/// Adds how the run goes that is made again over what a crash leaves.
fn add_again(
    told: &mut Vec<u8>,
    alloc: Global,
    words: &[Text],
    files: &Files,
    shelf: &MemoryShelf,
    first: &Ended,
    crash: Crash,
) -> Result<(), Memory> {
    let mut left = shelf.crash(crash)?;
    let again = run_words(alloc, words, files, Fails::NONE, &mut left)?;
    told.extend_from_slice(match crash {
        Crash::Old => b", after the old bytes ",
        Crash::New => b", after the new bytes ",
        Crash::Ones => b", after bytes 1 ",
    })?;
    add_outcome(told, &again, first)
}

/// How the run ends that is stopped at a call of the shelf, and how those go that are made again over what each crash leaves.
fn told_of_stop(
    alloc: Global,
    words: &[Text],
    files: &Files,
    shelf: &MemoryShelf,
    first: &Ended,
    stop: u64,
) -> Result<Vec<u8>, Memory> {
    let mut told = Vec::new(alloc);
    let mut stopped = with_faults(alloc, shelf, Faults { fails: 0, stop })?;
    let ended = run_words(alloc, words, files, Fails::NONE, &mut stopped)?;
    add_outcome(&mut told, &ended, first)?;
    for &crash in &[Crash::Old, Crash::New, Crash::Ones] {
        add_again(&mut told, alloc, words, files, &stopped, first, crash)?;
    }
    Ok(told)
}

/// Says how the run over a shelf goes that is stopped at each of these calls.
pub fn add_stops(
    said: &mut Vec<u8>,
    alloc: Global,
    words: &[Text],
    files: &Files,
    shelf: &MemoryShelf,
    stops: Numbers,
) -> Result<(), Memory> {
    let first = run_words(
        alloc,
        words,
        files,
        Fails::NONE,
        &mut with_faults(alloc, shelf, Faults::NONE)?,
    )?;
    let mut ranges = Ranges::new(alloc);
    for stop in stops.first..stops.last.saturating_add(1) {
        let told = told_of_stop(alloc, words, files, shelf, &first, stop)?;
        ranges.tell(said, alloc, stop, told)?;
    }
    ranges.end(said, alloc)
}

/// How a run over a shelf goes: how many bytes the tail has after it where it goes well, and else the line that says why not.
fn told_of_run(
    alloc: Global,
    words: &[Text],
    files: &Files,
    shelf: &mut MemoryShelf,
) -> Result<Vec<u8>, Memory> {
    let ended = run_words(alloc, words, files, Fails::NONE, shelf)?;
    let mut told = Vec::new(alloc);
    if ended.status == Status::Ok {
        told.extend_from_slice(b"ok, T ")?;
        add_number(&mut told, alloc, shelf.bytes(Place::T).len() as u64)?;
    } else {
        told.extend_from_slice(first_line(&ended.put).0)?;
    }
    Ok(told)
}

/// Says how the run goes over a shelf of which one place is cut to each of these sizes.
pub fn add_cuts(
    said: &mut Vec<u8>,
    alloc: Global,
    words: &[Text],
    files: &Files,
    shelf: &MemoryShelf,
    place: Place,
    sizes: Numbers,
) -> Result<(), Memory> {
    let mut ranges = Ranges::new(alloc);
    for size in sizes.first..sizes.last.saturating_add(1) {
        let bytes = first_bytes(shelf.bytes(place), size);
        let mut left = with_place(alloc, shelf, place, bytes)?;
        let told = told_of_run(alloc, words, files, &mut left)?;
        ranges.tell(said, alloc, size, told)?;
    }
    ranges.end(said, alloc)
}

/// Says how the run goes over a slot with this number in A whose image is the first bytes of the fields, in each of these sizes.
pub fn add_heads(
    said: &mut Vec<u8>,
    alloc: Global,
    words: &[Text],
    files: &Files,
    fields: &[Vec<u8>],
    number: u64,
    sizes: Numbers,
) -> Result<(), Memory> {
    let image = joined(alloc, fields, b"")?;
    let empty = empty_shelf(alloc)?;
    let mut ranges = Ranges::new(alloc);
    for size in sizes.first..sizes.last.saturating_add(1) {
        let bytes = slot(alloc, number, first_bytes(&image, size))?;
        let mut shelf = with_place(alloc, &empty, Place::A, &bytes)?;
        let told = told_of_run(alloc, words, files, &mut shelf)?;
        ranges.tell(said, alloc, size, told)?;
    }
    ranges.end(said, alloc)
}
