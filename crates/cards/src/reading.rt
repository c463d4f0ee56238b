//! Readers of files that are tried with chunks of several sizes.
ghost use Rattle.std.specs.Prelude.{◌≤◌};

use crate::boxes::{Shown, read_box};
use crate::shown::add_counted;
use crate::stage::Reading;
use crate::steps::read_steps;
use kit::Memory;
use outside::MemorySource;
use std::alloc::Global;

/// A reader of a file, and what is shown of what it gives.
#[derive(Clone, Copy)]
pub enum Reader {
    Box(Shown),
    Steps,
}

/// What a reader gives with chunks of a size.
#[derive(Drop)]
struct Given {
    chunk_len: u64,
    said: Vec<u8>,
}

/// The number of bytes that a reader takes at once, within what it may take.
pub fn chunk_len_of(number: u64) -> usize
    ensures some { 1 ≤ result }
    ensures limit { result ≤ 1048576 }
{
    number.clamp(1, 1_048_576) as usize
}

/// A source of bytes whose calls fail as a script says.
pub fn source_of(alloc: Global, reading: &Reading, bytes: &[u8]) -> Result<MemorySource, Memory> {
    let failing_calls = [reading.failing_call].to_vec(alloc)?;
    Ok(MemorySource::new(bytes.to_vec(alloc)?, failing_calls))
}

/// Adds what a reader gives: once where it is the same with chunks of each size, and else after each size.
pub fn add_read(
    said: &mut Vec<u8>,
    alloc: Global,
    reading: &Reading,
    reader: Reader,
    bytes: &[u8],
) -> Result<(), Memory> {
    let mut given = Vec::new(alloc);
    for &chunk_len in &reading.chunk_lens {
        let said = read(alloc, reading, chunk_len, reader, bytes)?;
        given.push(Given { chunk_len, said })?;
    }
    add_given(said, alloc, &given)
}

fn read(
    alloc: Global,
    reading: &Reading,
    chunk_len: u64,
    reader: Reader,
    bytes: &[u8],
) -> Result<Vec<u8>, Memory> {
    match reader {
        Reader::Box(shown) => read_box(alloc, reading, chunk_len, shown, bytes),
        Reader::Steps => read_steps(alloc, reading, chunk_len, bytes),
    }
}

fn add_given(said: &mut Vec<u8>, alloc: Global, given: &[Given]) -> Result<(), Memory> {
    match given {
        [first, others @ ..] if are_same(first, others) => Ok(said.extend_from_slice(&first.said)?),
        _ => add_each(said, alloc, given),
    }
}

fn are_same(first: &Given, others: &[Given]) -> bool {
    for other in others {
        if other.said != first.said {
            return false;
        }
    }
    true
}

fn add_each(said: &mut Vec<u8>, alloc: Global, given: &[Given]) -> Result<(), Memory> {
    for one in given {
        add_counted(said, alloc, "in chunks of", one.chunk_len)?;
        said.extend_from_slice(&one.said)?;
    }
    Ok(())
}

/// Adds how many bytes a reader passed over and where it then is, where it was to pass over any.
pub fn add_skipped(
    said: &mut Vec<u8>,
    alloc: Global,
    reading: &Reading,
    skipped: u64,
    place: u64,
) -> Result<(), Memory> {
    if reading.skipped == 0 {
        return Ok(());
    }
    add_counted(said, alloc, "skipped", skipped)?;
    add_counted(said, alloc, "at", place)
}
