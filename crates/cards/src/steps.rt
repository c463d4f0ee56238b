//! The steps of a steps file.
ghost use Rattle.std.specs.Prelude.{◌≡◌, false};

use crate::boxes::add_fault;
use crate::reading::{add_skipped, chunk_len_of, source_of};
use crate::shown::add_word;
use crate::stage::Reading;
use kit::Memory;
use mboxrd::BoxFault;
use outside::Source;
use scripts::add_number;
use source_buffer::BufferFault;
use std::alloc::Global;
use steps_file::{Step, StepsReader, Taken};

/// What a reader with chunks of a size gives of a steps file.
pub fn read_steps(
    alloc: Global,
    reading: &Reading,
    chunk_len: u64,
    bytes: &[u8],
) -> Result<Vec<u8>, Memory> {
    let mut said = Vec::new(alloc);
    let mut source = source_of(alloc, reading, bytes)?;
    let mut reader = StepsReader::new(alloc, chunk_len_of(chunk_len), reading.budget)?;
    match reader.skip(&mut source, reading.skipped) {
        Ok(skipped) => {
            add_skipped(&mut said, alloc, reading, skipped, reader.place())?;
            add_steps(&mut said, alloc, &mut reader, &mut source)?;
        }
        Err(fault) => add_fault(&mut said, BoxFault::from(fault))?,
    }
    Ok(said)
}

/// Adds each line as the step that it is, with the offset after the line, up to the end or a refusal.
fn add_steps<S: Source>(
    said: &mut Vec<u8>,
    alloc: Global,
    reader: &mut StepsReader,
    source: &mut S,
) -> Result<(), Memory>
    requires { reader.old.refused ≡ false }
{
    for _ in 0..u32::MAX {
        let taken = reader.next(source);
        let goes_on = matches!(&taken, Ok(Taken::Step(_) | Taken::NoStep));
        add_taken(said, alloc, reader.place(), taken)?;
        if !goes_on {
            return Ok(());
        }
    }
    Ok(())
}

fn add_taken(
    said: &mut Vec<u8>,
    alloc: Global,
    place: u64,
    taken: Result<Taken, BufferFault>,
) -> Result<(), Memory> {
    match taken {
        Ok(Taken::Step(step)) => add_line(said, alloc, Some(step), place),
        Ok(Taken::NoStep) => add_line(said, alloc, None, place),
        Ok(Taken::End) => add_word(said, "end"),
        Err(fault) => add_fault(said, BoxFault::from(fault)),
    }
}

/// Adds the step that a line is, if it is one, and the offset after the line.
fn add_line(
    said: &mut Vec<u8>,
    alloc: Global,
    step: Option<Step>,
    place: u64,
) -> Result<(), Memory> {
    match step {
        Some(step) => add_step(said, alloc, step)?,
        None => said.extend_from_slice(b"no step")?,
    }
    said.extend_from_slice(b" to ")?;
    add_number(said, alloc, place)?;
    said.push(b'\n')?;
    Ok(())
}

fn add_step(said: &mut Vec<u8>, alloc: Global, step: Step) -> Result<(), Memory> {
    match step {
        Step::Next => Ok(said.extend_from_slice(b"next")?),
        Step::Expunge(uid) => add_named(said, alloc, b"expunge ", u64::from(uid)),
        Step::Seen(uid) => add_named(said, alloc, b"seen ", u64::from(uid)),
        Step::At(moment) => add_named(said, alloc, b"at ", moment),
    }
}

fn add_named(said: &mut Vec<u8>, alloc: Global, name: &[u8], number: u64) -> Result<(), Memory> {
    said.extend_from_slice(name)?;
    add_number(said, alloc, number)
}
