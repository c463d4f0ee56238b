//! The mails of an mbox, and their cards.
ghost use Rattle.std.specs.Prelude.{◌≡◌, false};

use crate::card::add_card_of;
use crate::reading::{add_skipped, chunk_len_of, source_of};
use crate::shown::{add_quoted_line, add_word};
use crate::stage::Reading;
use kit::Memory;
use mboxrd::{BoxFault, MboxReader, Taken};
use outside::Source;
use scripts::add_number;
use std::alloc::Global;

/// What is shown of each mail.
#[derive(Clone, Copy)]
pub enum Shown {
    Bytes,
    Card,
}

/// What a reader with chunks of a size gives of an mbox.
pub fn read_box(
    alloc: Global,
    reading: &Reading,
    chunk_len: u64,
    shown: Shown,
    bytes: &[u8],
) -> Result<Vec<u8>, Memory> {
    let mut said = Vec::new(alloc);
    let mut source = source_of(alloc, reading, bytes)?;
    let mut reader = MboxReader::new(alloc, chunk_len_of(chunk_len), reading.budget)?;
    match reader.skip(&mut source, reading.skipped) {
        Ok(skipped) => {
            add_skipped(&mut said, alloc, reading, skipped, reader.place())?;
            add_mails(&mut said, alloc, &mut reader, &mut source, shown)?;
        }
        Err(fault) => add_fault(&mut said, fault)?,
    }
    Ok(said)
}

/// Adds each mail with its number and the offset where it ends, up to the end or a refusal.
fn add_mails<S: Source>(
    said: &mut Vec<u8>,
    alloc: Global,
    reader: &mut MboxReader,
    source: &mut S,
    shown: Shown,
) -> Result<(), Memory>
    requires { reader.old.refused ≡ false }
{
    for number in 1..u32::MAX {
        let taken = reader.next(alloc, source);
        let goes_on = matches!(&taken, Ok(Taken::Mail(_) | Taken::TooLong));
        add_taken(said, alloc, number, reader.place(), &taken, shown)?;
        if !goes_on {
            return Ok(());
        }
    }
    Ok(())
}

fn add_head(said: &mut Vec<u8>, alloc: Global, number: u32, place: u64) -> Result<(), Memory> {
    said.extend_from_slice(b"mail ")?;
    add_number(said, alloc, u64::from(number))?;
    said.extend_from_slice(b" to ")?;
    add_number(said, alloc, place)?;
    said.push(b'\n')?;
    Ok(())
}

fn add_taken(
    said: &mut Vec<u8>,
    alloc: Global,
    number: u32,
    place: u64,
    taken: &Result<Taken, BoxFault>,
    shown: Shown,
) -> Result<(), Memory> {
    match taken {
        Ok(Taken::Mail(mail)) => {
            add_head(said, alloc, number, place)?;
            add_mail(said, alloc, number, mail, shown)
        }
        Ok(Taken::TooLong) => {
            add_head(said, alloc, number, place)?;
            add_word(said, "too long")
        }
        Ok(Taken::End) => add_word(said, "end"),
        Err(fault) => add_fault(said, *fault),
    }
}

fn add_mail(
    said: &mut Vec<u8>,
    alloc: Global,
    number: u32,
    mail: &[u8],
    shown: Shown,
) -> Result<(), Memory> {
    match shown {
        Shown::Bytes => add_quoted_line(said, alloc, mail),
        Shown::Card => add_card_of(said, alloc, number, mail),
    }
}

/// Adds why a reader of a file gave no answer.
pub fn add_fault(said: &mut Vec<u8>, fault: BoxFault) -> Result<(), Memory> {
    match fault {
        BoxFault::Read => add_word(said, "refused: the source failed"),
        BoxFault::Endless => add_word(said, "refused: no end within the budget"),
        BoxFault::Memory => Err(Memory),
    }
}
