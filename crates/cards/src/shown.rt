//! How values are shown in the transcript.
use kit::{Addr, Id, Memory};
use scripts::{add_number, add_text};
use std::alloc::Global;

/// How many bytes of a text are shown at most.
const SHOWN_LEN: usize = 256;

/// How many items of a list are shown at most.
const SHOWN_COUNT: usize = 24;

/// Adds a line of a word alone.
pub fn add_word(said: &mut Vec<u8>, word: &str) -> Result<(), Memory> {
    said.extend_from_slice(word.as_bytes())?;
    said.push(b'\n')?;
    Ok(())
}

/// Adds a line of a word and a value without spaces.
pub fn add_value(said: &mut Vec<u8>, word: &str, value: &[u8]) -> Result<(), Memory> {
    said.extend_from_slice(word.as_bytes())?;
    said.push(b' ')?;
    said.extend_from_slice(value)?;
    said.push(b'\n')?;
    Ok(())
}

/// Adds a line of a word and a number.
pub fn add_counted(
    said: &mut Vec<u8>,
    alloc: Global,
    word: &str,
    number: u64,
) -> Result<(), Memory> {
    said.extend_from_slice(word.as_bytes())?;
    said.push(b' ')?;
    add_number(said, alloc, number)?;
    said.push(b'\n')?;
    Ok(())
}

/// Adds a text in quotes; of a long one its beginning, and how many bytes it has.
pub fn add_quoted(said: &mut Vec<u8>, alloc: Global, text: &[u8]) -> Result<(), Memory> {
    said.push(b'"')?;
    add_text(said, &text[..text.len().min(SHOWN_LEN)])?;
    said.push(b'"')?;
    if text.len() > SHOWN_LEN {
        said.extend_from_slice(b".. of ")?;
        add_number(said, alloc, text.len() as u64)?;
        said.extend_from_slice(b" bytes")?;
    }
    Ok(())
}

/// Adds a line of a text in quotes.
pub fn add_quoted_line(said: &mut Vec<u8>, alloc: Global, text: &[u8]) -> Result<(), Memory> {
    add_quoted(said, alloc, text)?;
    said.push(b'\n')?;
    Ok(())
}

/// Adds a line of a word and a text in quotes, where the text isn't empty.
pub fn add_some(said: &mut Vec<u8>, alloc: Global, word: &str, text: &[u8]) -> Result<(), Memory> {
    if text.is_empty() {
        return Ok(());
    }
    said.extend_from_slice(word.as_bytes())?;
    said.push(b' ')?;
    add_quoted_line(said, alloc, text)
}

/// Adds a line of a text in quotes, or `none`.
pub fn add_found(said: &mut Vec<u8>, alloc: Global, text: Option<&[u8]>) -> Result<(), Memory> {
    match text {
        Some(text) => add_quoted_line(said, alloc, text),
        None => add_word(said, "none"),
    }
}

/// Whether a list of so many items shows the one at this index: a long list shows the first three and the last.
pub fn is_shown(index: usize, count: usize) -> bool {
    count <= SHOWN_COUNT || index < 3 || index.saturating_add(1) == count
}

/// Adds, after a list, how many items it has, where it doesn't show them all.
pub fn add_count(said: &mut Vec<u8>, alloc: Global, count: usize) -> Result<(), Memory> {
    if count > SHOWN_COUNT {
        add_counted(said, alloc, "in all", count as u64)?;
    }
    Ok(())
}

/// Adds `none` where a list has no items.
pub fn add_none(said: &mut Vec<u8>, count: usize) -> Result<(), Memory> {
    if count == 0 {
        add_word(said, "none")?;
    }
    Ok(())
}

/// Adds a line for each id.
pub fn add_ids(said: &mut Vec<u8>, alloc: Global, word: &str, ids: &[Id]) -> Result<(), Memory> {
    for (index, id) in ids.iter().enumerate() {
        if is_shown(index, ids.len()) {
            add_value(said, word, id.bytes())?;
        }
    }
    add_count(said, alloc, ids.len())
}

/// Adds a line for each address.
pub fn add_addrs(
    said: &mut Vec<u8>,
    alloc: Global,
    word: &str,
    addrs: &[Addr],
) -> Result<(), Memory> {
    for (index, addr) in addrs.iter().enumerate() {
        if is_shown(index, addrs.len()) {
            add_value(said, word, addr.bytes())?;
        }
    }
    add_count(said, alloc, addrs.len())
}
