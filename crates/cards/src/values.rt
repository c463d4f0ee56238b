//! Copies of values, lines, and names in either case.
use crate::shown::{add_counted, add_found, add_quoted_line, add_word};
use kit::{Addr, Bytes, Id, Memory, Text, lines, lower, same_name};
use std::alloc::Global;

/// Adds the copy of a value of a kind, or `none` where the bytes are no such value.
pub fn add_copy(
    said: &mut Vec<u8>,
    alloc: Global,
    kind: &[u8],
    bytes: &[u8],
) -> Result<(), Memory> {
    match kind {
        b"id" => add_id(said, alloc, bytes),
        b"address" => add_addr(said, alloc, bytes),
        b"text" => add_text(said, alloc, bytes),
        _ => add_bytes(said, alloc, bytes),
    }
}

fn add_id(said: &mut Vec<u8>, alloc: Global, bytes: &[u8]) -> Result<(), Memory> {
    match Id::read(alloc, bytes)? {
        Some(id) => add_quoted_line(said, alloc, id.copy()?.bytes()),
        None => add_word(said, "none"),
    }
}

fn add_addr(said: &mut Vec<u8>, alloc: Global, bytes: &[u8]) -> Result<(), Memory> {
    match Addr::read(alloc, bytes)? {
        Some(addr) => add_quoted_line(said, alloc, addr.copy()?.bytes()),
        None => add_word(said, "none"),
    }
}

fn add_text(said: &mut Vec<u8>, alloc: Global, bytes: &[u8]) -> Result<(), Memory> {
    let text = Text::from(String::from_utf8_lossy(alloc, bytes)?);
    add_quoted_line(said, alloc, text.copy()?.bytes())
}

fn add_bytes(said: &mut Vec<u8>, alloc: Global, bytes: &[u8]) -> Result<(), Memory> {
    let bytes = Bytes::from_slice(alloc, bytes)?;
    add_quoted_line(said, alloc, bytes.copy()?.bytes())
}

/// Adds each line of bytes, and the offset where it ends.
pub fn add_line_ends(said: &mut Vec<u8>, alloc: Global, bytes: &[u8]) -> Result<(), Memory> {
    for line in lines(alloc, bytes)? {
        add_found(said, alloc, bytes.get(line.start..line.end))?;
        add_counted(said, alloc, "to", line.end as u64)?;
    }
    Ok(())
}

/// Adds a name in small letters.
pub fn add_lowered(said: &mut Vec<u8>, alloc: Global, name: &[u8]) -> Result<(), Memory> {
    let mut lowered = name.to_vec(alloc)?;
    lower(&mut lowered);
    add_quoted_line(said, alloc, &lowered)
}

/// Adds whether two names are the same in either case.
pub fn add_same(said: &mut Vec<u8>, a: &[u8], b: &[u8]) -> Result<(), Memory> {
    add_word(said, if same_name(a, b) { "same" } else { "other" })
}
