//! What a transcript shows of bytes and numbers.
use crate::escapes::add_text;
use kit::Memory;
use std::alloc::Global;

/// Adds bytes, and a LF where they don't end in one.
pub fn add_lines(said: &mut Vec<u8>, bytes: &[u8]) -> Result<(), Memory> {
    said.extend_from_slice(bytes)?;
    if let Some(&last) = bytes.last() {
        if last != b'\n' {
            said.extend_from_slice(b"\\\n")?;
        }
    }
    Ok(())
}

/// Adds a line of how many bytes there are, and the bytes as `add_text` writes them.
pub fn add_escaped(said: &mut Vec<u8>, alloc: Global, bytes: &[u8]) -> Result<(), Memory> {
    add_number(said, alloc, bytes.len() as u64)?;
    if !bytes.is_empty() {
        said.push(b' ')?;
        add_text(said, bytes)?;
    }
    said.push(b'\n')?;
    Ok(())
}

/// Adds a number in decimal.
pub fn add_number(said: &mut Vec<u8>, alloc: Global, number: u64) -> Result<(), Memory> {
    let text = format!(in alloc; "{number}")?;
    said.extend_from_slice(text.as_bytes())?;
    Ok(())
}
