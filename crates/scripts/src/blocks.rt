//! Blocks of lines within a script.
use crate::lines::first_line;
use kit::Memory;
use std::alloc::Global;

/// The lines up to one that is only a dot, and what follows that. Before a line of two dots the last LF is left out.
pub fn block(alloc: Global, rest: &[u8]) -> Result<(Vec<u8>, &[u8]), Memory> {
    let mut text = Vec::new(alloc);
    let mut rest = rest;
    for _ in 0..rest.len() {
        let (line, after) = first_line(rest);
        rest = after;
        if line == b".".as_slice() {
            break;
        }
        if line == b"..".as_slice() {
            text.pop();
            break;
        }
        text.extend_from_slice(line)?;
        text.push(b'\n')?;
    }
    Ok((text, rest))
}

/// Adds the block for each number from the first to the last, by a step, with the number in place of each `%`.
pub fn repeat(
    to: &mut Vec<u8>,
    alloc: Global,
    block: &[u8],
    first: u64,
    last: u64,
    step: u64,
) -> Result<(), Memory> {
    let mut number = first;
    for _ in first..last.saturating_add(1) {
        if last < number {
            break;
        }
        add_numbered(to, alloc, block, number)?;
        number = number.saturating_add(step.max(1));
    }
    Ok(())
}

/// Adds the block with a number in place of each `%`.
pub fn add_numbered(
    to: &mut Vec<u8>,
    alloc: Global,
    block: &[u8],
    number: u64,
) -> Result<(), Memory> {
    let text = format!(in alloc; "{number}")?;
    for &byte in block {
        if byte == b'%' {
            to.extend_from_slice(text.as_bytes())?;
        } else {
            to.push(byte)?;
        }
    }
    Ok(())
}
