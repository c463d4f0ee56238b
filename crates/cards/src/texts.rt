//! Flowed texts, and the text above a signature.
use crate::shown::add_quoted_line;
use flowed_text::{unflow, user_text};
use kit::{Memory, Text};
use std::alloc::Global;

fn text_of(alloc: Global, bytes: &[u8]) -> Result<Text, Memory> {
    Ok(Text::from(String::from_utf8_lossy(alloc, bytes)?))
}

/// Adds a flowed text with its soft lines joined, where DelSp is `yes` without the spaces that join them.
pub fn add_joined(
    said: &mut Vec<u8>,
    alloc: Global,
    text: &[u8],
    delsp: bool,
) -> Result<(), Memory> {
    let joined = unflow(alloc, &text_of(alloc, text)?, delsp)?;
    add_quoted_line(said, alloc, joined.bytes())
}

/// Adds what stands in a text above its signature.
pub fn add_user_text(said: &mut Vec<u8>, alloc: Global, text: &[u8]) -> Result<(), Memory> {
    let above = user_text(alloc, &text_of(alloc, text)?)?;
    add_quoted_line(said, alloc, above.bytes())
}
