//! What the fields of a part say of it.
use crate::shown::{add_found, add_quoted_line, add_word};
use kit::Memory;
use mime_parts::{ContentType, Param, read_content_type, read_disposition};
use std::alloc::Global;

/// Adds the two names of a content type.
pub fn add_kind(said: &mut Vec<u8>, kind: &ContentType) -> Result<(), Memory> {
    said.extend_from_slice(kind.top.bytes())?;
    said.push(b'/')?;
    said.extend_from_slice(kind.sub.bytes())?;
    Ok(())
}

/// Adds what the body of a Content-Type field says: the type, and a line for each parameter.
pub fn add_type(said: &mut Vec<u8>, alloc: Global, body: &[u8]) -> Result<(), Memory> {
    let kind = read_content_type(alloc, body)?;
    add_kind(said, &kind)?;
    said.push(b'\n')?;
    for param in &kind.params {
        add_named(said, alloc, param)?;
    }
    Ok(())
}

fn add_named(said: &mut Vec<u8>, alloc: Global, param: &Param) -> Result<(), Memory> {
    said.extend_from_slice(param.name.bytes())?;
    said.push(b'=')?;
    add_quoted_line(said, alloc, param.value.bytes())
}

/// Adds the value of the parameter of a name.
pub fn add_param(
    said: &mut Vec<u8>,
    alloc: Global,
    name: &[u8],
    body: &[u8],
) -> Result<(), Memory> {
    let kind = read_content_type(alloc, body)?;
    add_found(said, alloc, kind.param(name).map(|value| value.bytes()))
}

/// Adds what the body of a Content-Disposition field says: whether the part is an attachment or a reaction, and its file
/// name.
pub fn add_disposition(said: &mut Vec<u8>, alloc: Global, body: &[u8]) -> Result<(), Memory> {
    let disposition = read_disposition(alloc, body)?;
    let word = if disposition.attach {
        "attachment"
    } else if disposition.reaction {
        "reaction"
    } else {
        "shown"
    };
    add_word(said, word)?;
    add_quoted_line(said, alloc, disposition.name.bytes())
}
