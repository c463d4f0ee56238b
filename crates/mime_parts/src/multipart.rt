//! The parts of a multipart, by its delimiter lines.
ghost use Rattle.std.specs.Prelude.{◌≡◌, ℕ, List, ◌<◌, ◌+◌, ◌^◌, ◌++◌, IfOk, OnOk, length, option_to_list};
ghost use Rattle.mime_parts.specs.Multiparts.{closing_text, delimiter_text, is_only, spans};
ghost use Rattle.mime_parts.specs.Walks.{extended};

use kit::{Memory, content, is_blank, split_line};
use std::alloc::Global;

/// Where a part is in the body of a mail.
#[derive(Clone, Copy, Debug, PartialEq, Eq)]
pub struct Span {
    /// The offset of its first byte.
    pub start: usize,
    /// The offset after its last byte.
    pub end: usize,
}

/// Whether a line is a text, with nothing but white space after it. Most lines differ in their first byte already.
fn is_only(text: &[u8], line: &[u8]) -> bool
    ensures { result ≡ is_only text.now line.now }
{
    match (text, line) {
        ([first, ..], [other, ..]) if first != other => false,
        _ => line.starts_with(text) && is_blank(&line[text.len()..]),
    }
}

/// A part that goes on to an offset, if one is begun.
fn extended(part: Option<Span>, end: usize) -> Option<Span>
    ensures { result ≡ extended part end }
{
    let Span { start, .. } = part?;
    Some(Span { start, end })
}

fn push_part(found: &mut Vec<Span>, part: Option<Span>) -> Result<(), Memory>
    ensures { OnOk result (found.new.items ≡ found.old.items ++ option_to_list part) }
{
    if let Some(span) = part {
        found.push(span)?;
    }
    Ok(())
}

/// Where the parts are between delimiter lines of one text and a closing line of another.
fn parts_between(
    alloc: Global,
    delimiter: &[u8],
    closing: &[u8],
    bytes: &[u8],
    start: usize,
) -> Result<Vec<Span>, Memory>
    requires { start + length bytes.now < 2 ^ 64 }
    ensures { (boundary : List ℕ) → delimiter.now ≡ delimiter_text boundary → closing.now ≡ closing_text boundary
        → IfOk result (λ found. found.items ≡ spans boundary start bytes.now) }
{
    let mut found = Vec::new(alloc);
    let mut part = None;
    let mut at = start;
    let mut left = bytes;
    while let Some((raw, rest)) = split_line(left) {
        let line = content(raw);
        let next = at + raw.len();
        if is_only(closing, line) {
            push_part(&mut found, part)?;
            return Ok(found);
        }
        if is_only(delimiter, line) {
            push_part(&mut found, part)?;
            part = Some(Span {
                start: next,
                end: next,
            });
        } else {
            part = extended(part, at + line.len());
        }
        at = next;
        left = rest;
    }
    push_part(&mut found, extended(part, at))?;
    Ok(found)
}

/// Where the parts of a multipart are, of which the content begins at an offset: between the delimiter lines of its
/// boundary, without the line end before each (RFC 2046, section 5.1.1). Takes time for one pass over the content, and
/// memory; `Err` only when it runs out.
pub fn spans(
    alloc: Global,
    boundary: &[u8],
    bytes: &[u8],
    start: usize,
) -> Result<Vec<Span>, Memory>
    requires { start + length bytes.now < 2 ^ 64 }
    ensures { IfOk result (λ found. found.items ≡ spans boundary.now start bytes.now) }
{
    let mut delimiter = Vec::from_slice(alloc, b"--")?;
    delimiter.extend_from_slice(boundary)?;
    let mut closing = Vec::from_slice(alloc, &delimiter)?;
    closing.extend_from_slice(b"--")?;
    parts_between(alloc, &delimiter, &closing, bytes, start)
}
