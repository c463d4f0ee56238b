//! The lines of bytes and of texts.
ghost use Rattle.std.specs.Prelude.{◌≡◌, ◌++◌, ◌∷◌, [], ◌<◌, All, IfOk, IfSome, MatchOption, length, map};
ghost use Rattle.kit.specs.Lines.{IsLineWithin, content, lines, raw_lines};

use crate::memory::Memory;
use memchr::memchr;
use std::alloc::Global;

/// Where a line is in its bytes, by offsets from their beginning. Of a line that `lines` gives,
/// `start <= end <= next`, and `next` is no more than the number of bytes.
#[derive(Clone, Copy, Debug, PartialEq, Eq)]
pub struct Line {
    /// Where its content begins.
    pub start: usize,
    /// Where its content ends: the offset after the last byte of it.
    pub end: usize,
    /// Where the next line begins, or the bytes end.
    pub next: usize,
}

/// A line without the LF that ends it, and without one CR before that (RFC 5322, section 2.1). Takes
/// no memory.
pub fn content(raw: &[u8]) -> &[u8]
    ensures { result.now ≡ content raw.now }
{
    match raw {
        [content @ .., b'\r', b'\n'] => content,
        [content @ .., b'\n'] => content,
        _ => raw,
    }
}

/// The first raw line, which has the bytes that end it, and what follows it: `None` exactly where there
/// are no bytes (RFC 5322, section 2.1; RFC 4155, appendix A). An LF ends a line; bytes after the last
/// LF are a line as well. Takes no memory.
pub fn split_line(bytes: &[u8]) -> Option<(&[u8], &[u8])>
    ensures lines { MatchOption result (raw_lines bytes.now ≡ []) (λ p. raw_lines bytes.now ≡ p.0.now ∷ raw_lines p.1.now) }
    ensures whole { IfSome result (λ p. bytes.now ≡ p.0.now ++ p.1.now) }
    ensures shorter { IfSome result (λ p. length p.1.now < length bytes.now) }
{
    if bytes.is_empty() {
        return None;
    }
    match memchr(b'\n', bytes) {
        Some(at) => Some(bytes.split_at(at + 1)),
        None => Some(bytes.split_at(bytes.len())),
    }
}

/// The content of the first line of a text, and what follows that line: `None` exactly where the text is
/// empty. Lines end as `split_line` says. Takes no memory.
pub fn split_text_line(text: &str) -> Option<(&str, &str)>
    ensures lines { MatchOption result (map content (raw_lines text.now) ≡ [])
        (λ p. map content (raw_lines text.now) ≡ p.0.now ∷ map content (raw_lines p.1.now)) }
    ensures shorter { IfSome result (λ p. length p.1.now < length text.now) }
{
    if text.is_empty() {
        return None;
    }
    match text.split_once('\n') {
        Some((line, rest)) => Some((line.strip_suffix('\r').unwrap_or(line), rest)),
        None => Some((text, "")),
    }
}

/// The lines of the bytes, from the first to the last (RFC 5322, section 2.1; RFC 4155, appendix A).
/// An LF ends a line, and neither it nor one CR before it is of the content. Bytes after the last LF
/// are a line as well, which keeps its CR; where none follow it there is no such line. Takes memory;
/// `Err` only when it runs out.
pub fn lines(alloc: Global, bytes: &[u8]) -> Result<Vec<Line>, Memory>
    ensures lines { IfOk result (λ found. found.items ≡ lines bytes.now) }
    ensures within { IfOk result (λ found. All (IsLineWithin (length bytes.now)) found.items) }
{
    let mut found = Vec::new(alloc);
    let mut start = 0;
    let mut left = bytes;
    while let Some((raw, rest)) = split_line(left) {
        let end = start + content(raw).len();
        let next = start + raw.len();
        found.push(Line { start, end, next })?;
        start = next;
        left = rest;
    }
    Ok(found)
}
