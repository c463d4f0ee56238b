//! The segments of the body of a field: what is between two `;`.
ghost use Rattle.std.specs.Prelude.{◌≡◌, ◌<◌, [], ◌∷◌, IfSome, MatchOption, length, position};
ghost use Rattle.mime_fields.specs.Segments.{ends_word, escaped_after, further_segments, main_word, quoted_after, segments, word_of};
ghost use Rattle.mime_fields.specs.Views.{segments_in};

use kit::{begins_quoted_pair, is_white};

/// Whether a quoted string is open after a byte, which may be the second of a quoted-pair.
fn quoted_after(quoted: bool, escaped: bool, byte: u8) -> bool
    ensures { result ≡ quoted_after quoted escaped byte }
{
    match byte {
        b'"' if !escaped => !quoted,
        _ => quoted,
    }
}

/// Whether the byte after this one is the second of a quoted-pair, which only a quoted string has.
fn escaped_after(quoted: bool, escaped: bool, byte: u8) -> bool
    ensures { result ≡ escaped_after quoted escaped byte }
{
    quoted && begins_quoted_pair(escaped, byte)
}

/// The first segment, and what follows the `;` that ends it: `None` exactly where no `;` does.
fn split_segment(bytes: &[u8]) -> Option<(&[u8], &[u8])>
    ensures { MatchOption result (segments bytes.now ≡ bytes.now ∷ [])
        (λ p. (segments bytes.now ≡ p.0.now ∷ segments p.1.now) × (length p.1.now < length bytes.now)) }
{
    let mut quoted = false;
    let mut escaped = false;
    for (at, byte) in bytes.iter().enumerate() {
        if *byte == b';' && !quoted {
            return Some((&bytes[..at], &bytes[at + 1..]));
        }
        let open = quoted_after(quoted, escaped, *byte);
        escaped = escaped_after(quoted, escaped, *byte);
        quoted = open;
    }
    None
}

fn ends_word(byte: u8) -> bool
    ensures { result ≡ ends_word byte }
{
    is_white(byte) || byte == b'('
}

fn word_end(segment: &[u8]) -> Option<usize>
    ensures value { result ≡ position ends_word segment.now }
    ensures bound { IfSome result (λ end. end < length segment.now) }
{
    segment.iter().position(|b| ends_word(*b))
}

/// The word that a segment begins with.
fn word_of(segment: &[u8]) -> &[u8]
    ensures { result.now ≡ word_of segment.now }
{
    match word_end(segment) {
        Some(end) => &segment[..end],
        None => segment,
    }
}

/// The word that a body names: what its first segment begins with, up to white space or a comment.
pub fn main_word(body: &[u8]) -> &[u8]
    ensures { result.now ≡ main_word body.now }
{
    match split_segment(body) {
        Some((segment, _further)) => word_of(segment),
        None => word_of(body),
    }
}

/// The segments of a body that are still to be read, from the left.
#[derive(Clone, Copy)]
pub struct Segments<'a> {
    /// What follows the `;` before them; none where none is left.
    rest: Option<&'a [u8]>,
}

impl<'a> Segments<'a> {
    /// The segments after the first `;` outside a quoted string.
    pub fn further(body: &'a [u8]) -> Self
        ensures { segments_in result ≡ further_segments body.now }
    {
        match split_segment(body) {
            Some((_segment, rest)) => Segments { rest: Some(rest) },
            None => Segments { rest: None },
        }
    }

    /// The first of them, and those after it: `None` exactly where none is left.
    pub fn split_first(self) -> Option<(&'a [u8], Self)>
        ensures { MatchOption result (segments_in self.entry ≡ [])
            (λ p. segments_in self.entry ≡ p.0.now ∷ segments_in p.1) }
    {
        let left = self.rest?;
        match split_segment(left) {
            Some((segment, rest)) => Some((segment, Segments { rest: Some(rest) })),
            None => Some((left, Segments { rest: None })),
        }
    }
}
