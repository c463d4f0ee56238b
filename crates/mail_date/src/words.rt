//! The words of a body.
ghost use Rattle.std.specs.Prelude.{◌≡◌, ◌<◌, ◌^◌, [], ◌∷◌, IfSome, IsFalse, MatchOption, length, position, slice_index};
ghost use Rattle.mail_date.specs.Words.{ends_word, is_separator, escaped_after, words};

use crate::names::{WEEKDAYS, index_in};
use kit::{begins_quoted_pair, depth_after};

fn is_separator(byte: u8) -> bool
    ensures { result ≡ is_separator byte }
{
    b" \t,".contains(&byte)
}

fn ends_word(byte: u8) -> bool
    ensures { result ≡ ends_word byte }
{
    is_separator(byte) || byte == b'('
}

/// Whether the next byte is the second of a quoted-pair, which is in a comment alone.
fn escaped_after(depth: usize, escaped: bool, byte: u8) -> bool
    ensures { result ≡ escaped_after depth escaped byte }
{
    depth > 0 && begins_quoted_pair(escaped, byte)
}

/// The bytes from their first word on, if they have a word.
fn from_word(bytes: &[u8]) -> Option<&[u8]>
    ensures same { MatchOption result
        (words bytes.now ≡ [])
        (λ rest. words rest.now ≡ words bytes.now) }
    ensures some { IfSome result (λ rest. 0 < length rest.now) }
    ensures word { IfSome result (λ rest. IsFalse (ends_word (slice_index rest.now 0))) }
{
    let mut depth = 0;
    let mut escaped = false;
    for (at, byte) in bytes.iter().enumerate() {
        if depth == 0 && !ends_word(*byte) {
            return Some(&bytes[at..]);
        }
        let open = depth_after(depth, escaped, *byte);
        escaped = escaped_after(depth, escaped, *byte);
        depth = open;
    }
    None
}

fn word_end(bytes: &[u8]) -> Option<usize>
    ensures value { result ≡ position ends_word bytes.now }
    ensures bound { IfSome result (λ end. end < length bytes.now) }
{
    bytes.iter().position(|b| ends_word(*b))
}

/// The bytes of the word that they begin with, and those after it.
fn split_word(bytes: &[u8]) -> (&[u8], &[u8])
    requires some { 0 < length bytes.now }
    requires word { IsFalse (ends_word (slice_index bytes.now 0)) }
    ensures { words bytes.now ≡ result.0.now ∷ words result.1.now }
{
    bytes.split_at(word_end(bytes).unwrap_or(bytes.len()))
}

/// The words of a body that are still to be read, from the left.
#[derive(Drop)]
pub struct Words<'a> {
    rest: &'a [u8],
}

impl<'a> Words<'a> {
    ghost use Rattle.std.specs.Prelude.{◌≡◌, [], ◌∷◌, MatchOption};
    ghost use Rattle.mail_date.specs.Moment.{without_weekday};
    ghost use Rattle.mail_date.specs.Words.{words};

    pub fn of(body: &'a [u8]) -> Self
        ensures { result.rest.now ≡ body.now }
    {
        Words { rest: body }
    }

    /// The next word, if there is one.
    pub fn next(&mut self) -> Option<&'a [u8]>
        ensures { MatchOption result
            (words self.old.rest.now ≡ [])
            (λ word. words self.old.rest.now ≡ word.now ∷ words self.new.rest.now) }
    {
        let (word, rest) = split_word(from_word(self.rest)?);
        self.rest = rest;
        Some(word)
    }

    /// The next word, or the one after it where that is a weekday.
    pub fn next_but_weekday(&mut self) -> Option<&'a [u8]>
        ensures { MatchOption result
            (without_weekday (words self.old.rest.now) ≡ [])
            (λ word. without_weekday (words self.old.rest.now) ≡ word.now ∷ words self.new.rest.now) }
    {
        let word = self.next()?;
        if index_in(&WEEKDAYS, word).is_some() {
            return self.next();
        }
        Some(word)
    }
}
