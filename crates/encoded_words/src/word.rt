//! One encoded word.
ghost use Rattle.std.specs.Prelude.{◌≡◌, IfOk, map, option_map};
ghost use Rattle.encoded_words.specs.Words.{without_language, coding_of, word_at, spaced, coded_bytes, word_text};
ghost use Rattle.encoded_words.specs.Views.{found};

use kit::{
    Charset, Memory, Text, before_first, charset_of, is_printing, is_visible, same_name,
    split_once, strip_prefix, to_text,
};
use std::alloc::Global;
use transfer_code::{Encoding, decode_body, unescaped};

/// How the text of a word encodes bytes (RFC 2047, section 4).
#[derive(Clone, Copy, Debug, PartialEq, Eq)]
pub enum Coding {
    /// Like quoted-printable, with `_` for a space.
    Q,
    /// Base64.
    B,
}

/// A word that was found in bytes.
#[derive(Clone, Copy)]
pub struct Word<'a> {
    charset: Charset,
    coding: Coding,
    text: &'a [u8],
    /// The bytes after the word.
    pub rest: &'a [u8],
}

/// The name of a charset, without a language after it.
fn without_language(name: &[u8]) -> &[u8]
    ensures { result.now ≡ without_language name.now }
{
    before_first(name, b'*')
}

fn coding_of(name: &[u8]) -> Option<Coding>
    ensures { result ≡ coding_of name.now }
{
    if same_name(name, b"q") {
        Some(Coding::Q)
    } else if same_name(name, b"b") {
        Some(Coding::B)
    } else {
        None
    }
}

/// The word that bytes begin with.
pub fn word_at(bytes: &[u8]) -> Option<Word<'_>>
    ensures { option_map found result ≡ word_at bytes.now }
{
    let (charset, rest) = split_once(strip_prefix(bytes, b"=?")?, b'?')?;
    let (coding, rest) = split_once(rest, b'?')?;
    let (text, rest) = split_once(rest, b'?')?;
    let rest = strip_prefix(rest, b"=")?;
    if !is_visible(charset) || !is_printing(text) {
        return None;
    }
    Some(Word {
        charset: charset_of(without_language(charset)),
        coding: coding_of(coding)?,
        text,
        rest,
    })
}

fn spaced(b: &u8) -> u8
    ensures { result ≡ spaced b.now }
{
    if *b == b'_' { b' ' } else { *b }
}

fn with_spaces(alloc: Global, text: &[u8]) -> Result<Vec<u8>, Memory>
    ensures { IfOk result (λ out. out.items ≡ map spaced text.now) }
{
    Ok(text.iter().map(spaced).collect(alloc)?)
}

fn coded_bytes(alloc: Global, coding: Coding, text: &[u8]) -> Result<Vec<u8>, Memory>
    ensures { IfOk result (λ out. out.items ≡ coded_bytes coding text.now) }
{
    match coding {
        Coding::Q => unescaped(alloc, &with_spaces(alloc, text)?),
        Coding::B => decode_body(alloc, Encoding::Base64, text),
    }
}

impl Word<'_> {
    /// The text that the word encodes. Takes memory; `Err` only when it runs out.
    pub fn text(&self, alloc: Global) -> Result<Text, Memory>
        ensures { IfOk result (λ text. text ≡ word_text (found self.now)) }
    {
        let bytes = coded_bytes(alloc, self.coding, self.text)?;
        to_text(alloc, self.charset, &bytes)
    }
}
