//! The words in bytes, and the plain runs between them.
ghost use Rattle.std.specs.Prelude.{◌≡◌, ◌++◌, ◌<◌, true, IfOk, OnOk, MatchOption, length};
ghost use Rattle.std.specs.String.{string_bytes};
ghost use Rattle.kit.specs.declared.charset.Charset.TheVariants.{Utf8};
ghost use Rattle.kit.specs.Charsets.{to_text};
ghost use Rattle.encoded_words.specs.Words.{word_text};
ghost use Rattle.encoded_words.specs.Views.{found};
ghost use Rattle.encoded_words.specs.Runs.{Last, Next, runs, kept, decode_words, rewritten, text_of};

use crate::word::{Word, word_at};
use kit::{Charset, Memory, Text, is_blank, to_text};
use std::alloc::Global;

/// The first word in bytes, with the plain run before it.
fn first_word(bytes: &[u8]) -> Option<(&[u8], Word<'_>)>
    ensures { MatchOption result (runs bytes.now ≡ Last bytes.now)
        (λ f. (runs bytes.now ≡ Next f.0.now (found f.1) (runs f.1.rest.now)) × (length f.1.rest.now < length bytes.now)) }
{
    for at in 0..bytes.len() {
        if let Some(word) = word_at(&bytes[at..]) {
            return Some((&bytes[..at], word));
        }
    }
    None
}

/// What stays of a plain run between two words.
fn kept(plain: &[u8]) -> &[u8]
    ensures { result.now ≡ kept true plain.now }
{
    if is_blank(plain) { &plain[..0] } else { plain }
}

fn push_plain(out: &mut String, plain: &[u8]) -> Result<(), Memory>
    ensures { OnOk result (string_bytes out.new ≡ string_bytes out.old ++ to_text Utf8 plain.now) }
{
    let text = to_text(*out.allocator(), Charset::Utf8, plain)?;
    out.push_str(text.as_str())?;
    Ok(())
}

fn push_word(out: &mut String, word: &Word) -> Result<(), Memory>
    ensures { OnOk result (string_bytes out.new ≡ string_bytes out.old ++ word_text (found word.now)) }
{
    let text = word.text(*out.allocator())?;
    out.push_str(text.as_str())?;
    Ok(())
}

/// The text of a plain run, the word after it, and what follows that.
fn text_from_word(alloc: Global, plain: &[u8], word: &Word) -> Result<Text, Memory>
    ensures { IfOk result (λ text. text
        ≡ to_text Utf8 plain.now ++ word_text (found word.now) ++ text_of (rewritten true (runs word.now.rest.now))) }
{
    let mut out = String::new(alloc);
    push_plain(&mut out, plain)?;
    push_word(&mut out, word)?;
    let mut rest = word.rest;
    while let Some((plain, word)) = first_word(rest) {
        push_plain(&mut out, kept(plain))?;
        push_word(&mut out, &word)?;
        rest = word.rest;
    }
    push_plain(&mut out, rest)?;
    Ok(Text::from(out))
}

/// The text of the body of a header field, of any length, with each encoded word read (RFC 2047). Takes memory;
/// `Err` only when it runs out.
///
/// A word is `=?`, a charset, `?`, `Q` or `B` of either case, `?`, a text, and `?=`: the charset is of one or more bytes
/// from 33 to 126, and the text of bytes from 32 to 126, or empty; neither holds a `?`. Words are found from the left,
/// wherever they are. Of the charset a `*` and what follows it are dropped (RFC 2231, section 5). Each word is
/// read by itself, so what it cuts short of a character stays short. White space alone between two words is dropped,
/// and every other plain run is read as UTF-8.
pub fn decode_words(alloc: Global, body: &[u8]) -> Result<Text, Memory>
    ensures { IfOk result (λ text. text ≡ decode_words body.now) }
{
    match first_word(body) {
        Some((plain, word)) => text_from_word(alloc, plain, &word),
        None => to_text(alloc, Charset::Utf8, body),
    }
}
