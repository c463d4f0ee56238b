//! Charsets.
ghost use Rattle.std.specs.Prelude.{◌≡◌, IfOk, map, encode_utf8_all};
ghost use Rattle.std.specs.String.{string_bytes};
ghost use Rattle.kit.specs.Charsets.{ascii_char, charset_of, to_text};

use crate::letters::same_name;
use crate::memory::Memory;
use crate::text::Text;
use std::alloc::Global;

/// How bytes are read as a text. Each charset reads any bytes: what is no character in it becomes
/// U+FFFD, the replacement character.
#[derive(Clone, Copy, Debug, PartialEq, Eq)]
pub enum Charset {
    /// UTF-8 (RFC 3629).
    Utf8,
    /// ISO 8859-1, where a byte is the character of its number.
    Latin1,
    /// ASCII, and any charset that is not known: of it only the bytes below 128 are read.
    Ascii,
}

/// The charset of a name, in which the case of ASCII letters does not count (RFC 2046, section 4.1.2):
/// `utf-8` and `utf8` are `Utf8`, `iso-8859-1` and `latin1` are `Latin1`, and every other name, also
/// none, is `Ascii`. Takes no memory.
pub fn charset_of(name: &[u8]) -> Charset
    ensures { result ≡ charset_of name.now }
{
    if same_name(name, b"utf-8") || same_name(name, b"utf8") {
        Charset::Utf8
    } else if same_name(name, b"iso-8859-1") || same_name(name, b"latin1") {
        Charset::Latin1
    } else {
        Charset::Ascii
    }
}

fn latin1(alloc: Global, bytes: &[u8]) -> Result<String, Memory>
    ensures { IfOk result (λ text. string_bytes text ≡ encode_utf8_all bytes.now) }
{
    Ok(bytes.iter().map(|b| char::from(*b)).collect(alloc)?)
}

fn ascii_char(byte: &u8) -> char
    ensures { result ≡ ascii_char byte.now }
{
    if byte.is_ascii() {
        char::from(*byte)
    } else {
        char::REPLACEMENT_CHARACTER
    }
}

fn ascii(alloc: Global, bytes: &[u8]) -> Result<String, Memory>
    ensures { IfOk result (λ text. string_bytes text ≡ encode_utf8_all (map ascii_char bytes.now)) }
{
    Ok(bytes.iter().map(ascii_char).collect(alloc)?)
}

/// The text of bytes of any length in a charset. In `Utf8` each longest run of bytes that begins a
/// character and does not complete it becomes one U+FFFD, and so does each byte that begins none; in
/// `Latin1` byte b is the character of number b; in `Ascii` each byte from 128 on becomes U+FFFD (RFC
/// 3629, section 3; RFC 2045, section 2.2). Takes memory; `Err` only when it runs out.
pub fn to_text(alloc: Global, charset: Charset, bytes: &[u8]) -> Result<Text, Memory>
    ensures { IfOk result (λ text. text ≡ to_text charset bytes.now) }
{
    let text = match charset {
        Charset::Utf8 => String::from_utf8_lossy(alloc, bytes)?,
        Charset::Latin1 => latin1(alloc, bytes)?,
        Charset::Ascii => ascii(alloc, bytes)?,
    };
    Ok(Text::from(text))
}
