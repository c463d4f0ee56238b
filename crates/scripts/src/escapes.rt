//! Escapes: how a script writes bytes on one line, and how a transcript shows them.
ghost use Rattle.std.specs.Prelude.{◌<◌};

use crate::lines::number;
use kit::Memory;
use std::alloc::Global;
use std::str;

/// The bytes that a text of a script writes. After a `\` stand `n`, `r`, `t`, another `\`, or the two hexadecimal digits of
/// a byte. `\x`, a number and a byte are so many of that byte, and `\*` stands for the bytes that are `kept`. All other bytes
/// stand for themselves.
pub fn unescaped(alloc: Global, text: &[u8], kept: &[u8]) -> Result<Vec<u8>, Memory> {
    let mut bytes = Vec::new(alloc);
    let mut rest = text;
    for _ in 0..text.len() {
        rest = add_unescaped(&mut bytes, rest, kept)?;
    }
    Ok(bytes)
}

/// Adds what the first byte or escape of a text stands for, and gives what follows it.
fn add_unescaped<'a>(bytes: &mut Vec<u8>, text: &'a [u8], kept: &[u8]) -> Result<&'a [u8], Memory> {
    match text {
        [b'\\', b'*', rest @ ..] => {
            bytes.extend_from_slice(kept)?;
            Ok(rest)
        }
        [b'\\', b'x', rest @ ..] => add_same(bytes, rest),
        [b'\\', letter, rest @ ..] if is_letter(*letter) => {
            bytes.push(byte_of(*letter))?;
            Ok(rest)
        }
        [b'\\', high, low, rest @ ..] => {
            bytes.push(16 * value_of(*high) + value_of(*low))?;
            Ok(rest)
        }
        [byte, rest @ ..] => {
            bytes.push(*byte)?;
            Ok(rest)
        }
        [] => Ok(text),
    }
}

/// Adds as many of a byte as the number before it tells, and gives what follows it.
fn add_same<'a>(bytes: &mut Vec<u8>, text: &'a [u8]) -> Result<&'a [u8], Memory> {
    let digits = text
        .iter()
        .position(|byte| !byte.is_ascii_digit())
        .unwrap_or(text.len());
    let [byte, rest @ ..] = &text[digits..] else {
        return Ok(&[]);
    };
    for _ in 0..number(&text[..digits]) {
        bytes.push(*byte)?;
    }
    Ok(rest)
}

/// Whether an escape is this one letter after its `\`.
fn is_letter(letter: u8) -> bool {
    matches!(letter, b'n' | b'r' | b't' | b'\\')
}

/// The byte that an escape of one letter stands for.
fn byte_of(letter: u8) -> u8 {
    match letter {
        b'n' => b'\n',
        b'r' => b'\r',
        b't' => b'\t',
        _ => letter,
    }
}

/// The value of a hexadecimal digit in small letters; 0 of any other byte.
fn value_of(digit: u8) -> u8
    ensures { result < 16 }
{
    match digit {
        b'0'..=b'9' => digit - b'0',
        b'a'..=b'f' => digit - b'a' + 10,
        _ => 0,
    }
}

/// Adds bytes with the escapes that `unescaped` reads. Characters of UTF-8 stand as they are where all of the bytes are
/// UTF-8.
pub fn add_text(said: &mut Vec<u8>, text: &[u8]) -> Result<(), Memory> {
    let is_utf8 = str::from_utf8(text).is_ok();
    for &byte in text {
        if is_utf8 && !byte.is_ascii() {
            said.push(byte)?;
        } else {
            add_byte(said, byte)?;
        }
    }
    Ok(())
}

fn add_byte(said: &mut Vec<u8>, byte: u8) -> Result<(), Memory> {
    match byte {
        b'\n' => said.extend_from_slice(b"\\n")?,
        b'\r' => said.extend_from_slice(b"\\r")?,
        b'\t' => said.extend_from_slice(b"\\t")?,
        b'\\' => said.extend_from_slice(b"\\\\")?,
        b' '..=b'~' => said.push(byte)?,
        _ => said.extend_from_slice(&[b'\\', digit(byte / 16), digit(byte % 16)])?,
    }
    Ok(())
}

/// The hexadecimal digit of a number below 16.
fn digit(number: u8) -> u8 {
    match number {
        0..=9 => b'0' + number,
        10 => b'a',
        11 => b'b',
        12 => b'c',
        13 => b'd',
        14 => b'e',
        _ => b'f',
    }
}
