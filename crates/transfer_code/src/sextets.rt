//! Base64.
ghost use Rattle.std.specs.Prelude.{◌≡◌, ◌++◌, ◌<◌, ◌≤◌, ◌*◌, ◌/◌, ℕ, not, List, Ok, filter, length, position, IfOk, IfSome, OnOk};
ghost use Rattle.std.specs.List.{count_by};
ghost use Rattle.base64.specs.Engines.{standard_no_pad};
ghost use Rattle.base64.specs.GeneralPurpose.{decode_of, encode_of, IsBytes};
ghost use Rattle.transfer_code.specs.Base64.{IsEncoded, before_padding, completed, decode_base64, is_symbol};

use base64::DecodeAllocError;
use base64::engine::general_purpose::STANDARD_NO_PAD;
use kit::Memory;
use memchr::memchr;
use std::alloc::Global;

fn is_symbol(b: u8) -> bool
    ensures { result ≡ is_symbol b }
{
    match b {
        b'+' | b'/' => true,
        _ => b.is_ascii_alphanumeric(),
    }
}

/// What precedes the first `=`.
fn before_padding(bytes: &[u8]) -> &[u8]
    ensures { result.now ≡ before_padding bytes.now }
{
    match memchr(b'=', bytes) {
        Some(at) => &bytes[..at],
        None => bytes,
    }
}

/// The offset of the first byte that is no symbol.
fn first_other(bytes: &[u8]) -> Option<usize>
    ensures value { result ≡ position (λ b. not (is_symbol b)) bytes.now }
    ensures bound { IfSome result (λ at. at < length bytes.now) }
{
    bytes.iter().position(|b| !is_symbol(*b))
}

/// The symbols before the first byte that is none, and what follows that byte.
fn split_symbols(bytes: &[u8]) -> (&[u8], &[u8])
    ensures value { filter is_symbol bytes.now ≡ result.0.now ++ filter is_symbol result.1.now }
    ensures shorter { 0 < length bytes.now → length result.1.now < length bytes.now }
{
    match first_other(bytes) {
        Some(at) => (&bytes[..at], &bytes[at + 1..]),
        None => (bytes, b""),
    }
}

/// The bytes that are symbols.
fn symbols_of(alloc: Global, bytes: &[u8]) -> Result<Vec<u8>, Memory>
    ensures { IfOk result (λ symbols. symbols.items ≡ filter is_symbol bytes.now) }
{
    // Room for all bytes and for the two that `complete` adds at most, so that nothing is moved.
    let mut symbols = Vec::with_capacity(alloc, bytes.len() + 2)?;
    let mut left = bytes;
    while !left.is_empty() {
        let (run, rest) = split_symbols(left);
        symbols.extend_from_slice(run)?;
        left = rest;
    }
    Ok(symbols)
}

/// How many of at most 255 bytes are symbols. A count of one byte lets a processor count many bytes at once.
fn count_few(bytes: &[u8]) -> u8
    requires { length bytes.now ≤ 255 }
    ensures { result ≡ count_by is_symbol bytes.now }
{
    let mut count = 0;
    for b in bytes {
        count += u8::from(is_symbol(*b));
    }
    count
}

/// How many of the bytes are symbols.
fn count_symbols(bytes: &[u8]) -> usize
    ensures { result ≡ count_by is_symbol bytes.now }
{
    let mut count = 0;
    let mut left = bytes;
    while !left.is_empty() {
        let (few, rest) = left.split_at(left.len().min(255));
        count += usize::from(count_few(few));
        left = rest;
    }
    count
}

/// Makes whole groups of four of the symbols: one left over is dropped, and two or three are filled up
/// with `A`, which is six zero bits.
fn complete(symbols: &mut Vec<u8>) -> Result<(), Memory>
    ensures { OnOk result (symbols.new.items ≡ completed symbols.old.items) }
{
    match symbols.len() % 4 {
        1 => symbols.truncate(symbols.len() - 1),
        2 => symbols.extend_from_slice(b"AA")?,
        3 => symbols.push(b'A')?,
        _ => {}
    }
    Ok(())
}

/// What the symbols of an encoder decode to.
fn decode_exactly(alloc: Global, symbols: &[u8]) -> Result<Vec<u8>, Memory>
    requires { IsEncoded symbols.now }
    ensures value { IfOk result (λ out. decode_of standard_no_pad symbols.now ≡ Ok out.items) }
    ensures strict { (bytes : List ℕ) → IsBytes bytes → symbols.now ≡ encode_of standard_no_pad bytes → decode_of standard_no_pad symbols.now ≡ Ok bytes }
{
    match STANDARD_NO_PAD.decode(alloc, symbols) {
        Ok(decoded) => Ok(decoded),
        Err(DecodeAllocError::OutOfMemory) => Err(Memory),
        // This is proved: what was encoded decodes.
        Err(DecodeAllocError::DecodeError(_)) => unreachable!(),
    }
}

/// How many bytes so many symbols of six bits each decode to: a last short one is dropped.
fn whole_bytes(symbols: usize) -> usize
    ensures { result ≡ 6 * symbols / 8 }
{
    symbols - symbols.div_ceil(4)
}

/// How many bytes text in base64 decodes to.
pub fn base64_len(bytes: &[u8]) -> usize
    ensures { result ≡ length (decode_base64 bytes.now) }
{
    whole_bytes(count_symbols(before_padding(bytes)))
}

/// The bytes that text in base64 decodes to.
pub fn decode_base64(alloc: Global, bytes: &[u8]) -> Result<Vec<u8>, Memory>
    ensures { IfOk result (λ out. out.items ≡ decode_base64 bytes.now) }
{
    let mut symbols = symbols_of(alloc, before_padding(bytes))?;
    let whole = whole_bytes(symbols.len());
    complete(&mut symbols)?;
    let mut out = decode_exactly(alloc, &symbols)?;
    out.truncate(whole);
    Ok(out)
}
