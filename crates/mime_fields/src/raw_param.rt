//! Parameters as they are written.
ghost use Rattle.std.specs.Prelude.{◌≡◌, ◌++◌, [], ◌∷◌, IfOk, MatchOption, OnOk};
ghost use Rattle.std.specs.Option.{option_copied};
ghost use Rattle.std.specs.String.{string_bytes};
ghost use Rattle.kit.specs.Letters.{lowered};
ghost use Rattle.mime_fields.specs.RawParams.{after_quote, bare, inside, name_of, value_of};
ghost use Rattle.mime_fields.specs.Views.{params_in, written};

use crate::segment::Segments;
use kit::{Memory, before_first, begins_quoted_pair, is_blank, lower, split_once, trim};
use std::alloc::Global;

/// A parameter as it is written, `name=value` (RFC 2045, section 5.1), in the body of its field.
#[derive(Clone, Copy)]
pub struct RawParam<'a> {
    /// What precedes the first `=`.
    pub name: &'a [u8],
    /// What follows it.
    pub value: &'a [u8],
}

/// The first parameter that segments hold, and the segments after it: `None` exactly where none has a `=`.
pub fn next_param(segments: Segments<'_>) -> Option<(RawParam<'_>, Segments<'_>)>
    ensures { MatchOption result (params_in segments.entry ≡ [])
        (λ p. params_in segments.entry ≡ written p.0 ∷ params_in p.1) }
{
    let mut left = segments;
    while let Some((segment, rest)) = left.split_first() {
        if let Some((name, value)) = split_once(segment, b'=') {
            return Some((RawParam { name, value }, rest));
        }
        left = rest;
    }
    None
}

/// Appends what a quoted string has inside, of the bytes after its first quote (RFC 5322, section 3.2.4).
fn push_inside(out: &mut Vec<u8>, bytes: &[u8]) -> Result<(), Memory>
    ensures { OnOk result (out.new.items ≡ out.old.items ++ inside bytes.now) }
{
    let mut escaped = false;
    for byte in bytes {
        if *byte == b'"' && !escaped {
            break;
        }
        escaped = begins_quoted_pair(escaped, *byte);
        if !escaped {
            out.push(*byte)?;
        }
    }
    Ok(())
}

/// What follows the quote that a value begins with.
fn after_quote(text: &[u8]) -> Option<&[u8]>
    ensures { option_copied result ≡ after_quote text.now }
{
    let (before, after) = split_once(text, b'"')?;
    if is_blank(before) { Some(after) } else { None }
}

/// A value that is no quoted string: it ends before a comment.
fn bare(text: &[u8]) -> &[u8]
    ensures { result.now ≡ bare text.now }
{
    trim(before_first(text, b'('))
}

/// Appends the value that follows a `=`: what is inside its quotes, or all of it.
pub fn push_value(out: &mut Vec<u8>, text: &[u8]) -> Result<(), Memory>
    ensures { OnOk result (out.new.items ≡ out.old.items ++ value_of text.now) }
{
    match after_quote(text) {
        Some(quoted) => push_inside(out, quoted)?,
        None => out.extend_from_slice(bare(text))?,
    }
    Ok(())
}

/// The value that follows a `=`.
pub fn value_of(alloc: Global, text: &[u8]) -> Result<Vec<u8>, Memory>
    ensures { IfOk result (λ value. value.items ≡ value_of text.now) }
{
    let mut value = Vec::new(alloc);
    push_value(&mut value, text)?;
    Ok(value)
}

/// A copy of a name in small letters.
pub fn lowered(alloc: Global, name: &[u8]) -> Result<Vec<u8>, Memory>
    ensures { IfOk result (λ letters. letters.items ≡ lowered name.now) }
{
    let mut letters = Vec::from_slice(alloc, name)?;
    lower(&mut letters);
    Ok(letters)
}

/// The full name that precedes a `=`, in small letters, as `title*1*`.
pub fn name_of(alloc: Global, text: &[u8]) -> Result<String, Memory>
    ensures { IfOk result (λ name. string_bytes name ≡ name_of text.now) }
{
    let letters = lowered(alloc, trim(text))?;
    Ok(String::from_utf8_lossy(alloc, &letters)?)
}
