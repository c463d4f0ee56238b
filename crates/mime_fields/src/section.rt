//! Parameters in sections and in a charset of their own (RFC 2231).
ghost use Rattle.std.specs.Prelude.{◌≡◌, ◌++◌, ◌∷◌, ℕ, List, [], IfOk, OnOk, Some, None, bytes_eq, flat_map, if◌then◌else◌, length, option_map};
ghost use Rattle.std.specs.Option.{option_or};
ghost use Rattle.encoded_words.specs.Runs.{decode_words};
ghost use Rattle.mime_fields.specs.RawParams.{raw_params, value_of};
ghost use Rattle.mime_fields.specs.Sections.{Encoded, charset_and_bytes, named_charset, numbered_section, numbered_sections, opening, param_value, section_bytes, sections, sections_text};
ghost use Rattle.mime_fields.specs.Views.{first_value_under, held, names_text, sections_from, shown, under, value_under};

use crate::named::NamedParams;
use crate::raw_param::{push_value, value_of};
use encoded_words::decode_words;
use kit::{Charset, Memory, Text, charset_of, split_once, to_text};
use percent_encoding::percent_decode;
use std::alloc::Global;
use std::collections::BTreeMap;

/// What follows the `=` of the first parameter of each full name, as `title*1*`.
type Firsts<'a> = BTreeMap<&'a str, &'a [u8]>;

/// The values of the parameters of a field.
#[derive(Drop)]
pub struct Values<'a> {
    /// The first one of each full name.
    firsts: Firsts<'a>,
    /// How many parameters the field has, as they are written.
    count: usize,
}

/// A section of a value, or all of it, as it follows its `=`.
#[derive(Clone, Copy)]
enum Section<'a> {
    /// Bytes as they are.
    Plain(&'a [u8]),
    /// Bytes that are percent-encoded (RFC 2231, section 4).
    Encoded(&'a [u8]),
}

/// Puts a value under a name that has none.
fn put_first<'a>(firsts: &mut Firsts<'a>, name: &'a str, value: &'a [u8]) -> Result<(), Memory>
    ensures { OnOk result ((q : List ℕ) → held firsts.new q
        ≡ option_or (held firsts.old q) (if bytes_eq q name.now then Some (value_of value.now) else None)) }
{
    if !firsts.contains_key(name) {
        firsts.insert(name, value)?;
    }
    Ok(())
}

/// Puts a value under a name, if that begins with a prefix and has none.
fn put<'a>(
    firsts: &mut Firsts<'a>,
    prefix: &[u8],
    name: &'a str,
    value: &'a [u8],
) -> Result<(), Memory>
    ensures { OnOk result ((q : List ℕ) → held firsts.new q
        ≡ option_or (held firsts.old q) (value_under prefix.now (under name.now value.now) q)) }
{
    if name.as_bytes().starts_with(prefix) {
        put_first(firsts, name, value)?;
    }
    Ok(())
}

/// The values of the parameters in the body of a field, of those whose full names begin with a prefix. The names are
/// those of all of its parameters.
pub fn values_in<'a>(
    alloc: Global,
    prefix: &[u8],
    names: &'a str,
    body: &'a [u8],
) -> Result<Values<'a>, Memory>
    requires { names.now ≡ names_text (raw_params body.now) }
    ensures firsts { IfOk result (λ values. held values.firsts ≡ first_value_under prefix.now (raw_params body.now)) }
    ensures count { IfOk result (λ values. values.count ≡ length (raw_params body.now)) }
{
    let mut firsts = BTreeMap::new(alloc);
    let mut count = 0;
    let mut left = NamedParams::new(names, body);
    while let Some((name, value, rest)) = left.split_first(alloc)? {
        put(&mut firsts, prefix, name, value)?;
        count += 1;
        left = rest;
    }
    Ok(Values { firsts, count })
}

fn value_at<'a>(values: &Values<'a>, name: &str) -> Option<&'a [u8]>
    ensures { option_map (λ text. value_of text.now) result ≡ held values.now.firsts name.now }
{
    values.firsts.get(name).copied()
}

/// The section of a number, if the parameter has it: `name*1`, or else `name*1*`.
fn numbered_section<'a>(
    alloc: Global,
    values: &Values<'a>,
    name: &str,
    number: usize,
) -> Result<Option<Section<'a>>, Memory>
    ensures { IfOk result (λ found. option_map shown found ≡ numbered_section (held values.now.firsts) name.now number) }
{
    let mut key = format!(in alloc; "{name}*{number}")?;
    if let Some(text) = value_at(values, key.as_str()) {
        return Ok(Some(Section::Plain(text)));
    }
    key.push('*')?;
    match value_at(values, key.as_str()) {
        Some(text) => Ok(Some(Section::Encoded(text))),
        None => Ok(None),
    }
}

fn named_charset(name: &[u8]) -> Charset
    ensures { result ≡ named_charset name.now }
{
    if name.is_empty() {
        Charset::Utf8
    } else {
        charset_of(name)
    }
}

/// The charset that a value names, and the bytes after the language.
fn charset_and_bytes(value: &[u8]) -> Option<(Charset, &[u8])>
    ensures { option_map (λ p. (p.0, p.1.now)) result ≡ charset_and_bytes value.now }
{
    let (charset, rest) = split_once(value, b'\'')?;
    let (_language, bytes) = split_once(rest, b'\'')?;
    Some((named_charset(charset), bytes))
}

/// The charset of an encoded value, and the bytes that are encoded.
fn opening(value: &[u8]) -> (Charset, &[u8])
    ensures { (result.0, Encoded result.1.now) ≡ opening (Encoded value.now) }
{
    match charset_and_bytes(value) {
        Some(parts) => parts,
        None => (Charset::Utf8, value),
    }
}

/// Appends the bytes of a section of a value.
fn push_section(out: &mut Vec<u8>, section: &Section) -> Result<(), Memory>
    ensures { OnOk result (out.new.items ≡ out.old.items ++ section_bytes (shown section.now)) }
{
    match section {
        Section::Plain(text) => push_value(out, text)?,
        Section::Encoded(text) => {
            let value = value_of(*out.allocator(), text)?;
            percent_decode(&value).append_to(out)?;
        }
    }
    Ok(())
}

/// Appends the bytes of the sections of the numbers from 1 on, up to the first that is missing.
fn push_later_sections(out: &mut Vec<u8>, values: &Values, name: &str) -> Result<(), Memory>
    ensures { OnOk result (out.new.items
        ≡ out.old.items ++ flat_map section_bytes (sections_from (held values.now.firsts) name.now 1 values.now.count)) }
{
    let alloc = *out.allocator();
    for number in 1..values.count {
        match numbered_section(alloc, values, name, number)? {
            Some(section) => push_section(out, &section)?,
            None => break,
        }
    }
    Ok(())
}

/// The charset of a value of which this is the first section, and the bytes of that section.
fn opened(alloc: Global, first: &Section) -> Result<(Charset, Vec<u8>), Memory>
    ensures charset { IfOk result (λ p. p.0 ≡ (opening (shown first.now)).0) }
    ensures bytes { IfOk result (λ p. p.1.items ≡ section_bytes (opening (shown first.now)).1) }
{
    match first {
        Section::Plain(text) => Ok((Charset::Utf8, value_of(alloc, text)?)),
        Section::Encoded(text) => {
            let value = value_of(alloc, text)?;
            let (charset, encoded) = opening(&value);
            let mut bytes = Vec::new(alloc);
            percent_decode(encoded).append_to(&mut bytes)?;
            Ok((charset, bytes))
        }
    }
}

/// The text of an encoded value that is not in sections.
fn encoded_text(alloc: Global, text: &[u8]) -> Result<Text, Memory>
    ensures { IfOk result (λ read. Some read ≡ sections_text (Encoded (value_of text.now) ∷ [])) }
{
    let (charset, bytes) = opened(alloc, &Section::Encoded(text))?;
    to_text(alloc, charset, &bytes)
}

/// The text of the numbered sections, if there are any.
fn numbered_text(alloc: Global, values: &Values, name: &str) -> Result<Option<Text>, Memory>
    ensures { IfOk result (λ text. text ≡ sections_text (numbered_sections (held values.now.firsts) values.now.count name.now)) }
{
    if values.count == 0 {
        return Ok(None);
    }
    let Some(first) = numbered_section(alloc, values, name, 0)? else {
        return Ok(None);
    };
    let (charset, mut bytes) = opened(alloc, &first)?;
    push_later_sections(&mut bytes, values, name)?;
    Ok(Some(to_text(alloc, charset, &bytes)?))
}

/// The text of `name*`, or else of the numbered sections.
fn sections_text(alloc: Global, values: &Values, name: &str) -> Result<Option<Text>, Memory>
    ensures { IfOk result (λ text. text ≡ sections_text (sections (held values.now.firsts) values.now.count name.now)) }
{
    let key = format!(in alloc; "{name}*")?;
    match value_at(values, key.as_str()) {
        Some(text) => Ok(Some(encoded_text(alloc, text)?)),
        None => numbered_text(alloc, values, name),
    }
}

/// The text of the name alone, if it has a value.
fn plain_text(alloc: Global, values: &Values, name: &str) -> Result<Option<Text>, Memory>
    ensures { IfOk result (λ text. text ≡ option_map decode_words (held values.now.firsts name.now)) }
{
    match value_at(values, name) {
        Some(text) => Ok(Some(decode_words(alloc, &value_of(alloc, text)?)?)),
        None => Ok(None),
    }
}

/// The value of the parameter of a name: that of its sections (RFC 2231), or else that of the name alone, with encoded
/// words read.
pub fn param_value(alloc: Global, values: &Values, name: &str) -> Result<Option<Text>, Memory>
    ensures { IfOk result (λ text. text ≡ param_value (held values.now.firsts) values.now.count name.now) }
{
    match sections_text(alloc, values, name)? {
        Some(text) => Ok(Some(text)),
        None => plain_text(alloc, values, name),
    }
}
