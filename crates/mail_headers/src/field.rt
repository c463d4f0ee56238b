//! Header fields, read from the lines of a mail.
ghost use Rattle.std.specs.Prelude.{◌≡◌, ◌<◌, [], ◌∷◌, ◌++◌, MatchOption, OnOk, length, map, option_map};
ghost use Rattle.std.specs.List.{cons_option};
ghost use Rattle.kit.specs.Lines.{content, raw_lines};
ghost use Rattle.kit.specs.White.{trim};
ghost use Rattle.mail_headers.specs.Fields.{name_and_rest, continues, continuation, field_of};
ghost use Rattle.mail_headers.specs.Layout.{IsFull, all_fields};

use crate::fields::Fields;
use kit::{Memory, content, is_visible, is_white, split_line, split_once, trim, trim_end};

/// Whether a line continues the one before it (RFC 5322, section 2.2.3).
fn continues(line: &[u8]) -> bool
    ensures { result ≡ continues line.now }
{
    match line {
        [first, ..] => is_white(*first),
        [] => false,
    }
}

/// The name of a field line, and what follows its colon. White space before the colon is obsolete
/// (RFC 5322, section 4.5.8), and not of the name. No name begins with white space, so a line that
/// continues another is not searched for a colon.
fn name_and_rest(line: &[u8]) -> Option<(&[u8], &[u8])>
    ensures { option_map (λ p. (p.0.now, p.1.now)) result ≡ name_and_rest line.now }
{
    if continues(line) {
        return None;
    }
    let (before, rest) = split_once(line, b':')?;
    let name = trim_end(before);
    if !is_visible(name) {
        return None;
    }
    Some((name, rest))
}

/// The content of the first of the lines that follow a line, and what follows it: `None` where it does not
/// continue that line.
fn split_continuation(following: &[u8]) -> Option<(&[u8], &[u8])>
    ensures { MatchOption result (continuation (map content (raw_lines following.now)) ≡ [])
        (λ p. (continuation (map content (raw_lines following.now)) ≡ p.0.now ++ continuation (map content (raw_lines p.1.now)))
        × (length p.1.now < length following.now)) }
{
    if !continues(following) {
        return None;
    }
    let (raw, rest) = split_line(following)?;
    Some((content(raw), rest))
}

/// Appends the lines that continue the line before these.
fn push_continuation(body: &mut Vec<u8>, following: &[u8]) -> Result<(), Memory>
    ensures { OnOk result (body.new.items ≡ body.old.items ++ continuation (map content (raw_lines following.now))) }
{
    let mut left = following;
    while let Some((line, rest)) = split_continuation(left) {
        body.extend_from_slice(line)?;
        left = rest;
    }
    Ok(())
}

/// Puts a field after the last one: its name, and a body that begins with the rest of its first line. Most are
/// of that line alone, and copied once; a longer body is made whole in `unfolded` first.
fn push_field(
    fields: &mut Fields,
    unfolded: &mut Vec<u8>,
    name: &[u8],
    rest: &[u8],
    following: &[u8],
) -> Result<(), Memory>
    requires { IsFull fields.old }
    ensures full { OnOk result (IsFull fields.new) }
    ensures fields { OnOk result (all_fields fields.new ≡ all_fields fields.old
        ++ record { name = name.now; body = trim (rest.now ++ continuation (map content (raw_lines following.now))) } ∷ []) }
{
    if split_continuation(following).is_none() {
        return fields.push(name, trim(rest));
    }
    unfolded.clear();
    unfolded.extend_from_slice(rest)?;
    push_continuation(unfolded, following)?;
    fields.push(name, trim(unfolded))
}

/// Puts the field that begins in a line after the last one, if one does. The bytes that follow the line in the
/// mail may continue it. What `unfolded` holds is dropped. Takes memory; `Err` only when it runs out.
pub fn push_line(
    fields: &mut Fields,
    unfolded: &mut Vec<u8>,
    line: &[u8],
    following: &[u8],
) -> Result<(), Memory>
    requires { IsFull fields.old }
    ensures full { OnOk result (IsFull fields.new) }
    ensures fields { OnOk result (all_fields fields.new ≡ all_fields fields.old
        ++ cons_option (field_of line.now (map content (raw_lines following.now))) []) }
{
    match name_and_rest(line) {
        Some((name, rest)) => push_field(fields, unfolded, name, rest, following),
        None => Ok(()),
    }
}
