//! The message ids in the body of a field.
ghost use Rattle.std.specs.Prelude.{◌≡◌, ◌<◌, ◌∷◌, [], ◌++◌, IfOk, OnOk, MatchOption, length, map, filter};
ghost use Rattle.std.specs.List.{list_any};
ghost use Rattle.kit.specs.Ids.{is_id};
ghost use Rattle.kit.specs.White.{is_white};
ghost use Rattle.mail_headers.specs.Ids.{angles, without_white, at_words, ids};

use kit::{Id, Memory, is_white, split_once};
use std::alloc::Global;

/// What the first angle brackets enclose, and what follows them.
fn first_angle(bytes: &[u8]) -> Option<(&[u8], &[u8])>
    ensures { MatchOption result (angles bytes.now ≡ [])
        (λ p. (angles bytes.now ≡ p.0.now ∷ angles p.1.now) × (length p.1.now < length bytes.now)) }
{
    let (_outside, opened) = split_once(bytes, b'<')?;
    split_once(opened, b'>')
}

fn without_white(alloc: Global, bytes: &[u8]) -> Result<Vec<u8>, Memory>
    ensures { IfOk result (λ kept. kept.items ≡ without_white bytes.now) }
{
    let kept = bytes
        .iter()
        .copied()
        .filter(|b| !is_white(*b))
        .collect(alloc)?;
    Ok(kept)
}

/// Appends the id that the bytes are, if they are one.
fn push_id(alloc: Global, found: &mut Vec<Id>, bytes: &[u8]) -> Result<(), Memory>
    ensures { OnOk result (found.new.items ≡ found.old.items ++ filter is_id (bytes.now ∷ [])) }
{
    if let Some(id) = Id::read(alloc, bytes)? {
        found.push(id)?;
    }
    Ok(())
}

fn has_white(bytes: &[u8]) -> bool
    ensures { result ≡ list_any is_white bytes.now }
{
    bytes.iter().any(|b| is_white(*b))
}

/// Appends the id between angle brackets, if there is one. Few hold white space, and only those are copied.
fn push_angle(alloc: Global, found: &mut Vec<Id>, inside: &[u8]) -> Result<(), Memory>
    ensures { OnOk result (found.new.items ≡ found.old.items ++ filter is_id (without_white inside.now ∷ [])) }
{
    if has_white(inside) {
        push_id(alloc, found, &without_white(alloc, inside)?)
    } else {
        push_id(alloc, found, inside)
    }
}

fn angle_ids(alloc: Global, body: &[u8]) -> Result<Vec<Id>, Memory>
    ensures { IfOk result (λ found. found.items ≡ filter is_id (map without_white (angles body.now))) }
{
    let mut found = Vec::new(alloc);
    let mut rest = body;
    while let Some((inside, after)) = first_angle(rest) {
        push_angle(alloc, &mut found, inside)?;
        rest = after;
    }
    Ok(found)
}

/// The ids among the words between white space and commas that hold an `@`.
fn word_ids(alloc: Global, body: &[u8]) -> Result<Vec<Id>, Memory>
    ensures { IfOk result (λ found. found.items ≡ filter is_id (at_words body.now)) }
{
    let words = body
        .split(|b| is_white(*b) || *b == b',')
        .filter(|word| word.contains(&b'@'));
    let mut found = Vec::new(alloc);
    for word in words {
        push_id(alloc, &mut found, word)?;
    }
    Ok(found)
}

/// The ids in the body of a field such as Message-ID or References, in their order; one that is there
/// twice is given twice (RFC 5322, sections 3.6.4 and 4.5.4). Where the body holds a `<`, these are
/// what is between each `<` and the next `>`, with white space removed, where that reads as an id.
/// Where it holds none, they are the words between white space and commas that hold an `@` and read as
/// an id. White space is space and tab. Takes memory; `Err` only when it runs out.
pub fn ids(alloc: Global, body: &[u8]) -> Result<Vec<Id>, Memory>
    ensures { IfOk result (λ found. found.items ≡ ids body.now) }
{
    if body.contains(&b'<') {
        angle_ids(alloc, body)
    } else {
        word_ids(alloc, body)
    }
}
