//! The bytes that a script has kept in a place.
use kit::Memory;
use outside::Place;
use scripts::{first_word, number, unescaped};
use std::alloc::Global;

/// The place that a word names.
pub fn place_of(word: &[u8]) -> Option<Place> {
    match word {
        b"A" => Some(Place::A),
        b"B" => Some(Place::B),
        b"T" => Some(Place::T),
        _ => None,
    }
}

/// The fields one after the other. Where a change names one by its number, from 0, what it writes after it is in its place.
pub fn joined(alloc: Global, fields: &[Vec<u8>], change: &[u8]) -> Result<Vec<u8>, Memory> {
    let (field, text) = first_word(change);
    let other = unescaped(alloc, text, &[])?;
    let mut bytes = Vec::new(alloc);
    for (index, usual) in fields.iter().enumerate() {
        if !change.is_empty() && index as u64 == number(field) {
            bytes.extend_from_slice(&other)?;
        } else {
            bytes.extend_from_slice(usual)?;
        }
    }
    Ok(bytes)
}

/// An open slot with this number: its gate, the number, the length of its image and the image.
pub fn slot(alloc: Global, number: u64, image: &[u8]) -> Result<Vec<u8>, Memory> {
    let mut bytes = Vec::new(alloc);
    bytes.push(1)?;
    bytes.extend_from_slice(&number.to_be_bytes())?;
    bytes.extend_from_slice(&(image.len() as u64).to_be_bytes())?;
    bytes.extend_from_slice(image)?;
    Ok(bytes)
}

/// Bytes, and others after them.
fn added(alloc: Global, bytes: &[u8], others: &[u8]) -> Result<Vec<u8>, Memory> {
    let mut all = bytes.to_vec(alloc)?;
    all.extend_from_slice(others)?;
    Ok(all)
}

/// Bytes with others from an offset on, as far as they reach.
fn patched(alloc: Global, bytes: &[u8], offset: u64, others: &[u8]) -> Result<Vec<u8>, Memory> {
    let mut all = bytes.to_vec(alloc)?;
    for (at, &byte) in all.iter_mut().skip(offset as usize).zip(others) {
        *at = byte;
    }
    Ok(all)
}

/// The first bytes, as many as the number tells.
pub fn first_bytes(bytes: &[u8], size: u64) -> &[u8] {
    bytes.get(..size as usize).unwrap_or(bytes)
}

/// What a command makes of the bytes of a place and of some fields, or `None` where it makes nothing of them.
pub fn changed(
    alloc: Global,
    bytes: &[u8],
    fields: &[Vec<u8>],
    command: &[u8],
    words: &[u8],
) -> Result<Option<Vec<u8>>, Memory> {
    let (word, rest) = first_word(words);
    Ok(match command {
        b"keep" => Some(joined(alloc, fields, words)?),
        b"add" => Some(added(alloc, bytes, &joined(alloc, fields, words)?)?),
        b"slot" => Some(slot(alloc, number(word), &joined(alloc, fields, rest)?)?),
        b"patch" => Some(patched(alloc, bytes, number(word), &unescaped(alloc, rest, &[])?)?),
        b"cut" => Some(first_bytes(bytes, number(word)).to_vec(alloc)?),
        _ => None,
    })
}
