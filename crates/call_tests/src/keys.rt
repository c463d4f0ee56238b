//! The keys of chats: their texts, their order, and maps by them.
use crate::asserts::{assert_row, assert_same};
use crate::values::key;
use card_type::{ChatKey, GroupId, KeyMap, valid_group};
use std::alloc::Global;
use std::cmp::Ordering;
use std::process::Abort;
use std::test::Fail;

/// Bytes, and whether they are the text of a key.
const KEY_TEXTS: [(&str, bool); 16] = [
    ("self", true),
    ("single:bob@x.org", true),
    ("group:abcdefghijk", true),
    ("thread:g1@x.org", true),
    ("group:short", false),
    // An address has no capital letter, and a group id or a message id may.
    ("single:Bob@x.org", false),
    ("group:ABCDEFGHIJK", true),
    ("thread:G1", true),
    ("thread:<g1@x.org>", false),
    ("thread:single:", true),
    ("single:bob", false),
    ("single:", false),
    ("Self", false),
    ("selfie", false),
    ("self:", false),
    ("", false),
];

/// Bytes, and whether they are a valid group id.
const GROUP_IDS: [(&str, bool); 6] = [
    ("abcdefghijk", true),
    ("AZaz09_-___", true),
    ("abcdefghij", false),
    ("abcdefghij.", false),
    ("abcdefghijé", false),
    ("", false),
];

/// The texts of keys from the first to the last.
const IN_ORDER: [&str; 8] = [
    "self",
    "single:bob@x.org",
    "single:zoe@x.org",
    "group:abcdefghijk",
    "group:abcdefghijkl",
    "thread:a",
    "thread:a@x.org",
    "thread:b",
];

/// Whether the bytes are read as a key of which they are the text.
fn is_key_text(alloc: Global, bytes: &str) -> Result<bool, Fail> {
    match ChatKey::read(alloc, bytes.as_bytes())? {
        Some(key) => Ok(key.text(alloc)?.as_str() == bytes),
        None => Ok(false),
    }
}

/// Whether the bytes are read as a group id, of which a copy has the same bytes.
fn is_group_id(alloc: Global, bytes: &str) -> Result<bool, Fail> {
    match GroupId::read(alloc, bytes.as_bytes())? {
        Some(group) => Ok(group.copy()?.bytes() == bytes.as_bytes()),
        None => Ok(false),
    }
}

fn are_read<R: Abort>(rt: &R, alloc: Global) -> Result<(), Fail> {
    for &(bytes, is_key) in &KEY_TEXTS {
        assert_row(rt, bytes, is_key_text(alloc, bytes)?, is_key);
    }
    for &(bytes, is_valid) in &GROUP_IDS {
        assert_row(rt, bytes, valid_group(bytes.as_bytes()), is_valid);
        assert_row(rt, bytes, is_group_id(alloc, bytes)?, is_valid);
    }
    Ok(())
}

fn order_of(alloc: Global, first: &str, second: &str) -> Result<Ordering, Fail> {
    let first = key(alloc, first)?;
    Ok(first.cmp(&key(alloc, second)?))
}

fn are_ordered<R: Abort>(rt: &R, alloc: Global) -> Result<(), Fail> {
    for (i, first) in IN_ORDER.iter().enumerate() {
        for (j, second) in IN_ORDER.iter().enumerate() {
            let is_right = order_of(alloc, first, second)? == i.cmp(&j);
            assert_row(rt, *first, is_right, true);
        }
    }
    Ok(())
}

fn insert(
    alloc: Global,
    map: &mut KeyMap<u32>,
    text: &str,
    value: u32,
) -> Result<Option<u32>, Fail> {
    Ok(map.insert(key(alloc, text)?, value)?)
}

fn got(alloc: Global, map: &KeyMap<u32>, text: &str) -> Result<Option<u32>, Fail> {
    Ok(map.get(&key(alloc, text)?).copied())
}

fn values_come_and_go<R: Abort>(rt: &R, alloc: Global, map: &mut KeyMap<u32>) -> Result<(), Fail> {
    assert_same(rt, insert(alloc, map, "self", 1)?, None);
    assert_same(rt, insert(alloc, map, "thread:a", 2)?, None);
    assert_same(rt, insert(alloc, map, "self", 3)?, Some(1));
    assert_same(rt, got(alloc, map, "self")?, Some(3));
    assert_same(rt, map.remove(&key(alloc, "self")?), Some(3));
    assert_same(rt, got(alloc, map, "self")?, None);
    assert_same(rt, got(alloc, map, "thread:a")?, Some(2));
    Ok(())
}

/// The entries one after the other.
fn entries(alloc: Global, map: &KeyMap<u32>) -> Result<String, Fail> {
    let mut entries = String::new(alloc);
    for (key, value) in map.iter() {
        entries.push_str(key.text(alloc)?.as_str())?;
        entries.push_str(format!(in alloc; " {value}, ")?.as_str())?;
    }
    Ok(entries)
}

/// A value is replaced where its key has one, and else handed back.
fn entries_are_in_order<R: Abort>(
    rt: &R,
    alloc: Global,
    map: &mut KeyMap<u32>,
) -> Result<(), Fail> {
    assert_same(rt, insert(alloc, map, "self", 1)?, None);
    assert!(rt; map.replace(&key(alloc, "self")?, 3) == Ok(1));
    assert!(rt; map.replace(&key(alloc, "single:bob@x.org")?, 4) == Err(4));
    assert_same(rt, entries(alloc, map)?.as_str(), "self 3, thread:a 2, ");
    Ok(())
}

#[test]
fn keys_have_texts_and_an_order(rt: HostRuntime) -> Result<(), Fail> {
    let alloc = rt.alloc();
    are_read(&rt, alloc)?;
    are_ordered(&rt, alloc)?;
    let mut map = KeyMap::new(alloc);
    values_come_and_go(&rt, alloc, &mut map)?;
    entries_are_in_order(&rt, alloc, &mut map)
}
