//! Status updates and receipts.
use crate::shown::{add_count, add_none, add_quoted, add_value, add_word, is_shown};
use card_type::{Payload, Update};
use kit::{Memory, Text};
use lists::Items;
use part_read::{UpdateFault, read_receipt, read_updates};
use std::alloc::Global;

/// Adds the updates in the content of a part, or why there are none.
pub fn add_updates(said: &mut Vec<u8>, alloc: Global, content: &[u8]) -> Result<(), Memory> {
    match read_updates(alloc, content) {
        Ok(updates) => add_listed(said, alloc, &updates),
        Err(UpdateFault::NoJson) => add_word(said, "no JSON"),
        Err(UpdateFault::NoList) => add_word(said, "no list"),
        Err(UpdateFault::Memory) => Err(Memory),
    }
}

fn add_listed(said: &mut Vec<u8>, alloc: Global, updates: &Items<Update>) -> Result<(), Memory> {
    for (index, update) in updates.as_slice().iter().enumerate() {
        if is_shown(index, updates.len()) {
            add_update(said, alloc, update)?;
        }
    }
    add_count(said, alloc, updates.len())?;
    add_none(said, updates.len())
}

/// Adds a line of an update: its payload, and its texts.
pub fn add_update(said: &mut Vec<u8>, alloc: Global, update: &Update) -> Result<(), Memory> {
    said.extend_from_slice(b"update")?;
    match &update.payload {
        Payload::Absent => {}
        Payload::Hidden => said.extend_from_slice(b" hidden")?,
        Payload::Json(json) => add_named(said, alloc, " payload ", json)?,
    }
    add_given(said, alloc, " info ", &update.info)?;
    add_given(said, alloc, " document ", &update.document)?;
    add_given(said, alloc, " summary ", &update.summary)?;
    said.push(b'\n')?;
    Ok(())
}

fn add_given(
    said: &mut Vec<u8>,
    alloc: Global,
    name: &str,
    text: &Option<Text>,
) -> Result<(), Memory> {
    match text {
        Some(text) => add_named(said, alloc, name, text),
        None => Ok(()),
    }
}

fn add_named(said: &mut Vec<u8>, alloc: Global, name: &str, text: &Text) -> Result<(), Memory> {
    said.extend_from_slice(name.as_bytes())?;
    add_quoted(said, alloc, text.bytes())
}

/// Adds the id of the mail that a receipt says was displayed.
pub fn add_receipt(said: &mut Vec<u8>, alloc: Global, content: &[u8]) -> Result<(), Memory> {
    match read_receipt(alloc, content)? {
        Some(id) => add_value(said, "displayed", id.bytes()),
        None => add_word(said, "none"),
    }
}
