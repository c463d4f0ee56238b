//! The card of a mail, field by field.
use crate::shown::{
    add_addrs, add_counted, add_ids, add_quoted, add_quoted_line, add_some, add_value, add_word,
};
use crate::updates::add_update;
use card_type::{Attachment, Card, is_valid, weight};
use chat_card::{CardFault, read_card};
use kit::{Addr, Id, Memory, Text};
use scripts::add_number;
use std::alloc::Global;

/// Adds the card of a mail with a uid, or why it has none.
pub fn add_card_of(said: &mut Vec<u8>, alloc: Global, uid: u32, mail: &[u8]) -> Result<(), Memory> {
    match read_card(alloc, uid, mail) {
        Ok(card) => add_card(said, alloc, &card),
        Err(fault) => add_fault(said, fault),
    }
}

/// Adds the weight of the card of a mail, or why it has none.
pub fn add_weight(said: &mut Vec<u8>, alloc: Global, mail: &[u8]) -> Result<(), Memory> {
    match read_card(alloc, 4, mail) {
        Ok(card) => add_counted(said, alloc, "weight", weight(&card)),
        Err(fault) => add_fault(said, fault),
    }
}

/// Adds why a mail has no card.
pub fn add_fault(said: &mut Vec<u8>, fault: CardFault) -> Result<(), Memory> {
    match fault {
        CardFault::NoFields => add_word(said, "no card: no fields"),
        CardFault::NoFrom => add_word(said, "no card: no From"),
        CardFault::CardTooLong => add_word(said, "no card: card too long"),
        CardFault::Memory => Err(Memory),
    }
}

/// Adds a line for each field of a card that isn't empty.
fn add_card(said: &mut Vec<u8>, alloc: Global, card: &Card) -> Result<(), Memory> {
    add_envelope(said, alloc, card)?;
    add_group(said, alloc, card)?;
    add_requests(said, alloc, card)?;
    add_shown(said, alloc, card)?;
    add_parts(said, alloc, card)?;
    add_flag(said, "not valid", !is_valid(card))
}

fn add_envelope(said: &mut Vec<u8>, alloc: Global, card: &Card) -> Result<(), Memory> {
    add_value(said, "id", card.id.bytes())?;
    add_value(said, "from", card.from.bytes())?;
    add_some(said, alloc, "name", card.from_name.bytes())?;
    add_addrs(said, alloc, "to", card.to.as_slice())?;
    add_addrs(said, alloc, "cc", card.cc.as_slice())?;
    if let Some(date) = card.date {
        add_counted(said, alloc, "date", date)?;
    }
    add_ids(said, alloc, "reply to", card.replies.as_slice())?;
    add_ids(said, alloc, "reference", card.references.as_slice())
}

fn add_group(said: &mut Vec<u8>, alloc: Global, card: &Card) -> Result<(), Memory> {
    add_flag(said, "chat", card.chat)?;
    if let Some(group) = &card.group {
        add_value(said, "group", group.bytes())?;
    }
    add_some(said, alloc, "group name", card.group_name.bytes())?;
    add_addr(said, "added", &card.added)?;
    add_addr(said, "removed", &card.removed)?;
    add_flag(said, "renamed", card.renamed)
}

fn add_requests(said: &mut Vec<u8>, alloc: Global, card: &Card) -> Result<(), Memory> {
    add_id(said, "edit of", &card.edit)?;
    add_ids(said, alloc, "deletes", card.deletes.as_slice())?;
    if card.timer != 0 {
        add_counted(said, alloc, "timer", u64::from(card.timer))?;
    }
    Ok(())
}

fn add_shown(said: &mut Vec<u8>, alloc: Global, card: &Card) -> Result<(), Memory> {
    add_some(said, alloc, "subject", card.subject.bytes())?;
    add_some(said, alloc, "text", card.text.bytes())?;
    add_flag(said, "cut", card.cut)
}

fn add_parts(said: &mut Vec<u8>, alloc: Global, card: &Card) -> Result<(), Memory> {
    for file in card.attachments.as_slice() {
        add_file(said, alloc, file)?;
    }
    add_id(said, "receipt of", &card.receipt)?;
    add_flag(said, "app", card.app)?;
    for update in card.updates.as_slice() {
        add_update(said, alloc, update)?;
    }
    add_reaction(said, alloc, &card.reaction)
}

/// Adds a line of a reaction, also of an empty one.
fn add_reaction(said: &mut Vec<u8>, alloc: Global, reaction: &Option<Text>) -> Result<(), Memory> {
    match reaction {
        Some(text) => {
            said.extend_from_slice(b"reaction ")?;
            add_quoted_line(said, alloc, text.bytes())
        }
        None => Ok(()),
    }
}

/// Adds a line of a file: its type, its size and its name.
fn add_file(said: &mut Vec<u8>, alloc: Global, file: &Attachment) -> Result<(), Memory> {
    said.extend_from_slice(b"file ")?;
    said.extend_from_slice(file.kind.bytes())?;
    said.push(b' ')?;
    add_number(said, alloc, file.size)?;
    said.push(b' ')?;
    add_quoted(said, alloc, file.name.bytes())?;
    said.push(b'\n')?;
    Ok(())
}

fn add_flag(said: &mut Vec<u8>, word: &str, holds: bool) -> Result<(), Memory> {
    if holds {
        add_word(said, word)?;
    }
    Ok(())
}

fn add_id(said: &mut Vec<u8>, word: &str, id: &Option<Id>) -> Result<(), Memory> {
    match id {
        Some(id) => add_value(said, word, id.bytes()),
        None => Ok(()),
    }
}

fn add_addr(said: &mut Vec<u8>, word: &str, addr: &Option<Addr>) -> Result<(), Memory> {
    match addr {
        Some(addr) => add_value(said, word, addr.bytes()),
        None => Ok(()),
    }
}
