//! What is read of a header and of the bodies of its fields.
use crate::shown::{
    add_count, add_counted, add_found, add_ids, add_none, add_quoted, add_quoted_line, add_word,
    is_shown,
};
use kit::Memory;
use mail_address::{Person, people};
use mail_date::moment;
use mail_headers::{ids, read_header};
use scripts::unescaped;
use std::alloc::Global;

/// Adds the body of the first field of a name, in which a space is written as an escape.
pub fn add_field(
    said: &mut Vec<u8>,
    alloc: Global,
    name: &[u8],
    mail: &[u8],
) -> Result<(), Memory> {
    let name = unescaped(alloc, name, b"")?;
    let header = read_header(alloc, mail)?;
    add_found(said, alloc, header.first(&name))
}

/// Adds how many fields a mail has, where its body begins, and the body.
pub fn add_body(said: &mut Vec<u8>, alloc: Global, mail: &[u8]) -> Result<(), Memory> {
    let header = read_header(alloc, mail)?;
    add_counted(said, alloc, "fields", header.len() as u64)?;
    add_counted(said, alloc, "body at", header.body_at() as u64)?;
    add_quoted_line(said, alloc, &mail[header.body_at()..])
}

/// Adds the ids in the body of a field.
pub fn add_ids_of(said: &mut Vec<u8>, alloc: Global, body: &[u8]) -> Result<(), Memory> {
    let ids = ids(alloc, body)?;
    add_ids(said, alloc, "id", &ids)?;
    add_none(said, ids.len())
}

/// Adds the people in the body of a field: of each the address, and the name in quotes.
pub fn add_people(said: &mut Vec<u8>, alloc: Global, body: &[u8]) -> Result<(), Memory> {
    let people = people(alloc, body)?;
    for (index, person) in people.iter().enumerate() {
        if is_shown(index, people.len()) {
            add_person(said, alloc, person)?;
        }
    }
    add_count(said, alloc, people.len())?;
    add_none(said, people.len())
}

fn add_person(said: &mut Vec<u8>, alloc: Global, person: &Person) -> Result<(), Memory> {
    said.extend_from_slice(person.addr.bytes())?;
    said.push(b' ')?;
    add_quoted(said, alloc, person.name.bytes())?;
    said.push(b'\n')?;
    Ok(())
}

/// Adds the moment that the body of a Date field names.
pub fn add_date(said: &mut Vec<u8>, alloc: Global, body: &[u8]) -> Result<(), Memory> {
    match moment(body) {
        Some(moment) => add_counted(said, alloc, "moment", moment),
        None => add_word(said, "none"),
    }
}
