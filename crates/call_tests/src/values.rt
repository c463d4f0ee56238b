//! Ids, addresses, texts, keys, spots and cards of literals.
use card_type::{Card, ChatKey, Spot};
use kit::{Addr, Id, Text};
use lists::Items;
use std::alloc::Global;
use std::test::Fail;

/// The text as an id. `Err` where it is none, or when memory runs out.
pub(crate) fn id(alloc: Global, bytes: &str) -> Result<Id, Fail> {
    Ok(Id::read(alloc, bytes.as_bytes())?.ok_or("no id")?)
}

/// The text as an address. `Err` where it is none, or when memory runs out.
pub(crate) fn addr(alloc: Global, bytes: &str) -> Result<Addr, Fail> {
    Ok(Addr::read(alloc, bytes.as_bytes())?.ok_or("no address")?)
}

/// The texts as addresses. `Err` where one is none, or when memory runs out.
pub(crate) fn addrs(alloc: Global, texts: &[&str]) -> Result<Items<Addr>, Fail> {
    let mut addrs = Items::new(alloc);
    for text in texts {
        addrs.push(addr(alloc, text)?)?;
    }
    Ok(addrs)
}

/// The text. `Err` only when memory runs out.
pub(crate) fn text(alloc: Global, bytes: &str) -> Result<Text, Fail> {
    Ok(Text::from(String::from_str(alloc, bytes)?))
}

/// A text of so many letters. `Err` only when memory runs out.
pub(crate) fn letters(alloc: Global, count: usize) -> Result<Text, Fail> {
    Ok(Text::from("x".repeat(alloc, count)?))
}

/// The text as the key of a chat. `Err` where it is none, or when memory runs out.
pub(crate) fn key(alloc: Global, bytes: &str) -> Result<ChatKey, Fail> {
    match ChatKey::read(alloc, bytes.as_bytes())? {
        Some(key) => Ok(key),
        None => Err(Fail::from("no key")),
    }
}

/// A card that says no more than its id and its sender.
pub(crate) fn plain(alloc: Global, from: &str, bytes: &str) -> Result<Card, Fail> {
    let id = id(alloc, bytes)?;
    let from = addr(alloc, from)?;
    Ok(Card::new(alloc, id, from))
}

/// The spot of the mail with this date, id and uid.
pub(crate) fn spot(alloc: Global, date: u64, bytes: &str, uid: u32) -> Result<Spot, Fail> {
    let id = id(alloc, bytes)?;
    Ok(Spot { date, id, uid })
}
