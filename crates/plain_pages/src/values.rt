//! Values of literals.
use crate::stop::Stop;
use kit::{Addr, Id, Text};
use std::alloc::Global;

/// The text as an id.
pub(crate) fn id(alloc: Global, bytes: &str) -> Result<Id, Stop> {
    Id::read(alloc, bytes.as_bytes())?.ok_or(Stop::NoValue)
}

/// The text as an address. `NoValue` where it is none.
pub fn addr(alloc: Global, bytes: &str) -> Result<Addr, Stop> {
    Addr::read(alloc, bytes.as_bytes())?.ok_or(Stop::NoValue)
}

/// The text. `Err` only when memory runs out.
pub fn text(alloc: Global, bytes: &str) -> Result<Text, Stop> {
    Ok(Text::from(String::from_str(alloc, bytes)?))
}
