//! A person.
use kit::{Addr, Text};

/// Whom a mail names: an address, and the name that is given with it.
#[derive(Debug, Drop)]
pub struct Person {
    /// The address, in small letters: 3 to 254 bytes, as `Addr` says.
    pub addr: Addr,
    /// The name, of any length, with its encoded words read; empty where none is given.
    pub name: Text,
}
