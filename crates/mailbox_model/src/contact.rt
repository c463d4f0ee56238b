//! The people of a mailbox.
use kit::{Addr, Text};

/// One person, as the page of contacts shows them.
#[derive(Debug, PartialEq, Eq, Drop)]
pub struct ContactRow {
    /// The address.
    pub addr: Addr,
    /// The last name under which the address wrote, else the address.
    pub name: Text,
}
