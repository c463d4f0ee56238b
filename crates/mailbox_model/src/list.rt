//! The list of chats.
use crate::change::Fault;
use card_type::ChatKey;
use kit::Text;
use lists::Items;

/// One chat, as the list shows it.
#[derive(Debug, PartialEq, Eq, Drop)]
pub struct ListRow {
    /// The key of the chat.
    pub key: ChatKey,
    /// The name of the chat, which is never empty.
    pub name: Text,
    /// How many shown rows are received and unseen.
    pub fresh: u32,
    /// The effective date of the last shown row, in seconds since 1970-01-01 00:00:00 UTC; `None` where none is shown.
    pub time: Option<u64>,
    /// The whole body of that row, empty where none is shown.
    pub body: Text,
}

/// A mail that has no card.
#[derive(Clone, Copy, Debug, PartialEq, Eq)]
pub struct FaultRow {
    /// Its number in the mailbox.
    pub uid: u32,
    /// Why it has none.
    pub fault: Fault,
}

/// The list of chats, the latest first, and then of the mails that have no card, by uid.
#[derive(Debug, PartialEq, Eq, Drop)]
pub struct ListPage {
    /// The chats.
    pub rows: Items<ListRow>,
    /// The mails without card.
    pub faults: Items<FaultRow>,
}
