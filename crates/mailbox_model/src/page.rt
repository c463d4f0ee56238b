//! The page of a chat.
use crate::row::Row;
use card_type::ChatKey;
use kit::{Addr, Text};
use lists::Items;

/// The page of one chat.
#[derive(Debug, Drop)]
pub struct ChatPage {
    /// The key of the chat.
    pub key: ChatKey,
    /// Its name, which is never empty.
    pub name: Text,
    /// Who is in it, each once.
    pub members: Items<Addr>,
    /// After how many seconds its mails vanish, and 0 where they stay.
    pub timer: u32,
    /// The rows that are shown, in mail order.
    pub rows: Items<Row>,
}
