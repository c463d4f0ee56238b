//! Who is in a chat.
use kit::{Addr, Text};
use lists::Items;

/// What the cards of a chat say of it, taken in mail order.
#[derive(Debug, Drop)]
pub struct Roster {
    /// Whether there is a card yet.
    pub begun: bool,
    /// Who is in the chat, each once.
    pub members: Items<Addr>,
    /// The name of a group or thread, empty where it has none, and for any other chat.
    pub name: Text,
    /// After how many seconds mails vanish, and 0 where they stay.
    pub timer: u32,
}
