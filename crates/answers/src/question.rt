//! What may be asked.

use kit::Text;

/// A question on a mailbox, as its words are written.
#[derive(Debug, Drop)]
pub enum Question {
    /// The list of all chats.
    List,
    /// All contacts.
    Contacts,
    /// The page of the chat whose key has this text.
    Chat(Text),
    /// The updates of the app in the mail with this id: all, or only those that have an info.
    Updates { id: Text, info: bool },
}
