//! Whether two answers are alike.
use mailbox_model::{ChatPage, Row};

/// Whether two rows tell the same of their mails.
fn are_same_mails(one: &Row, other: &Row) -> bool {
    one.uid == other.uid
        && one.id == other.id
        && one.date == other.date
        && one.from == other.from
        && one.chat == other.chat
        && one.subject == other.subject
        && one.text == other.text
}

/// Whether two rows are shown alike.
fn are_shown_alike(one: &Row, other: &Row) -> bool {
    one.cut == other.cut
        && one.edited == other.edited
        && one.mark == other.mark
        && one.attachments == other.attachments
        && one.readers == other.readers
        && one.reactions == other.reactions
        && one.app == other.app
        && one.updates == other.updates
}

/// Whether rows are alike, one by one.
fn are_rows_alike(some: &[Row], others: &[Row]) -> bool {
    if some.len() != others.len() {
        return false;
    }
    for (one, other) in some.iter().zip(others) {
        if !are_same_mails(one, other) || !are_shown_alike(one, other) {
            return false;
        }
    }
    true
}

/// Whether the pages of two chats are alike.
fn is_page_alike(one: &ChatPage, other: &ChatPage) -> bool {
    one.key == other.key
        && one.name == other.name
        && one.members == other.members
        && one.timer == other.timer
        && are_rows_alike(one.rows.as_slice(), other.rows.as_slice())
}

/// Whether two pages are alike, or neither is there.
pub fn are_pages_alike(one: Option<&ChatPage>, other: Option<&ChatPage>) -> bool {
    match (one, other) {
        (Some(one), Some(other)) => is_page_alike(one, other),
        (None, None) => true,
        (Some(_), None) | (None, Some(_)) => false,
    }
}
