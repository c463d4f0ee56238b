//! Cards as they are shown.
use card_type::{Attachment, Update};
use kit::{Addr, Id, Text};
use lists::Items;

/// Whether a card was sent or received, and then whether it was seen.
#[derive(Clone, Copy, Debug, PartialEq, Eq)]
pub enum Mark {
    /// It is from oneself.
    Out,
    /// It was received and is not seen.
    New,
    /// It was received and seen.
    Seen,
}

/// An update of an app, as the app gets it.
#[derive(Debug, PartialEq, Eq, Drop)]
pub struct UpdateRow {
    /// Its number among the updates of the app, from 1 on.
    pub serial: u32,
    /// The number in the mailbox of the mail that brought it.
    pub uid: u32,
    /// Its index among the updates of that mail, from 0 on.
    pub part: u32,
    /// Who sent it.
    pub from: Addr,
    /// The update.
    pub update: Update,
}

/// A card of kind Content as it is shown, neither withdrawn nor expired.
#[derive(Debug, Drop)]
pub struct Row {
    /// The number of the mail in the mailbox.
    pub uid: u32,
    /// The id of the mail.
    pub id: Id,
    /// Its effective date, in seconds since 1970-01-01 00:00:00 UTC.
    pub date: u64,
    /// Who sent it.
    pub from: Addr,
    /// Whether a chat program sent it.
    pub chat: bool,
    /// Its subject, empty where it has none.
    pub subject: Text,
    /// Its text, which is that of the last edit where there is one.
    pub text: Text,
    /// Whether that text is only the beginning of what the mail says.
    pub cut: bool,
    /// Whether it was edited.
    pub edited: bool,
    /// Whether it was sent, received or seen.
    pub mark: Mark,
    /// Its files, in their order.
    pub attachments: Items<Attachment>,
    /// Who sent a receipt for it, each once, with the effective date of their first receipt in seconds since
    /// 1970-01-01 00:00:00 UTC, in mail order.
    pub readers: Items<(Addr, u64)>,
    /// Who reacted to it, each once, with what their last reaction says, in mail order of these; an empty one takes back
    /// what was said and is not among them.
    pub reactions: Items<(Addr, Text)>,
    /// Whether one of its files is an app.
    pub app: bool,
    /// The updates of that app, in mail order, and those of one mail in their order there.
    pub updates: Items<UpdateRow>,
}
