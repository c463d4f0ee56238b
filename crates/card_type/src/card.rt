//! What is kept of a mail.
ghost use Rattle.std.specs.Prelude.{◌≡◌, IfOk};
ghost use Rattle.std.proofs.Common.{rules};
ghost use Rattle.card_type.specs.Cards.{card_of};

use crate::group_id::GroupId;
use kit::{Addr, Id, Memory, Text};
use lists::{Exact, Items};
use std::alloc::Global;

/// A part of a mail that is kept as a file: what it is, and not what it holds.
#[derive(Clone, Debug, PartialEq, Eq, Drop)]
pub struct Attachment {
    /// Its media type, as `image/png` (RFC 2045, section 5.1).
    pub kind: Text,
    /// The name of the file, empty where it has none.
    pub name: Text,
    /// The number of bytes of its decoded content; of a multipart that was not opened, of its undecoded content.
    pub size: u64,
}

impl Exact for Attachment {
    ghost same = { Prim.search rules };
}

impl Attachment {
    /// A copy of the attachment. Takes memory; `Err` only when it runs out.
    pub fn copy(&self) -> Result<Self, Memory>
        ensures { IfOk result (λ copy. copy ≡ self.now) }
    {
        Ok(self.clone()?)
    }
}

/// What a status update gives to the app.
#[derive(Clone, Debug, PartialEq, Eq, Drop)]
pub enum Payload {
    /// Nothing.
    Absent,
    /// A value of JSON as a text, which is not empty in a valid card.
    Json(Text),
    /// A value that is not shown.
    Hidden,
}

impl Exact for Payload {
    ghost same = { Prim.search rules };
}

/// A status update of an app.
#[derive(Clone, Debug, PartialEq, Eq, Drop)]
pub struct Update {
    /// What the app is given.
    pub payload: Payload,
    /// A line to be shown in the chat.
    pub info: Option<Text>,
    /// The name of what the app edits.
    pub document: Option<Text>,
    /// A short text on the state of the app.
    pub summary: Option<Text>,
}

impl Exact for Update {
    ghost same = { Prim.search rules };
}

impl Update {
    /// A copy of the update. Takes memory; `Err` only when it runs out.
    pub fn copy(&self) -> Result<Self, Memory>
        ensures { IfOk result (λ copy. copy ≡ self.now) }
    {
        Ok(self.clone()?)
    }
}

/// What is kept of a mail. Any values of its fields are a card; `is_valid` holds of those that keep the rules
/// of a card.
#[derive(Debug, PartialEq, Eq, Drop)]
pub struct Card {
    /// The id of the mail.
    pub id: Id,
    /// Who sent it.
    pub from: Addr,
    /// The name under which it was sent, empty where it has none.
    pub from_name: Text,
    /// To whom it was sent; in a valid card each once.
    pub to: Items<Addr>,
    /// To whom copies were sent; in a valid card each once.
    pub cc: Items<Addr>,
    /// When it says that it was sent, in seconds since 1970-01-01 00:00:00 UTC.
    pub date: Option<u64>,
    /// The ids of In-Reply-To (RFC 5322, section 3.6.4).
    pub replies: Items<Id>,
    /// The ids of References, of which the last is the nearest (RFC 5322, section 3.6.4).
    pub references: Items<Id>,
    /// Whether a chat program sent it.
    pub chat: bool,
    /// The group to which it was sent.
    pub group: Option<GroupId>,
    /// The name of that group, empty where it says none.
    pub group_name: Text,
    /// Whom it adds to the group.
    pub added: Option<Addr>,
    /// Whom it removes from the group.
    pub removed: Option<Addr>,
    /// Whether it gives the group its name.
    pub renamed: bool,
    /// The mail whose text it replaces.
    pub edit: Option<Id>,
    /// The mails that it takes back.
    pub deletes: Items<Id>,
    /// After how many seconds it is to vanish, and 0 where it is to stay.
    pub timer: u32,
    /// Its subject, empty where it has none.
    pub subject: Text,
    /// Its text; in a valid card no more than 32,768 bytes.
    pub text: Text,
    /// Whether the text is only the beginning of what the mail says.
    pub cut: bool,
    /// Its files, in their order.
    pub attachments: Items<Attachment>,
    /// The mail that its sender has read, where it is a receipt (RFC 3798, section 3).
    pub receipt: Option<Id>,
    /// Whether one of its files is an app.
    pub app: bool,
    /// The updates that it brings to an app, in their order.
    pub updates: Items<Update>,
    /// What it says of the mail that it answers, as a reaction to it (RFC 9078), which takes an earlier one back where it
    /// is empty; in a valid card no more than 255 bytes.
    pub reaction: Option<Text>,
}

impl Card {
    /// A card that says no more than its id and its sender. Takes no memory.
    pub fn new(alloc: Global, id: Id, from: Addr) -> Self
        ensures { result ≡ card_of id from }
    {
        Card {
            id,
            from,
            from_name: Text::from(String::new(alloc)),
            to: Items::new(alloc),
            cc: Items::new(alloc),
            date: None,
            replies: Items::new(alloc),
            references: Items::new(alloc),
            chat: false,
            group: None,
            group_name: Text::from(String::new(alloc)),
            added: None,
            removed: None,
            renamed: false,
            edit: None,
            deletes: Items::new(alloc),
            timer: 0,
            subject: Text::from(String::new(alloc)),
            text: Text::from(String::new(alloc)),
            cut: false,
            attachments: Items::new(alloc),
            receipt: None,
            app: false,
            updates: Items::new(alloc),
            reaction: None,
        }
    }
}
