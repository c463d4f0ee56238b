//! What is to be written.
use card_type::GroupId;
use kit::{Addr, Id, Text};
use lists::Items;

/// What a mail does beside saying its text.
#[derive(Drop)]
pub enum Act {
    /// Nothing.
    Say,
    /// It adds somebody to the group.
    Add(Addr),
    /// It removes somebody from the group.
    Remove(Addr),
    /// It gives the group its name in place of this one, which is in no card.
    Rename(Text),
    /// Its text replaces that of a mail.
    Edit(Id),
    /// It takes mails back.
    Delete(Items<Id>),
    /// It says that a mail was displayed (RFC 3798).
    Receipt(Id),
    /// Its text is a reaction to the mail that it replies to (RFC 9078); an empty one takes back what was said before.
    React,
}

/// A mail that is to be written. Any values of its fields are a draft; `compose` says which are not written.
#[derive(Drop)]
pub struct Draft {
    /// The id of the mail (RFC 5322, section 3.6.4).
    pub id: Id,
    /// Who sends it.
    pub from: Addr,
    /// Under which name, empty for none.
    pub from_name: Text,
    /// To whom; repeats are written, and count once.
    pub to: Items<Addr>,
    /// When, in seconds since 1970-01-01 00:00:00 UTC.
    pub date: u64,
    /// The subject, empty for none.
    pub subject: Text,
    /// The mail that it replies to.
    pub reply: Option<Id>,
    /// The mails of its thread, of which the last is the nearest.
    pub references: Items<Id>,
    /// The group to which it is sent.
    pub group: Option<GroupId>,
    /// The name of that group, empty for none; without a group it is not written.
    pub group_name: Text,
    /// After how many seconds it is to vanish, and 0 where it is to stay.
    pub timer: u32,
    /// Whether it asks for a receipt.
    pub ask: bool,
    /// The text, which for a reaction has at most 255 bytes, and else at most 32,768.
    pub text: Text,
    /// What it does.
    pub act: Act,
}
