//! The changes that the lines of a script name.
ghost use Rattle.std.specs.Prelude.{IfOk, IfSome};
ghost use Rattle.mailbox_model.specs.Mailbox.{IsValidChange};

use arrivals::arrival_of_mail;
use kit::{LAST_MOMENT, Memory};
use mailbox_model::Change;
use scripts::number;
use std::alloc::Global;

/// A mail with a name.
#[derive(Drop)]
pub struct Named {
    pub name: Vec<u8>,
    pub mail: Vec<u8>,
}

/// The number that a word writes, and the greatest one where it is more.
pub fn small_number(word: &[u8]) -> u32 {
    u32::try_from(number(word)).unwrap_or(u32::MAX)
}

/// The last mail with a name.
fn mail_named<'m>(mails: &'m [Named], name: &[u8]) -> Option<&'m Named> {
    let mut found = None;
    for named in mails {
        if named.name.as_slice() == name {
            found = Some(named);
        }
    }
    found
}

/// The arrival of the mail with a name, if there is one.
fn arrival_of_named(
    alloc: Global,
    mails: &[Named],
    uid: u32,
    name: &[u8],
) -> Result<Option<Change>, Memory>
    ensures { IfOk result (λ change. IfSome change IsValidChange) }
{
    match mail_named(mails, name) {
        Some(named) => Ok(Some(arrival_of_mail(alloc, uid, &named.mail)?)),
        None => Ok(None),
    }
}

/// The change that a command makes with a word, where the next mail gets this uid.
pub fn change_of(
    alloc: Global,
    mails: &[Named],
    uid: u32,
    command: &[u8],
    word: &[u8],
) -> Result<Option<Change>, Memory>
    ensures { IfOk result (λ change. IfSome change IsValidChange) }
{
    match command {
        b"next" => arrival_of_named(alloc, mails, uid, word),
        b"expunge" => Ok(Some(Change::Expunge(small_number(word)))),
        b"seen" => Ok(Some(Change::Seen(small_number(word)))),
        b"at" => Ok(Some(Change::At(number(word).min(LAST_MOMENT)))),
        _ => Ok(None),
    }
}
