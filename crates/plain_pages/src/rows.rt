//! The rows of mails, and the pages of chats.
ghost use Rattle.std.specs.Prelude.{◌≤◌, IfOk, length};

use crate::mails::{Mail, find};
use crate::people::contact_of;
use crate::stop::Stop;
use box_state::Mailbox;
use card_type::{Card, ChatKey, effect_of};
use chat_view::{RowMaker, page_name};
use group_roster::{Roster, add, begin};
use kit::{Addr, Id, LAST_MOMENT};
use lists::{Items, each_once};
use mailbox_model::{ChatPage, Row, UpdateRow};
use std::alloc::Global;

/// The maker of the row of a mail on which nothing acts.
fn begun(alloc: Global, mail: &Mail<'_>, me: &Addr) -> Result<RowMaker, Stop>
    ensures { IfOk result (λ maker. length maker.row.updates ≤ 0) }
{
    if mail.spot.date > LAST_MOMENT {
        return Err(Stop::NoRule);
    }
    match mail.seen {
        Some(seen) if seen > LAST_MOMENT => Err(Stop::NoRule),
        seen => Ok(RowMaker::new(alloc, &mail.spot, mail.card, seen, me)?),
    }
}

/// Adds what a mail does to another one. How many updates the row may then have, where it may have so many before.
fn act(
    maker: &mut RowMaker,
    brought: u32,
    by: &Mail<'_>,
    card: &Card,
    me: &Addr,
) -> Result<u32, Stop>
    requires { length maker.old.row.updates ≤ brought }
    ensures { IfOk result (λ brought. length maker.new.row.updates ≤ brought) }
{
    let len = by.card.updates.len();
    if brought > 1_000 || len > 1_000 {
        return Err(Stop::NoRule);
    }
    if let Some(effect) = effect_of(by.card, card, me) {
        maker.add(effect, &by.spot, by.card)?;
    }
    Ok(brought + len as u32)
}

/// The row of a mail, where it is shown.
fn row_of(
    alloc: Global,
    mailbox: &Mailbox,
    mails: &[Mail<'_>],
    mail: &Mail<'_>,
) -> Result<Option<Row>, Stop> {
    let me = mailbox.me();
    let mut maker = begun(alloc, mail, me)?;
    let mut brought = 0;
    for by in mails {
        brought = act(&mut maker, brought, by, mail.card, me)?;
    }
    Ok(maker.end(mailbox.now()))
}

/// Whether a mail is in a chat.
fn is_in(mail: &Mail<'_>, key: &ChatKey) -> bool {
    match &mail.chat {
        Some(chat) => chat == key,
        None => false,
    }
}

/// The rows of a chat that are shown.
fn rows_of(
    alloc: Global,
    mailbox: &Mailbox,
    mails: &[Mail<'_>],
    key: &ChatKey,
) -> Result<Items<Row>, Stop> {
    let mut rows = Items::new(alloc);
    for mail in mails {
        if is_in(mail, key) {
            if let Some(row) = row_of(alloc, mailbox, mails, mail)? {
                rows.push(row)?;
            }
        }
    }
    Ok(rows)
}

/// The roster of a chat.
fn roster_of(alloc: Global, mails: &[Mail<'_>], key: &ChatKey, me: &Addr) -> Result<Roster, Stop> {
    let mut roster = begin(alloc, key, me)?;
    for mail in mails {
        if is_in(mail, key) {
            add(alloc, &mut roster, key, mail.card, me)?;
        }
    }
    Ok(roster)
}

/// The page of a chat.
fn page_of(
    alloc: Global,
    mailbox: &Mailbox,
    mails: &[Mail<'_>],
    key: ChatKey,
) -> Result<ChatPage, Stop> {
    let rows = rows_of(alloc, mailbox, mails, &key)?;
    let roster = roster_of(alloc, mails, &key, mailbox.me())?;
    let name = page_name(alloc, &key, &roster, contact_of(mails, &key))?;
    Ok(ChatPage {
        key,
        name,
        members: roster.members,
        timer: roster.timer,
        rows,
    })
}

/// The keys of the chats, each once.
fn keys_of(alloc: Global, mails: &[Mail<'_>]) -> Result<Vec<ChatKey>, Stop> {
    let mut keys = Vec::new(alloc);
    for mail in mails {
        if let Some(chat) = &mail.chat {
            keys.push(chat.copy()?)?;
        }
    }
    Ok(each_once(alloc, keys)?)
}

/// The pages of all chats.
pub fn pages_of(
    alloc: Global,
    mailbox: &Mailbox,
    mails: &[Mail<'_>],
) -> Result<Vec<ChatPage>, Stop> {
    let mut pages = Vec::new(alloc);
    for key in keys_of(alloc, mails)? {
        pages.push(page_of(alloc, mailbox, mails, key)?)?;
    }
    Ok(pages)
}

/// The updates of the app with an id, where it is shown.
pub fn updates_of(
    alloc: Global,
    mailbox: &Mailbox,
    mails: &[Mail<'_>],
    id: &Id,
) -> Result<Option<Items<UpdateRow>>, Stop> {
    let Some(mail) = find(mails, id) else {
        return Ok(None);
    };
    if mail.chat.is_none() {
        return Ok(None);
    }
    match row_of(alloc, mailbox, mails, mail)? {
        Some(row) if row.app => Ok(Some(row.updates)),
        _ => Ok(None),
    }
}
