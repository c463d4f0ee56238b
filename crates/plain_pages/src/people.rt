//! The people of a mailbox.
use crate::mails::Mail;
use crate::stop::Stop;
use crate::values::text;
use card_type::ChatKey;
use kit::{Addr, Text};
use mailbox_model::ContactRow;
use std::alloc::Global;
use std::str;

/// The last name under which an address wrote.
fn name_of<'m>(mails: &'m [Mail<'_>], addr: &Addr) -> Option<&'m Text> {
    let mut name = None;
    for mail in mails {
        if mail.card.from == *addr && !mail.card.from_name.bytes().is_empty() {
            name = Some(&mail.card.from_name);
        }
    }
    name
}

/// The name of the only other of a chat.
pub(crate) fn contact_of<'m>(mails: &'m [Mail<'_>], key: &ChatKey) -> Option<&'m Text> {
    match key {
        ChatKey::Single(addr) => name_of(mails, addr),
        ChatKey::SelfChat | ChatKey::Group(_) | ChatKey::Thread(_) => None,
    }
}

/// Adds an address that is another one than oneself and than those before.
fn push_other(others: &mut Vec<Addr>, addr: &Addr, me: &Addr) -> Result<(), Stop> {
    if addr != me && !others.contains(addr) {
        others.push(addr.copy()?)?;
    }
    Ok(())
}

/// Adds such addresses.
fn push_others(others: &mut Vec<Addr>, addrs: &[Addr], me: &Addr) -> Result<(), Stop> {
    for addr in addrs {
        push_other(others, addr, me)?;
    }
    Ok(())
}

/// All addresses but the own one, in their order.
fn addresses(alloc: Global, mails: &[Mail<'_>], me: &Addr) -> Result<Vec<Addr>, Stop> {
    let mut others = Vec::new(alloc);
    for mail in mails {
        push_other(&mut others, &mail.card.from, me)?;
        push_others(&mut others, mail.card.to.as_slice(), me)?;
        push_others(&mut others, mail.card.cc.as_slice(), me)?;
    }
    others.sort()?;
    Ok(others)
}

/// The contacts.
pub fn contacts_of(alloc: Global, mails: &[Mail<'_>], me: &Addr) -> Result<Vec<ContactRow>, Stop> {
    let mut rows = Vec::new(alloc);
    for addr in addresses(alloc, mails, me)? {
        let name = match name_of(mails, &addr) {
            Some(name) => name.copy()?,
            None => text(alloc, str::from_utf8(addr.bytes()).or(Err(Stop::NoValue))?)?,
        };
        rows.push(ContactRow { addr, name })?;
    }
    Ok(rows)
}
