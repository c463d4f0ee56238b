//! Rosters that no chat of mails has: before its first card, and after one that no chat program sent in a group.
use crate::asserts::assert_same;
use crate::values::{addr, addrs, key, plain, text};
use card_type::{Card, ChatKey};
use group_roster::{Roster, add, begin};
use kit::Addr;
use std::alloc::Global;
use std::process::Abort;
use std::test::Fail;

/// What a mail says that rosters look at.
#[derive(Clone, Copy)]
pub(crate) struct Said<'a> {
    pub(crate) from: &'a str,
    pub(crate) to: &'a [&'a str],
    pub(crate) cc: &'a [&'a str],
    pub(crate) chat: bool,
    pub(crate) name: &'a str,
    pub(crate) renamed: bool,
    pub(crate) added: Option<&'a str>,
    pub(crate) removed: Option<&'a str>,
    pub(crate) timer: u32,
    pub(crate) subject: &'a str,
}

/// The mail G1 of Ann, which founds the group Trip.
pub(crate) const G1: Said<'static> = Said {
    from: "ann@x.org",
    to: &["me@x.org", "bob@x.org"],
    cc: &[],
    chat: true,
    name: "Trip",
    renamed: false,
    added: None,
    removed: None,
    timer: 0,
    subject: "Hello",
};

/// The key of a chat, its first mail, if there is one, and its roster then: whether it is begun, its members, its name and its
/// timer.
type Row = (&'static str, Option<Said<'static>>, &'static str);

/// What is no roster of a chat of mails.
const ROSTERS: [Row; 5] = [
    ("self", None, "false | me@x.org |  | 0"),
    (
        "single:bob@x.org",
        None,
        "false | me@x.org, bob@x.org |  | 0",
    ),
    ("group:abcdefghijk", None, "false |  |  | 0"),
    ("thread:g1@x.org", None, "false |  |  | 0"),
    (
        "group:abcdefghijk",
        Some(Said {
            timer: 60,
            chat: false,
            ..G1
        }),
        "true | ann@x.org, me@x.org, bob@x.org | Trip | 0",
    ),
];

fn addr_option(alloc: Global, text: Option<&str>) -> Result<Option<Addr>, Fail> {
    match text {
        Some(text) => Ok(Some(addr(alloc, text)?)),
        None => Ok(None),
    }
}

/// A card of whom it is from and to, and of what needs no memory.
fn addressed(alloc: Global, said: &Said) -> Result<Card, Fail> {
    let to = addrs(alloc, said.to)?;
    let cc = addrs(alloc, said.cc)?;
    let mut card = plain(alloc, said.from, "g1@x.org")?;
    card.to = to;
    card.cc = cc;
    card.chat = said.chat;
    card.renamed = said.renamed;
    card.timer = said.timer;
    Ok(card)
}

/// The card of a mail that says this.
pub(crate) fn card(alloc: Global, said: &Said) -> Result<Card, Fail> {
    let name = text(alloc, said.name)?;
    let subject = text(alloc, said.subject)?;
    let added = addr_option(alloc, said.added)?;
    let removed = addr_option(alloc, said.removed)?;
    let mut card = addressed(alloc, said)?;
    card.group_name = name;
    card.added = added;
    card.removed = removed;
    card.subject = subject;
    Ok(card)
}

/// Adds the card of a mail to a roster, if there is one.
fn add_said(
    alloc: Global,
    roster: &mut Roster,
    key: &ChatKey,
    said: Option<Said>,
    me: &Addr,
) -> Result<(), Fail> {
    match said {
        Some(said) => Ok(add(alloc, roster, key, &card(alloc, &said)?, me)?),
        None => Ok(()),
    }
}

/// A roster as a text.
fn told(alloc: Global, roster: &Roster) -> Result<String, Fail> {
    let mut text = format!(in alloc; "{} | ", roster.begun)?;
    let mut sep = "";
    for member in roster.members.as_slice() {
        text.push_str(sep)?;
        text.push_str(str::from_utf8(member.bytes())?)?;
        sep = ", ";
    }
    text.push_str(" | ")?;
    text.push_str(roster.name.as_str())?;
    text.push_str(format!(in alloc; " | {}", roster.timer)?.as_str())?;
    Ok(text)
}

fn roster_of(alloc: Global, key: &ChatKey, said: Option<Said>, me: &Addr) -> Result<String, Fail> {
    let mut roster = begin(alloc, key, me)?;
    add_said(alloc, &mut roster, key, said, me)?;
    told(alloc, &roster)
}

/// Each roster is as its row says.
fn are_begun<R: Abort>(rt: &R, alloc: Global, rows: &[Row]) -> Result<(), Fail> {
    let me = addr(alloc, "me@x.org")?;
    for &(text, said, expected) in rows {
        let found = roster_of(alloc, &key(alloc, text)?, said, &me)?;
        assert_same(rt, found.as_str(), expected);
    }
    Ok(())
}

#[test]
fn rosters_begin(rt: HostRuntime) -> Result<(), Fail> {
    are_begun(&rt, rt.alloc(), &ROSTERS)
}
