//! Mails that are made by numbers.
use crate::acts::{bring, delete, edit, receive};
use crate::draws::{Draw, draw_for};
use crate::stop::Stop;
use crate::values::{addr, id, text};
use card_type::{Attachment, Card, GroupId};
use kit::{Addr, Id, Text};
use lists::Items;
use std::alloc::Global;

/// The own address.
pub const ME: &str = "me@x.org";

/// Oneself and six others.
const PEOPLE: u32 = 7;

/// Each of them.
fn person(index: u32) -> &'static str {
    match index {
        0 => ME,
        1 => "ann@x.org",
        2 => "bob@x.org",
        3 => "cid@x.org",
        4 => "dan@x.org",
        5 => "eve@x.org",
        _ => "fay@x.org",
    }
}

/// The id of each of three groups.
fn group_id(index: u32) -> &'static str {
    match index {
        0 => "abcdefghijk",
        1 => "lmnopqrstuv",
        _ => "wxyz-012345",
    }
}

/// How many mails there are.
pub const COUNT: u32 = 300;

/// The earliest date.
pub const START: u64 = 1_700_000_000;

/// Seconds in an hour.
pub const HOUR: u64 = 3_600;

/// Who sent the mail with a number: oneself every fifth.
pub(crate) fn author(number: u32) -> &'static str {
    if number % 5 == 0 {
        ME
    } else {
        person(draw_for(number).below(PEOPLE))
    }
}

/// The id of the mail with a number.
pub fn id_of(alloc: Global, number: u32) -> Result<Id, Stop> {
    let bytes = format!(in alloc; "m{number}@x.org")?;
    id(alloc, bytes.as_str())
}

/// The people whose bits are set.
fn people(alloc: Global, bits: u32) -> Result<Items<Addr>, Stop> {
    let mut people = Items::new(alloc);
    let mut left = bits;
    for index in 0..PEOPLE {
        if left % 2 == 1 {
            people.push(addr(alloc, person(index))?)?;
        }
        left /= 2;
    }
    Ok(people)
}

/// The ids of so many mails.
fn drawn_ids(alloc: Global, draw: &mut Draw, count: u32) -> Result<Items<Id>, Stop> {
    let mut ids = Items::new(alloc);
    for _ in 0..count {
        // The last ten are of no mail.
        ids.push(id_of(alloc, draw.below(310))?)?;
    }
    Ok(ids)
}

/// To one other or to oneself, or to several.
fn address(alloc: Global, card: &mut Card, draw: &mut Draw) -> Result<(), Stop> {
    if draw.below(3) == 0 {
        card.to = people(alloc, 1 << draw.below(7))?;
    } else {
        card.to = people(alloc, draw.below(128))?;
        card.cc = people(alloc, draw.below(128) & draw.below(128))?;
    }
    Ok(())
}

/// In answer to some mails, or to none.
fn answer(alloc: Global, card: &mut Card, draw: &mut Draw) -> Result<(), Stop> {
    let replies = draw.below(3);
    card.replies = drawn_ids(alloc, draw, replies)?;
    let references = draw.below(4);
    card.references = drawn_ids(alloc, draw, references)?;
    Ok(())
}

/// With a timer of some days, or none.
fn time(card: &mut Card, draw: &mut Draw) {
    if draw.below(3) == 0 {
        card.timer = 86_400 * (1 + draw.below(9));
    }
}

/// In one of the groups.
fn gather(alloc: Global, card: &mut Card, draw: &mut Draw) -> Result<(), Stop> {
    let group = group_id(draw.below(3));
    card.group = GroupId::read(alloc, group.as_bytes())?;
    card.group_name = Text::from(format!(in alloc; "Group {}", draw.below(5))?);
    card.to = people(alloc, draw.below(128))?;
    card.chat = true;
    Ok(())
}

/// With an address or none.
fn drawn_person(alloc: Global, draw: &mut Draw) -> Result<Option<Addr>, Stop> {
    let index = draw.below(2 * PEOPLE);
    if index < PEOPLE {
        Ok(Some(addr(alloc, person(index))?))
    } else {
        Ok(None)
    }
}

/// A change of who is in a group, or of how it is called.
fn regroup(alloc: Global, card: &mut Card, draw: &mut Draw) -> Result<(), Stop> {
    gather(alloc, card, draw)?;
    card.added = drawn_person(alloc, draw)?;
    card.removed = drawn_person(alloc, draw)?;
    card.renamed = draw.below(2) == 0;
    Ok(())
}

/// An app.
fn pack(alloc: Global, card: &mut Card) -> Result<(), Stop> {
    let kind = text(alloc, "application/webxdc+zip")?;
    let name = text(alloc, "app.xdc")?;
    card.attachments.push(Attachment {
        kind,
        name,
        size: 4,
    })?;
    card.app = true;
    Ok(())
}

/// A mail that is shown.
fn show(alloc: Global, card: &mut Card, draw: &mut Draw) -> Result<(), Stop> {
    card.subject = Text::from(format!(in alloc; "Subject {}", draw.below(20))?);
    card.chat = draw.below(2) == 0;
    address(alloc, card, draw)?;
    answer(alloc, card, draw)?;
    time(card, draw);
    Ok(())
}

/// What the mail with a number is for, by its last digit.
fn aim(alloc: Global, card: &mut Card, draw: &mut Draw, number: u32) -> Result<(), Stop> {
    match number % 10 {
        2 => gather(alloc, card, draw),
        3 => pack(alloc, card),
        4 => edit(alloc, card, draw),
        6 => delete(alloc, card, draw),
        7 => receive(alloc, card, draw),
        8 => bring(alloc, card, draw),
        9 => regroup(alloc, card, draw),
        _ => Ok(()),
    }
}

/// Fills a card that says no more than its id and its sender.
fn fill(alloc: Global, card: &mut Card, number: u32) -> Result<(), Stop> {
    let mut draw = draw_for(number);
    card.date = Some(START + HOUR * u64::from(draw.below(200)));
    card.text = Text::from(format!(in alloc; "Text {number}")?);
    if draw.below(3) == 0 {
        card.from_name = Text::from(format!(in alloc; "Name {}", draw.below(9))?);
    }
    match number % 10 {
        0..=3 | 5 | 9 => show(alloc, card, &mut draw)?,
        _ => {}
    }
    aim(alloc, card, &mut draw, number)
}

/// The card of the mail with a number.
pub fn card(alloc: Global, number: u32) -> Result<Card, Stop> {
    let id = id_of(alloc, number)?;
    let from = addr(alloc, author(number))?;
    let mut card = Card::new(alloc, id, from);
    fill(alloc, &mut card, number)?;
    Ok(card)
}
