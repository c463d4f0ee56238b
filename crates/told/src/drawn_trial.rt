//! A mailbox of 300 mails that are made by numbers, in some order of arrival: what engines answer is what the definition
//! gives, followed plainly from the mailbox as it then stands.
use crate::compare::are_pages_alike;
use crate::mailbox_trial::{answered, page_or_none};
use crate::pair::Pair;
use crate::report::Report;
use card_type::{Card, ChatKey, is_valid};
use engine::{AskFault, Engine};
use kit::{Id, Steps};
use lists::Items;
use mailbox_model::{Change, ChatPage, Fault, UpdateRow};
use plain_pages::{
    COUNT, HOUR, Mail, START, Stop, card, contacts_of, draw_for, id_of, list_of, pages_of,
    present_mails, updates_of,
};
use std::alloc::Global;
use std::sync::ledger::Ledger;

/// When all arrive: no date is to come.
const ARRIVAL: u64 = START + 200 * HOUR;

/// When some timers have run out.
const LATER: u64 = START + 320 * HOUR;

/// The page with a key.
fn page_with<'m>(pages: &'m [ChatPage], key: &ChatKey) -> Option<&'m ChatPage> {
    for page in pages {
        if page.key == *key {
            return Some(page);
        }
    }
    None
}

/// Compares the page of a chat.
fn compare_chat<L: Ledger>(
    report: &mut Report,
    engine: &Engine,
    pages: &[ChatPage],
    key: &ChatKey,
    steps: &mut Steps<L>,
) -> Result<(), Stop> {
    let found = page_or_none(engine, key, steps)?;
    let alike = are_pages_alike(found.as_ref(), page_with(pages, key));
    Ok(report.add_chat(alike, key)?)
}

/// Compares the page of each chat, and those of threads some of which are not there.
fn compare_chats<L: Ledger>(
    report: &mut Report,
    alloc: Global,
    engine: &Engine,
    pages: &[ChatPage],
    steps: &mut Steps<L>,
) -> Result<(), Stop> {
    for page in pages {
        compare_chat(report, engine, pages, &page.key, steps)?;
    }
    for number in 290..310 {
        let key = ChatKey::Thread(id_of(alloc, number)?);
        compare_chat(report, engine, pages, &key, steps)?;
    }
    Ok(())
}

/// The updates of the app with an id, or none where there is no such app.
fn updates_or_none<L: Ledger>(
    engine: &Engine,
    id: &Id,
    steps: &mut Steps<L>,
) -> Result<Option<Items<UpdateRow>>, Stop> {
    match engine.updates(id, steps) {
        Ok(rows) => Ok(Some(rows)),
        Err(AskFault::NoApp) => Ok(None),
        Err(_) => Err(Stop::Memory),
    }
}

/// Compares the updates of the mail with an id.
fn compare_app<L: Ledger>(
    report: &mut Report,
    alloc: Global,
    engine: &Engine,
    mails: &[Mail<'_>],
    id: &Id,
    steps: &mut Steps<L>,
) -> Result<(), Stop> {
    let expected = updates_of(alloc, engine.mailbox(), mails, id)?;
    let found = updates_or_none(engine, id, steps)?;
    Ok(report.add_updates(found == expected, id)?)
}

/// Compares the updates of each app, and of some mails that are none.
fn compare_apps<L: Ledger>(
    report: &mut Report,
    alloc: Global,
    engine: &Engine,
    mails: &[Mail<'_>],
    steps: &mut Steps<L>,
) -> Result<(), Stop> {
    for number in 0..310u32 {
        if number % 10 == 3 || number > 290 {
            compare_app(report, alloc, engine, mails, &id_of(alloc, number)?, steps)?;
        }
    }
    Ok(())
}

/// Compares the list.
fn compare_list<L: Ledger>(
    report: &mut Report,
    alloc: Global,
    engine: &Engine,
    pages: &[ChatPage],
    steps: &mut Steps<L>,
) -> Result<(), Stop> {
    let expected = list_of(alloc, engine.mailbox(), pages)?;
    let found = answered(engine.list(steps))?;
    Ok(report.add_page(found == expected, b"list", b"")?)
}

/// Compares the contacts.
fn compare_contacts(
    report: &mut Report,
    alloc: Global,
    engine: &Engine,
    mails: &[Mail<'_>],
) -> Result<(), Stop> {
    let expected = contacts_of(alloc, mails, engine.mailbox().me())?;
    let found = answered(engine.contacts())?;
    Ok(report.add_page(found == expected, b"contacts", b"")?)
}

/// Compares all answers of an engine with the definition.
fn compare_all<L: Ledger>(
    report: &mut Report,
    alloc: Global,
    engine: &Engine,
    steps: &mut Steps<L>,
) -> Result<(), Stop> {
    let mailbox = engine.mailbox();
    let mails = present_mails(alloc, mailbox, steps)?;
    let pages = pages_of(alloc, mailbox, mails.as_slice())?;
    compare_list(report, alloc, engine, pages.as_slice(), steps)?;
    compare_chats(report, alloc, engine, pages.as_slice(), steps)?;
    compare_contacts(report, alloc, engine, mails.as_slice())?;
    compare_apps(report, alloc, engine, mails.as_slice(), steps)
}

/// Compares all answers of both engines: with indexes that are kept over the changes, and with those that are built anew.
fn compare_both<L: Ledger>(
    report: &mut Report,
    alloc: Global,
    pair: &mut Pair,
    steps: &mut Steps<L>,
) -> Result<(), Stop> {
    compare_all(report, alloc, &pair.kept, steps)?;
    pair.anew.rebuild(steps)?;
    compare_all(report, alloc, &pair.anew, steps)
}

/// A card arrives.
fn arrives<L: Ledger>(
    report: &mut Report,
    pair: &mut Pair,
    card: Card,
    steps: &mut Steps<L>,
) -> Result<(), Stop> {
    if !is_valid(&card) {
        return Err(Stop::NoValue);
    }
    let _has_place = pair.make(Change::Arrive(card), steps)?;
    report.add_change();
    Ok(())
}

/// The mail with a number arrives; a few have no card.
fn mail_arrives<L: Ledger>(
    report: &mut Report,
    alloc: Global,
    pair: &mut Pair,
    number: u32,
    steps: &mut Steps<L>,
) -> Result<(), Stop> {
    if number % 37 != 36 {
        return arrives(report, pair, card(alloc, number)?, steps);
    }
    let _has_place = pair.make(Change::ArriveFault(Fault::NoFrom), steps)?;
    report.add_change();
    Ok(())
}

/// All mails arrive, from this number on and in steps of this length.
fn all_arrive<L: Ledger>(
    report: &mut Report,
    alloc: Global,
    pair: &mut Pair,
    first: u32,
    stride: u32,
    steps: &mut Steps<L>,
) -> Result<(), Stop> {
    let mut number = first % COUNT;
    for _ in 0..COUNT {
        mail_arrives(report, alloc, pair, number, steps)?;
        number = number.wrapping_add(stride) % COUNT;
    }
    Ok(())
}

/// Some are seen, some go, and time passes.
fn some_go<L: Ledger>(
    report: &mut Report,
    pair: &mut Pair,
    steps: &mut Steps<L>,
) -> Result<(), Stop> {
    let mut draw = draw_for(COUNT);
    for _ in 0..24 {
        let _has_place = pair.make(Change::Seen(1 + draw.below(COUNT)), steps)?;
        report.add_change();
    }
    for _ in 0..12 {
        let _has_place = pair.make(Change::Expunge(1 + draw.below(COUNT)), steps)?;
        report.add_change();
    }
    let _has_place = pair.make(Change::At(LATER), steps)?;
    report.add_change();
    Ok(())
}

/// Another card arrives with an id that is there.
fn copy_arrives<L: Ledger>(
    report: &mut Report,
    alloc: Global,
    pair: &mut Pair,
    number: u32,
    date: u64,
    steps: &mut Steps<L>,
) -> Result<(), Stop> {
    let id = id_of(alloc, number)?;
    let mut card = card(alloc, number.wrapping_add(COUNT))?;
    card.id = id;
    card.date = Some(date);
    arrives(report, pair, card, steps)
}

/// Earlier and later copies arrive.
fn copies_arrive<L: Ledger>(
    report: &mut Report,
    alloc: Global,
    pair: &mut Pair,
    steps: &mut Steps<L>,
) -> Result<(), Stop> {
    let mut draw = draw_for(COUNT + 1);
    for _ in 0..6 {
        copy_arrives(report, alloc, pair, draw.below(COUNT), START, steps)?;
        copy_arrives(report, alloc, pair, draw.below(COUNT), LATER, steps)?;
    }
    Ok(())
}

/// The answers are compared after the arrivals, after what happens then, and after copies.
fn compare_stages<L: Ledger>(
    report: &mut Report,
    alloc: Global,
    pair: &mut Pair,
    first: u32,
    stride: u32,
    steps: &mut Steps<L>,
) -> Result<(), Stop> {
    let _has_place = pair.make(Change::At(ARRIVAL), steps)?;
    all_arrive(report, alloc, pair, first, stride, steps)?;
    compare_both(report, alloc, pair, steps)?;
    some_go(report, pair, steps)?;
    compare_both(report, alloc, pair, steps)?;
    copies_arrive(report, alloc, pair, steps)?;
    compare_both(report, alloc, pair, steps)
}

/// Says how the trial goes where the mails arrive from this number on, in steps of this length, in two engines over the empty
/// mailbox of an address.
pub fn add_drawn_trial<L: Ledger>(
    said: &mut Vec<u8>,
    alloc: Global,
    pair: &mut Pair,
    first: u32,
    stride: u32,
    steps: &mut Steps<L>,
) -> Result<(), Stop> {
    let mut report = Report::new(alloc);
    compare_stages(&mut report, alloc, pair, first, stride, steps)?;
    Ok(report.add_to(said)?)
}
