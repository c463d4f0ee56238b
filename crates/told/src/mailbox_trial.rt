//! A trial mailbox: its mails arrive, and then changes come that are drawn. An engine that repairs its indexes at each
//! change answers as one that builds them anew before it is asked.
ghost use Rattle.std.specs.Prelude.{◌≡◌, false, OnOk};
ghost use Rattle.mailbox_model.specs.Mailbox.{IsValidChange};

use crate::compare::are_pages_alike;
use crate::pair::Pair;
use crate::report::Report;
use arrivals::arrival_of_mail;
use box_maker::box_bytes;
use box_state::Mailbox;
use card_type::ChatKey;
use engine::{AskFault, Engine};
use kit::{LAST_MOMENT, Steps};
use mailbox_model::{Change, ChatPage};
use mboxrd::{MboxReader, Taken};
use outside::QuietSource;
use plain_pages::{Draw, Stop, draw_for};
use std::alloc::Global;
use std::sync::ledger::Ledger;

/// When the mails arrive: 2024-02-01 00:00 UTC, after the date of each.
const ARRIVAL: u64 = 1_706_745_600;

/// So many bytes are read at once.
const CHUNK_LEN: usize = 65_536;

/// The number of a trial mailbox, how many mails it has, and how many changes come then.
#[derive(Clone, Copy)]
pub struct Trial {
    pub number: u32,
    pub mails: u32,
    pub changes: u32,
}

/// The page of a chat, or none where there is no such chat.
pub fn page_or_none<L: Ledger>(
    engine: &Engine,
    key: &ChatKey,
    steps: &mut Steps<L>,
) -> Result<Option<ChatPage>, Stop> {
    match engine.chat(key, steps) {
        Ok(page) => Ok(Some(page)),
        Err(AskFault::NoChat) => Ok(None),
        Err(_) => Err(Stop::Memory),
    }
}

/// An answer that is there, unless memory runs out.
pub fn answered<T: Drop>(answer: Result<T, AskFault>) -> Result<T, Stop> {
    match answer {
        Ok(found) => Ok(found),
        Err(_) => Err(Stop::Memory),
    }
}

/// Compares the lists, in the order of their chats too.
fn compare_lists<L: Ledger>(
    report: &mut Report,
    pair: &Pair,
    steps: &mut Steps<L>,
) -> Result<(), Stop> {
    let expected = answered(pair.anew.list(steps))?;
    let found = answered(pair.kept.list(steps))?;
    Ok(report.add_page(found == expected, b"list", b"")?)
}

/// Compares the contacts.
fn compare_contacts(report: &mut Report, pair: &Pair) -> Result<(), Stop> {
    let expected = answered(pair.anew.contacts())?;
    let found = answered(pair.kept.contacts())?;
    Ok(report.add_page(found == expected, b"contacts", b"")?)
}

/// Compares the pages of a chat.
fn compare_chat<L: Ledger>(
    report: &mut Report,
    pair: &Pair,
    key: &ChatKey,
    steps: &mut Steps<L>,
) -> Result<(), Stop> {
    let expected = page_or_none(&pair.anew, key, steps)?;
    let found = page_or_none(&pair.kept, key, steps)?;
    let alike = are_pages_alike(found.as_ref(), expected.as_ref());
    Ok(report.add_chat(alike, key)?)
}

/// Compares the pages of each chat that the last change touched.
fn compare_touched<L: Ledger>(
    report: &mut Report,
    pair: &Pair,
    steps: &mut Steps<L>,
) -> Result<(), Stop> {
    for key in pair.kept.touched() {
        compare_chat(report, pair, key, steps)?;
    }
    Ok(())
}

/// Compares the pages of each chat in the list.
fn compare_listed<L: Ledger>(
    report: &mut Report,
    pair: &Pair,
    steps: &mut Steps<L>,
) -> Result<(), Stop> {
    let list = answered(pair.anew.list(steps))?;
    for row in list.rows.as_slice() {
        compare_chat(report, pair, &row.key, steps)?;
    }
    Ok(())
}

/// Builds the indexes of one engine anew, and compares the lists, the contacts, the pages of the chats that the last change
/// touched, and those of all chats.
fn compare_all<L: Ledger>(
    report: &mut Report,
    pair: &mut Pair,
    steps: &mut Steps<L>,
) -> Result<(), Stop> {
    pair.anew.rebuild(steps)?;
    compare_lists(report, pair, steps)?;
    compare_contacts(report, pair)?;
    compare_touched(report, pair, steps)?;
    compare_listed(report, pair, steps)
}

/// Makes a change, for which there is a place.
fn make<L: Ledger>(
    report: &mut Report,
    pair: &mut Pair,
    change: Change,
    steps: &mut Steps<L>,
) -> Result<(), Stop>
    requires { IsValidChange change }
{
    if !pair.make(change, steps)? {
        return Err(Stop::NoRule);
    }
    report.add_change();
    Ok(())
}

/// The next mail, which gets this uid, arrives.
fn arrives<L: Ledger>(
    report: &mut Report,
    alloc: Global,
    pair: &mut Pair,
    reader: &mut MboxReader,
    source: &mut QuietSource,
    uid: u32,
    steps: &mut Steps<L>,
) -> Result<(), Stop>
    requires { reader.old.refused ≡ false }
    ensures { OnOk result (reader.new.refused ≡ false) }
{
    let Ok(Taken::Mail(mail)) = reader.next(alloc, source) else {
        return Err(Stop::NoRule);
    };
    make(report, pair, arrival_of_mail(alloc, uid, &mail)?, steps)
}

/// All mails arrive, and the answers are compared at each two hundredth.
fn all_arrive<L: Ledger>(
    report: &mut Report,
    alloc: Global,
    pair: &mut Pair,
    reader: &mut MboxReader,
    source: &mut QuietSource,
    mails: u32,
    steps: &mut Steps<L>,
) -> Result<(), Stop>
    requires { reader.old.refused ≡ false }
{
    for number in 0..mails {
        let uid = number + 1;
        arrives(report, alloc, pair, reader, source, uid, steps)?;
        if uid % 200 == 0 {
            compare_all(report, pair, steps)?;
        }
    }
    Ok(())
}

/// The mails of the trial mailbox arrive.
fn box_arrives<L: Ledger>(
    report: &mut Report,
    alloc: Global,
    pair: &mut Pair,
    trial: Trial,
    steps: &mut Steps<L>,
) -> Result<(), Stop> {
    let me = pair.kept.mailbox().me();
    let bytes = box_bytes(alloc, u64::from(trial.number), trial.mails, me)?;
    let mut reader = MboxReader::new(alloc, CHUNK_LEN, u64::MAX)?;
    let mut source = QuietSource::new(bytes);
    all_arrive(
        report,
        alloc,
        pair,
        &mut reader,
        &mut source,
        trial.mails,
        steps,
    )
}

/// The uids of the mails that have a timer.
fn uids_with_timer<L: Ledger>(
    alloc: Global,
    mailbox: &Mailbox,
    steps: &mut Steps<L>,
) -> Result<Vec<u32>, Stop> {
    let mut uids = Vec::new(alloc);
    for item in mailbox.items() {
        match mailbox.card(item.uid, steps) {
            Some(card) if card.timer > 0 => uids.push(item.uid)?,
            _ => {}
        }
    }
    Ok(uids)
}

/// The uid of a mail to mark: about every second one has a timer, as every tenth mail, and the mark starts it.
fn uid_to_mark(draw: &mut Draw, timed: &[u32], mails: u32) -> u32 {
    match timed.get(draw.below((mails / 5).max(1)) as usize) {
        Some(uid) => *uid,
        None => drawn_uid(draw, mails),
    }
}

/// The uid of one of the mails.
fn drawn_uid(draw: &mut Draw, mails: u32) -> u32 {
    draw.below(mails.max(1)).saturating_add(1)
}

/// What is drawn as the change with a number. A second goes by at each of them, so that some timers run out.
fn drawn(draw: &mut Draw, timed: &[u32], mails: u32, number: u32) -> Change
    ensures { IsValidChange result }
{
    match draw.below(3) {
        0 => Change::Expunge(drawn_uid(draw, mails)),
        1 => Change::Seen(uid_to_mark(draw, timed, mails)),
        _ => Change::At(ARRIVAL + u64::from(number)),
    }
}

/// The changes come, and all answers are compared after each.
fn all_change<L: Ledger>(
    report: &mut Report,
    alloc: Global,
    pair: &mut Pair,
    trial: Trial,
    steps: &mut Steps<L>,
) -> Result<(), Stop> {
    let timed = uids_with_timer(alloc, pair.kept.mailbox(), steps)?;
    let mut draw = draw_for(trial.number);
    for number in 0..trial.changes {
        let change = drawn(&mut draw, timed.as_slice(), trial.mails, number + 1);
        make(report, pair, change, steps)?;
        compare_all(report, pair, steps)?;
    }
    Ok(())
}

/// All deadlines that are kept fall due, and all answers are compared.
fn time_runs_out<L: Ledger>(
    report: &mut Report,
    pair: &mut Pair,
    steps: &mut Steps<L>,
) -> Result<(), Stop> {
    make(report, pair, Change::At(LAST_MOMENT), steps)?;
    let touched = pair.kept.touched().len() as u64;
    report.add_line(touched, b" chats have a mail that vanishes at last\n")?;
    compare_all(report, pair, steps)
}

/// The answers are compared as the mails arrive, as the changes come, and at the end of time.
fn compare_stages<L: Ledger>(
    report: &mut Report,
    alloc: Global,
    pair: &mut Pair,
    trial: Trial,
    steps: &mut Steps<L>,
) -> Result<(), Stop> {
    make(report, pair, Change::At(ARRIVAL), steps)?;
    box_arrives(report, alloc, pair, trial, steps)?;
    all_change(report, alloc, pair, trial, steps)?;
    time_runs_out(report, pair, steps)
}

/// Says how a trial goes in two engines over the empty mailbox of an address.
pub fn add_trial<L: Ledger>(
    said: &mut Vec<u8>,
    alloc: Global,
    pair: &mut Pair,
    trial: Trial,
    steps: &mut Steps<L>,
) -> Result<(), Stop> {
    let mut report = Report::new(alloc);
    compare_stages(&mut report, alloc, pair, trial, steps)?;
    Ok(report.add_to(said)?)
}
