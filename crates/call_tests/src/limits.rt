//! A mailbox made again, and what it has no place for: its last uid, and the most that its cards weigh.
ghost use Rattle.std.specs.Prelude.{◌≡◌, false, None, OnOk};
ghost use Rattle.mailbox_model.specs.declared.change.Fault.TheVariants as faults;
ghost use Rattle.mailbox_model.specs.declared.item.Held.TheVariants as is_held;
ghost use Rattle.mailbox_model.specs.Mailbox.{full, IsValidChange};
ghost use Rattle.box_state.specs.Kept.{ready_for};

use crate::asserts::{assert_row, assert_same};
use crate::values::{addr, id, letters, plain};
use box_state::{Change, Fault, Held, Item, Mailbox, PlanFault, Turn};
use card_type::{Card, is_valid, weight};
use kit::Id;
use lists::Items;
use std::alloc::Global;
use std::process::Abort;
use std::test::Fail;

const ME: &str = "me@x.org";

const BOB: &str = "bob@x.org";

/// The last uid that there is.
const LAST_UID: u32 = 4_294_967_294;

/// What a change would do, once the mailbox is ready for it.
fn prepared(mailbox: &mut Mailbox, change: &Change) -> Result<Turn, Fail>
    ensures room { OnOk result (full mailbox.new.mailbox change.now ≡ false) }
    ensures ready { OnOk result (mailbox.new.ready ≡ ready_for change.now) }
{
    mailbox.reserve(change)?;
    match mailbox.plan(change) {
        Ok(turn) => Ok(turn),
        Err(_) => Err(Fail::from("no plan")),
    }
}

/// Makes a change, and says what it was planned to do.
fn make(mailbox: &mut Mailbox, change: Change) -> Result<Turn, Fail>
    requires { IsValidChange change }
{
    let turn = prepared(mailbox, &change)?;
    mailbox.make(change);
    Ok(turn)
}

fn arrives(mailbox: &mut Mailbox, card: Card) -> Result<Turn, Fail> {
    if !is_valid(&card) {
        return Err(Fail::from("no valid card"));
    }
    make(mailbox, Change::Arrive(card))
}

fn dated(alloc: Global, date: u64) -> Result<Card, Fail> {
    let mut card = plain(alloc, BOB, "a")?;
    card.date = Some(date);
    Ok(card)
}

/// The date and the uid of a card with a date, once it is added.
fn added(alloc: Global, mailbox: &mut Mailbox, date: u64) -> Result<(u64, u32), Fail> {
    match arrives(mailbox, dated(alloc, date)?)? {
        Turn::Add(spot) => Ok((spot.date, spot.uid)),
        _ => Err(Fail::from("not added")),
    }
}

/// Whether the mailbox has no place for a mail without a card.
fn is_full(mailbox: &Mailbox) -> bool {
    matches!(
        mailbox.plan(&Change::ArriveFault(Fault::NoFrom)),
        Err(PlanFault::Full)
    )
}

/// Whether the mailbox has no place for a card.
fn is_full_of_cards(alloc: Global, mailbox: &Mailbox) -> Result<bool, Fail> {
    let change = Change::Arrive(dated(alloc, 0)?);
    Ok(matches!(mailbox.plan(&change), Err(PlanFault::Full)))
}

/// An empty mailbox that is made again goes on from its moment and its next uid.
fn goes_on<R: Abort>(rt: &R, alloc: Global) -> Result<(), Fail> {
    let mut mailbox = Mailbox::restore(alloc, addr(alloc, ME)?, 5, 9, Vec::new(alloc))?;
    assert!(rt; mailbox.now() == 5 && mailbox.next_uid() == 9 && mailbox.items().is_empty());
    assert!(rt; added(alloc, &mut mailbox, 7)? == (5, 9));
    Ok(())
}

/// A mail that arrived at 40, and has no card.
fn item(uid: u32) -> Item
    ensures { result ≡ record { uid = uid; arrival = 40; seen = None; held = is_held.Fault faults.NoFields } }
{
    Item {
        uid,
        arrival: 40,
        seen: None,
        held: Held::Fault(Fault::NoFields),
    }
}

/// A mailbox with the uids 2 and 7.
fn with_gaps(alloc: Global) -> Result<Mailbox, Fail> {
    let me = addr(alloc, ME)?;
    let mut items = Vec::new(alloc);
    items.push((item(2), None))?;
    items.push((item(7), None))?;
    Ok(Mailbox::restore(alloc, me, 50, 10, items)?)
}

/// Uids may have gaps.
fn may_have_gaps<R: Abort>(rt: &R, alloc: Global, mailbox: &mut Mailbox) -> Result<(), Fail> {
    for uid in 0..11u32 {
        assert_row(rt, uid, mailbox.item(uid).is_some(), uid == 2 || uid == 7);
    }
    assert!(rt; added(alloc, mailbox, 60)? == (50, 10));
    Ok(())
}

/// Whether an empty mailbox whose next uid is the last one is full, before and after it has that mail.
fn uids_end(alloc: Global) -> Result<[bool; 2], Fail> {
    let me = addr(alloc, ME)?;
    let mut mailbox = Mailbox::restore(alloc, me, 0, LAST_UID, Vec::new(alloc))?;
    let before = is_full(&mailbox);
    let _nothing = make(&mut mailbox, Change::ArriveFault(Fault::NoFrom))?;
    Ok([
        before,
        is_full(&mailbox) && mailbox.item(LAST_UID).is_some(),
    ])
}

/// So many copies of an id.
fn copies(alloc: Global, id: &Id, count: u32) -> Result<Items<Id>, Fail> {
    let mut copies = Items::new(alloc);
    for _ in 0..count {
        copies.push(id.copy()?)?;
    }
    Ok(copies)
}

/// A card with an id of three bytes that weighs 1,048,576: 78, and 1,046 times 1,002 for an id of 998 bytes, and 406 for
/// a text of so many.
fn heavy(alloc: Global, longest: &Id, number: u32) -> Result<Card, Fail> {
    let references = copies(alloc, longest, 1_046)?;
    let text = letters(alloc, 406)?;
    let id = format!(in alloc; "{number}")?;
    let mut card = plain(alloc, BOB, id.as_str())?;
    card.references = references;
    card.text = text;
    Ok(card)
}

/// Heavy cards arrive, with the ids from a number of three digits on. What they weigh together.
fn heavy_ones(alloc: Global, mailbox: &mut Mailbox, first: u32, count: u32) -> Result<u64, Fail> {
    let longest = id(alloc, letters(alloc, 998)?.as_str())?;
    let mut total: u64 = 0;
    for number in first..first.saturating_add(count) {
        let card = heavy(alloc, &longest, number)?;
        total = total.saturating_add(weight(&card));
        let _add = arrives(mailbox, card)?;
    }
    Ok(total)
}

/// The most that all cards weigh together: 268,435,456, which is 256 times 1,048,576. A mail without a card has place then.
fn weights_end<R: Abort>(rt: &R, alloc: Global, mailbox: &mut Mailbox) -> Result<(), Fail> {
    assert!(rt; heavy_ones(alloc, mailbox, 100, 255)? == 267_386_880);
    assert!(rt; !is_full_of_cards(alloc, mailbox)?);
    assert!(rt; heavy_ones(alloc, mailbox, 355, 1)? == 1_048_576);
    assert!(rt; is_full_of_cards(alloc, mailbox)?);
    assert!(rt; !is_full(mailbox));
    Ok(())
}

#[test]
fn mailboxes_have_limits(rt: HostRuntime) -> Result<(), Fail> {
    let alloc = rt.alloc();
    goes_on(&rt, alloc)?;
    may_have_gaps(&rt, alloc, &mut with_gaps(alloc)?)?;
    assert_same(&rt, uids_end(alloc)?, [false, true]);
    let mut mailbox = Mailbox::new(alloc, addr(alloc, ME)?);
    weights_end(&rt, alloc, &mut mailbox)
}
