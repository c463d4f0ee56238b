//! Cards at and past their bounds, and copies of values.
use crate::asserts::assert_row;
use crate::values::{addrs, letters, plain, spot, text};
use card_type::{Card, is_valid};
use kit::LAST_MOMENT;
use std::alloc::Global;
use std::test::Fail;

/// 2024-05-01 10:00:00 UTC.
const TEN: u64 = 1_714_557_600;

/// What a mail of Bob's has: its date, who is in To, and how long its text and its subject are. With one in To, a text of two
/// bytes and no subject its card weighs 108.
type Made = (u64, &'static [&'static str], usize, usize);

/// Such mails, and whether the card of each is valid.
const BOUNDS: [(Made, bool); 9] = [
    ((TEN, &["me@x.org"], 2, 0), true),
    ((LAST_MOMENT, &["me@x.org"], 2, 0), true),
    ((LAST_MOMENT + 1, &["me@x.org"], 2, 0), false),
    ((TEN, &["me@x.org", "eve@x.org"], 2, 0), true),
    ((TEN, &["me@x.org", "me@x.org"], 2, 0), false),
    ((TEN, &["me@x.org"], 32_768, 0), true),
    ((TEN, &["me@x.org"], 32_769, 0), false),
    ((TEN, &["me@x.org"], 2, 1_048_576 - 108), true),
    ((TEN, &["me@x.org"], 2, 1_048_577 - 108), false),
];

fn made(alloc: Global, made: Made) -> Result<Card, Fail> {
    let (date, to, length, subject) = made;
    let from_name = text(alloc, "Bob")?;
    let to = addrs(alloc, to)?;
    let text = letters(alloc, length)?;
    let subject = letters(alloc, subject)?;
    let mut card = plain(alloc, "bob@x.org", "m1@x.org")?;
    card.from_name = from_name;
    card.to = to;
    card.date = Some(date);
    card.chat = true;
    card.text = text;
    card.subject = subject;
    Ok(card)
}

/// Whether the card of a mail is valid, where it is the same as its copy.
fn is_valid_and_copied(alloc: Global, mail: Made) -> Result<bool, Fail> {
    let card = made(alloc, mail)?;
    is_same_and_valid(&card)
}

fn is_same_and_valid(card: &Card) -> Result<bool, Fail> {
    let copy = card.copy()?;
    if copy != *card {
        return Err(Fail::from("another copy"));
    }
    Ok(is_valid(card))
}

#[test]
fn cards_are_valid_up_to_their_bounds(rt: HostRuntime) -> Result<(), Fail> {
    let alloc = rt.alloc();
    for (row, &(mail, valid)) in BOUNDS.iter().enumerate() {
        assert_row(&rt, row, is_valid_and_copied(alloc, mail)?, valid);
    }
    let spot = spot(alloc, 1, "m1@x.org", 2)?;
    assert!(rt; spot.copy()? == spot);
    Ok(())
}
