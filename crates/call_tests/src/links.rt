//! What cards cite: which cards move where one comes, and which ones name an id.
ghost use Rattle.std.specs.Prelude.{◌≡◌, true, OnOk};

use crate::asserts::assert_same;
use crate::values::{id, spot};
use card_type::{ChatKey, Spot};
use kit::Id;
use lists::Items;
use std::alloc::Global;
use std::test::Fail;
use thread_links::{Cites, Links, Moved};

/// A card that comes: its date, its id, its two candidates, where "" is none, and the text of the chat that needs no parent, ""
/// where there is none. The thread that it would begin is that of its last candidate.
type Coming = (u64, &'static str, [&'static str; 2], &'static str);

/// A card that comes, and those that it moves: the id, the chat before and the chat after, `-` for none.
type Row = (Coming, &'static str);

/// Each of them waits for the next one.
const TEN_THAT_WAIT: [Row; 10] = [
    ((20, "a", ["b", ""], ""), "a - thread:b"),
    (
        (19, "b", ["c", ""], ""),
        "b - thread:c, a thread:b thread:c",
    ),
    (
        (18, "c", ["d", ""], ""),
        "c - thread:d, b thread:c thread:d, a thread:c thread:d",
    ),
    (
        (17, "d", ["e", ""], ""),
        "d - thread:e, c thread:d thread:e, b thread:d thread:e, a thread:d thread:e",
    ),
    (
        (16, "e", ["f", ""], ""),
        "e - thread:f, d thread:e thread:f, c thread:e thread:f, b thread:e thread:f, a thread:e thread:f",
    ),
    (
        (15, "f", ["g", ""], ""),
        "f - thread:g, e thread:f thread:g, d thread:f thread:g, c thread:f thread:g, b thread:f thread:g, \
         a thread:f thread:g",
    ),
    (
        (14, "g", ["h", ""], ""),
        "g - thread:h, f thread:g thread:h, e thread:g thread:h, d thread:g thread:h, c thread:g thread:h, \
         b thread:g thread:h, a thread:g thread:h",
    ),
    (
        (13, "h", ["i", ""], ""),
        "h - thread:i, g thread:h thread:i, f thread:h thread:i, e thread:h thread:i, d thread:h thread:i, \
         c thread:h thread:i, b thread:h thread:i, a thread:h thread:i",
    ),
    (
        (12, "i", ["j", ""], ""),
        "i - thread:j, h thread:i thread:j, g thread:i thread:j, f thread:i thread:j, e thread:i thread:j, \
         d thread:i thread:j, c thread:i thread:j, b thread:i thread:j, a thread:i thread:j",
    ),
    (
        (11, "j", ["", ""], "group:abcdefghijk"),
        "j - group:abcdefghijk, i thread:j group:abcdefghijk, h thread:j group:abcdefghijk, \
         g thread:j group:abcdefghijk, f thread:j group:abcdefghijk, e thread:j group:abcdefghijk, \
         d thread:j group:abcdefghijk, c thread:j group:abcdefghijk, b thread:j group:abcdefghijk, \
         a thread:j group:abcdefghijk",
    ),
];

/// Three cards that name `a`, once or twice, or do not.
const NAMING: [Coming; 3] = [
    (30, "c", ["a", "a"], ""),
    (20, "b", ["x", "a"], ""),
    (10, "x", ["b", ""], ""),
];

/// The ids that are not empty, in their order.
fn ids(alloc: Global, texts: [&str; 2]) -> Result<Items<Id>, Fail> {
    let mut ids = Items::new(alloc);
    for text in texts {
        if !text.is_empty() {
            ids.push(id(alloc, text)?)?;
        }
    }
    Ok(ids)
}

fn root_of(alloc: Global, candidates: &[Id], own_id: &str) -> Result<Id, Fail> {
    match candidates.last() {
        Some(last) => Ok(last.copy()?),
        None => id(alloc, own_id),
    }
}

fn cites(alloc: Global, coming: Coming) -> Result<Cites, Fail> {
    let (date, own_id, candidates, own) = coming;
    let candidates = ids(alloc, candidates)?;
    let root = root_of(alloc, candidates.as_slice(), own_id)?;
    Ok(Cites {
        spot: spot(alloc, date, own_id, 1)?,
        candidates,
        own: ChatKey::read(alloc, own.as_bytes())?,
        root,
    })
}

/// Adds a card that is not there.
fn add(links: &mut Links, cites: Cites) -> Result<Vec<Moved>, Fail>
    requires whole { links.old.whole ≡ true }
    ensures whole { OnOk result (links.new.whole ≡ true) }
{
    if links.chat_of(&cites.spot.id).is_some() {
        return Err(Fail::from("there already"));
    }
    Ok(links.add(cites)?)
}

/// The text of a chat, and `-` of none.
fn push_chat(alloc: Global, text: &mut String, chat: &Option<ChatKey>) -> Result<(), Fail> {
    match chat {
        Some(chat) => text.push_str(chat.text(alloc)?.as_str())?,
        None => text.push_str("-")?,
    }
    Ok(())
}

/// The moves as a text.
fn told(alloc: Global, moved: &[Moved]) -> Result<String, Fail> {
    let mut text = String::new(alloc);
    for one in moved {
        if !text.is_empty() {
            text.push_str(", ")?;
        }
        text.push_str(str::from_utf8(one.id.bytes())?)?;
        text.push_str(" ")?;
        push_chat(alloc, &mut text, &one.before)?;
        text.push_str(" ")?;
        push_chat(alloc, &mut text, &one.after)?;
    }
    Ok(text)
}

/// What a card moves that comes, as a text.
fn moved_by(alloc: Global, links: &mut Links, coming: Coming) -> Result<String, Fail>
    requires whole { links.old.whole ≡ true }
    ensures whole { OnOk result (links.new.whole ≡ true) }
{
    let moved = add(links, cites(alloc, coming)?)?;
    told(alloc, moved.as_slice())
}

/// The first row that does not say what its card moves, if there is one.
fn wrong_row(alloc: Global, links: &mut Links, rows: &[Row]) -> Result<Option<usize>, Fail>
    requires whole { links.old.whole ≡ true }
{
    for (row, &(coming, expected)) in rows.iter().enumerate() {
        let moved = moved_by(alloc, links, coming)?;
        if moved.as_str() != expected {
            return Ok(Some(row));
        }
    }
    Ok(None)
}

/// The id of the card with a number.
fn numbered(alloc: Global, number: u64) -> Result<Id, Fail> {
    let text = format!(in alloc; "{number}@x.org")?;
    id(alloc, text.as_str())
}

/// The reply to the card with the number before.
fn reply(alloc: Global, number: u64) -> Result<Cites, Fail> {
    let root = numbered(alloc, number.saturating_sub(1))?;
    let mut candidates = Items::new(alloc);
    candidates.push(root.copy()?)?;
    Ok(Cites {
        spot: Spot {
            date: number,
            id: numbered(alloc, number)?,
            uid: 1,
        },
        candidates,
        own: None,
        root,
    })
}

/// How many cards the last of so many replies moves, where the last one comes first.
fn moved_by_last(alloc: Global, links: &mut Links, count: u64) -> Result<usize, Fail>
    requires whole { links.old.whole ≡ true }
{
    let mut moved = 0;
    for before in 0..count {
        moved = add(links, reply(alloc, count.saturating_sub(before))?)?.len();
    }
    Ok(moved)
}

/// The ids of the cards that name an id, in mail order.
fn naming(alloc: Global, links: &mut Links, sought: &str) -> Result<String, Fail>
    requires whole { links.old.whole ≡ true }
{
    for &coming in &NAMING {
        add(links, cites(alloc, coming)?)?;
    }
    let mut text = String::new(alloc);
    for spot in links.cited_by(&id(alloc, sought)?) {
        text.push_str(str::from_utf8(spot.id.bytes())?)?;
    }
    Ok(text)
}

fn wrong_of_ten(alloc: Global) -> Result<Option<usize>, Fail> {
    let mut links = Links::new(alloc);
    wrong_row(alloc, &mut links, &TEN_THAT_WAIT)
}

#[test]
fn cards_that_come_move_those_that_name_them(rt: HostRuntime) -> Result<(), Fail> {
    let alloc = rt.alloc();
    assert_same(&rt, wrong_of_ten(alloc)?, None);
    assert_same(
        &rt,
        moved_by_last(alloc, &mut Links::new(alloc), 2_000)?,
        2_000,
    );
    let naming = naming(alloc, &mut Links::new(alloc), "a")?;
    assert_same(&rt, naming.as_str(), "bc");
    Ok(())
}
