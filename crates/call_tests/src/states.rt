//! What is kept of a chat, where its cards come, go and are marked anew in any order.
use crate::rosters::{G1, Said, card};
use crate::values::{addr, key, spot};
use card_type::{Card, ChatKey, Spot};
use chat_view::{ChatState, Mark};
use group_roster::{Listing, Roster, Setters};
use kit::Addr;
use lists::Items;
use std::alloc::Global;
use std::process::Abort;
use std::test::Fail;

/// A card of a chat: what its mail says, whether it is taken in where all others are there, and whether it is let go.
type Step<'a> = (Said<'a>, bool, bool);

/// The mail G2, in which Ann adds Cid.
const G2: Said<'static> = Said {
    to: &["me@x.org", "bob@x.org", "cid@x.org"],
    added: Some("cid@x.org"),
    ..G1
};

/// The mail G3, in which Ann removes Bob.
const G3: Said<'static> = Said {
    to: &["me@x.org", "bob@x.org", "cid@x.org"],
    removed: Some("bob@x.org"),
    ..G1
};

/// A mail of Bob to the group, which says nothing more.
const BY_BOB: Said<'static> = Said {
    from: "bob@x.org",
    to: &["me@x.org", "ann@x.org"],
    ..G1
};

/// A mail of Cid to the group, who is a member after G2.
const BY_CID: Said<'static> = Said {
    from: "cid@x.org",
    ..G1
};

/// A mail that no chat program wrote.
const BY_HAND: Said<'static> = Said { chat: false, ..G1 };

/// The cards of a group, in mail order.
const GROUP: [Step<'static>; 12] = [
    // The first one says all.
    (G1, false, false),
    (
        Said {
            timer: 60,
            ..BY_BOB
        },
        true,
        true,
    ),
    // Who is a member then, the next ones follow.
    (G2, false, false),
    // The same members in another order.
    (
        Said {
            to: &["cid@x.org", "me@x.org", "bob@x.org"],
            ..G2
        },
        true,
        true,
    ),
    (
        Said {
            name: "Trip 2",
            renamed: true,
            ..BY_CID
        },
        true,
        true,
    ),
    // Of a stranger, who sets nothing.
    (
        Said {
            from: "eve@x.org",
            added: Some("eve@x.org"),
            ..G1
        },
        true,
        true,
    ),
    (G3, false, false),
    // The last name that a member gives.
    (
        Said {
            name: "Trip 3",
            renamed: true,
            ..BY_CID
        },
        false,
        false,
    ),
    // Of Bob, who is no member any more.
    (
        Said {
            name: "Trip 4",
            renamed: true,
            timer: 30,
            ..BY_BOB
        },
        true,
        true,
    ),
    // The last timer.
    (Said { timer: 90, ..G1 }, false, false),
    (BY_HAND, true, true),
    (
        Said {
            from: "dan@x.org",
            added: Some("dan@x.org"),
            ..BY_HAND
        },
        true,
        true,
    ),
];

/// The cards of a chat with one other or with oneself, in mail order.
const DIRECT: [Step<'static>; 8] = [
    (Said { timer: 5, ..G1 }, true, true),
    (BY_HAND, true, true),
    (Said { timer: 7, ..G1 }, true, true),
    (BY_HAND, true, true),
    // The last timer.
    (Said { timer: 9, ..G1 }, false, false),
    (BY_HAND, true, true),
    (BY_HAND, true, true),
    (BY_HAND, true, true),
];

/// The cards of a thread, in mail order.
const THREAD: [Step<'static>; 10] = [
    // The first one gives the name.
    (
        Said {
            from: "ann@x.org",
            to: &["me@x.org", "bob@x.org"],
            ..BY_HAND
        },
        false,
        false,
    ),
    (
        Said {
            from: "bob@x.org",
            to: &["me@x.org", "ann@x.org"],
            ..BY_HAND
        },
        true,
        true,
    ),
    // Cid joins.
    (
        Said {
            from: "ann@x.org",
            to: &["me@x.org", "cid@x.org"],
            ..BY_HAND
        },
        false,
        false,
    ),
    (
        Said {
            from: "cid@x.org",
            to: &["me@x.org", "ann@x.org"],
            ..BY_HAND
        },
        true,
        true,
    ),
    // Dan joins.
    (
        Said {
            cc: &["dan@x.org"],
            from: "bob@x.org",
            to: &["cid@x.org"],
            ..BY_HAND
        },
        false,
        false,
    ),
    (
        Said {
            chat: true,
            timer: 20,
            from: "dan@x.org",
            to: &["bob@x.org"],
            ..BY_HAND
        },
        true,
        true,
    ),
    (
        Said {
            from: "me@x.org",
            to: &["ann@x.org"],
            ..BY_HAND
        },
        true,
        true,
    ),
    // Eve joins, with the last timer.
    (
        Said {
            chat: true,
            timer: 30,
            from: "eve@x.org",
            to: &["ann@x.org"],
            ..BY_HAND
        },
        false,
        false,
    ),
    (
        Said {
            from: "ann@x.org",
            to: &["eve@x.org"],
            ..BY_HAND
        },
        true,
        true,
    ),
    (
        Said {
            from: "bob@x.org",
            to: &["eve@x.org"],
            ..BY_HAND
        },
        true,
        true,
    ),
];

/// The keys of chats with the cards of each.
const CHATS: [(&str, &[Step<'static>]); 4] = [
    ("self", &DIRECT),
    ("single:bob@x.org", &DIRECT),
    ("group:abcdefghijk", &GROUP),
    ("thread:r@x.org", &THREAD),
];

/// How the rows of a chat are marked, over and over.
const MARKS: [Option<Mark>; 5] = [
    Some(Mark::New),
    None,
    Some(Mark::Out),
    Some(Mark::New),
    Some(Mark::Seen),
];

/// A card at its spot, with the mark of its row.
#[derive(Drop)]
struct Placed {
    spot: Spot,
    card: Card,
    mark: Option<Mark>,
}

/// A chat with all its cards, in mail order, and the own address.
#[derive(Drop)]
struct Chat {
    key: ChatKey,
    cards: Items<Placed>,
    me: Addr,
}

/// The card of a mail as that of a chat with this number, where `marks` tells with which mark the first one begins.
fn place(alloc: Global, said: &Said, number: u32, marks: u8) -> Result<Placed, Fail> {
    let card = card(alloc, said)?;
    let spot = spot(alloc, u64::from(number), "m@x.org", number)?;
    let mark = MARKS[(number as usize + usize::from(marks)) % MARKS.len()];
    Ok(Placed { spot, card, mark })
}

fn all_placed(alloc: Global, steps: &[Step], marks: u8) -> Result<Items<Placed>, Fail> {
    let mut all = Items::new(alloc);
    let mut number: u32 = 0;
    for (said, _, _) in steps {
        all.push(place(alloc, said, number, marks)?)?;
        number = number.wrapping_add(1);
    }
    Ok(all)
}

fn chat_of(alloc: Global, text: &str, steps: &[Step], marks: u8) -> Result<Chat, Fail> {
    let key = key(alloc, text)?;
    let me = addr(alloc, "me@x.org")?;
    let cards = all_placed(alloc, steps, marks)?;
    Ok(Chat { key, cards, me })
}

/// Adds all the cards to a state but the one at an index, in mail order.
fn add_all(
    alloc: Global,
    state: &mut ChatState,
    chat: &Chat,
    but: Option<usize>,
) -> Result<(), Fail> {
    for (index, card) in chat.cards.as_slice().iter().enumerate() {
        if Some(index) != but {
            state.add(alloc, &card.spot, &card.card, card.mark, &chat.me)?;
        }
    }
    Ok(())
}

/// The state of the chat with all the cards but the one at an index.
fn folded(alloc: Global, chat: &Chat, but: Option<usize>) -> Result<ChatState, Fail> {
    let mut state = ChatState::begin(alloc, chat.key.copy()?, &chat.me)?;
    add_all(alloc, &mut state, chat, but)?;
    Ok(state)
}

fn same_roster(one: &Roster, other: &Roster) -> bool {
    one.begun == other.begun
        && one.members == other.members
        && one.name == other.name
        && one.timer == other.timer
}

fn same_listings(one: &[Listing], other: &[Listing]) -> bool {
    one.len() == other.len()
        && one.iter().zip(other).all(|(one, other)| one.spot == other.spot
            && one.members == other.members)
}

fn same_setters(one: &Setters, other: &Setters) -> bool {
    one.first == other.first
        && same_listings(one.listings.as_slice(), other.listings.as_slice())
        && one.named == other.named
        && one.timed == other.timed
        && one.joined == other.joined
}

// The states here have so few cards that one chunk holds them.
fn same(one: &ChatState, other: &ChatState) -> bool {
    one.spots.chunks() == other.spots.chunks()
        && one.marks.chunks() == other.marks.chunks()
        && same_roster(&one.roster, &other.roster)
        && same_setters(&one.setters, &other.setters)
        && one.last == other.last
        && one.fresh == other.fresh
}

/// Whether a state is that of all the cards of a chat but the one at an index.
fn is_folded(
    alloc: Global,
    state: &ChatState,
    chat: &Chat,
    but: Option<usize>,
) -> Result<bool, Fail> {
    let expected = folded(alloc, chat, but)?;
    Ok(same(state, &expected))
}

/// Whether a card is taken into the state of the others, which is then that of all, and else stays as it is.
fn is_taken_in(
    alloc: Global,
    state: &mut ChatState,
    chat: &Chat,
    index: usize,
    card: &Placed,
) -> Result<bool, Fail> {
    let came = state.put_in(alloc, &card.spot, &card.card, card.mark, &chat.me)?;
    let but = if came { None } else { Some(index) };
    if is_folded(alloc, state, chat, but)? {
        Ok(came)
    } else {
        Err(Fail::from("another state"))
    }
}

/// Whether a card is let go by the state of all, which is then that of the others, and else stays as it is.
fn is_let_go(
    alloc: Global,
    state: &mut ChatState,
    chat: &Chat,
    index: usize,
    card: &Placed,
) -> Result<bool, Fail> {
    let went = state.take_out(&card.spot)?;
    let but = if went { Some(index) } else { None };
    if is_folded(alloc, state, chat, but)? {
        Ok(went)
    } else {
        Err(Fail::from("another state"))
    }
}

fn comes(alloc: Global, chat: &Chat, index: usize, card: &Placed) -> Result<bool, Fail> {
    let mut state = folded(alloc, chat, Some(index))?;
    is_taken_in(alloc, &mut state, chat, index, card)
}

fn goes(alloc: Global, chat: &Chat, index: usize, card: &Placed) -> Result<bool, Fail> {
    let mut state = folded(alloc, chat, None)?;
    is_let_go(alloc, &mut state, chat, index, card)
}

/// Whether the card at an index comes, and whether it goes.
fn moves(alloc: Global, chat: &Chat, index: usize) -> Result<(bool, bool), Fail> {
    let card = chat.cards.as_slice().get(index).ok_or("no card")?;
    let came = comes(alloc, chat, index, card)?;
    Ok((came, goes(alloc, chat, index, card)?))
}

/// Each of the cards comes and goes as its step says.
fn each_moves<R: Abort>(rt: &R, alloc: Global, chat: &Chat, steps: &[Step]) -> Result<(), Fail> {
    for (index, &(_, comes, goes)) in steps.iter().enumerate() {
        let moved = moves(alloc, chat, index)?;
        assert!(rt; moved == (comes, goes), "card {index}");
    }
    Ok(())
}

/// Marks the cards of a state as those of a chat.
fn remark(state: &mut ChatState, chat: &Chat) -> Result<(), Fail> {
    for card in chat.cards.as_slice() {
        state.remark(&card.spot, card.mark)?;
    }
    Ok(())
}

/// Whether a state is that of a chat, once its cards are marked so.
fn is_remarked(alloc: Global, state: &mut ChatState, chat: &Chat) -> Result<bool, Fail> {
    remark(state, chat)?;
    is_folded(alloc, state, chat, None)
}

/// Whether the state of a chat whose cards are marked as those of another one is the state of that one.
fn marks_change(alloc: Global, chat: &Chat, other: &Chat) -> Result<bool, Fail> {
    let mut state = folded(alloc, chat, None)?;
    is_remarked(alloc, &mut state, other)
}

/// The cards of a chat are marked anew, from any of the marks on.
fn each_is_remarked<R: Abort>(
    rt: &R,
    alloc: Global,
    chat: &Chat,
    text: &str,
    steps: &[Step],
) -> Result<(), Fail> {
    for marks in 0..5 {
        let other = chat_of(alloc, text, steps, marks)?;
        assert!(rt; marks_change(alloc, chat, &other)?, "marks {marks}");
    }
    Ok(())
}

fn follows<R: Abort>(rt: &R, alloc: Global, text: &str, steps: &[Step]) -> Result<(), Fail> {
    let chat = chat_of(alloc, text, steps, 0)?;
    each_moves(rt, alloc, &chat, steps)?;
    each_is_remarked(rt, alloc, &chat, text, steps)
}

#[test]
fn states_follow_their_cards(rt: HostRuntime) -> Result<(), Fail> {
    for &(text, steps) in &CHATS {
        follows(&rt, rt.alloc(), text, steps)?;
    }
    Ok(())
}
