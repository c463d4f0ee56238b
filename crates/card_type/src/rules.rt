//! The rules that a card keeps.
ghost use Rattle.std.specs.Prelude.{◌≡◌, nat_le};
ghost use Rattle.std.specs.List.{list_all};
ghost use Rattle.lists.specs.Distinct.{are_distinct};
ghost use Rattle.kit.specs.Moments.{last_moment};
ghost use Rattle.card_type.specs.Rules.{where_some, is_nonempty_update, is_short, fits_weight, keeps_bounds, is_valid};

use crate::card::{Card, Payload, Update};
use crate::record::weight;
use kit::{Addr, LAST_MOMENT, Text};

/// The most bytes that the record of a valid card has.
const MAX_WEIGHT: u64 = 1_048_576;
/// The most bytes that the text of a valid card has.
pub const MAX_TEXT_LEN: usize = 32_768;
/// The most bytes that the reaction of a valid card has.
pub const MAX_REACTION_LEN: usize = 255;

fn is_nonempty_update(update: &Update) -> bool
    ensures { result ≡ is_nonempty_update update.now }
{
    match &update.payload {
        Payload::Absent | Payload::Hidden => true,
        Payload::Json(text) => !text.bytes().is_empty(),
    }
}

fn are_distinct(addrs: &[Addr]) -> bool
    ensures { result ≡ are_distinct addrs.now }
{
    let mut left = addrs;
    while let Some((first, others)) = left.split_first() {
        if others.contains(first) {
            return false;
        }
        left = others;
    }
    true
}

fn are_nonempty_updates(updates: &[Update]) -> bool
    ensures { result ≡ list_all is_nonempty_update updates.now }
{
    updates.iter().all(is_nonempty_update)
}

fn is_moment(date: Option<u64>) -> bool
    ensures { result ≡ where_some (λ date. nat_le date last_moment) date }
{
    match date {
        Some(date) => date <= LAST_MOMENT,
        None => true,
    }
}

fn is_short(reaction: &Option<Text>) -> bool
    ensures { result ≡ where_some is_short reaction.now }
{
    match reaction {
        Some(text) => text.bytes().len() <= MAX_REACTION_LEN,
        None => true,
    }
}

/// Whether a card weighs no more than a valid one: 1,048,576 or less. Takes no memory, and time for a pass over
/// the lists.
///
/// By the clause `types` a card keeps its rules where it keeps those that the types of its values leave open.
pub fn fits_weight(card: &Card) -> bool
    ensures value { result ≡ fits_weight card.now }
    ensures types { is_valid card.now ≡ keeps_bounds card.now }
{
    weight(card) <= MAX_WEIGHT
}

/// Whether a card keeps its rules: ids, addresses and group ids read as such and texts are UTF-8, which no
/// value of `Card` breaks; the text has at most 32,768 bytes, and a reaction at most 255; the date is a moment, at most `LAST_MOMENT`;
/// no address is twice in `to` or in `cc`; no payload is an empty text; and the weight is at most
/// 1,048,576. Takes no memory, and in a card that is not too heavy time for a comparison of each two addresses
/// of a list.
pub fn is_valid(card: &Card) -> bool
    ensures { result ≡ is_valid card.now }
{
    // The weight bounds what the other rules have to look at.
    fits_weight(card)
        && is_moment(card.date)
        && card.text.bytes().len() <= MAX_TEXT_LEN
        && is_short(&card.reaction)
        && are_nonempty_updates(card.updates.as_slice())
        && are_distinct(card.to.as_slice())
        && are_distinct(card.cc.as_slice())
}
