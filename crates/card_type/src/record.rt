//! How many bytes the record of a card has, without writing it.
ghost use Rattle.std.specs.Prelude.{◌≡◌, ◌<◌, ◌≤◌, ◌^◌, ℕ, Bool, List, true, is_some, length, nat_lt};
ghost use Rattle.std.specs.List.{concat, list_all, sum};
ghost use Rattle.std.specs.Str.{is_utf8};
ghost use Rattle.kit.specs.Addresses.{is_addr};
ghost use Rattle.kit.specs.Ids.{is_id};
ghost use Rattle.card_type.specs.Groups.{is_group};
ghost use Rattle.card_type.specs.Records as records;
ghost use Rattle.card_type.specs.Records.{capped};
ghost use Rattle.card_type.specs.Rules.{is_attachment, is_envelope, is_requests, is_shown, is_utf8_payload, is_utf8_update, is_valid, keeps_bounds, where_some};

use crate::card::{Attachment, Card, Payload, Update};
use crate::group_id::GroupId;
use kit::{Addr, Id, Text};
use lists::Items;

// Sums end at `u64::MAX` rather than overflow. No card that fits in memory comes near it, but no clause of std
// says how much memory several vectors can have together.

/// A flag, and what says whether a value is present or which of several it is.
const B8: u64 = 1;
/// How many bytes or values follow.
const B32: u64 = 4;

/// A type whose values are recorded in a card: their spelling, and the rule that each of them keeps.
trait Recorded {
    ghost spelled: { Self → List ℕ };

    ghost rule: { Self → Bool };

    /// The number of bytes of its spelling.
    fn weight(&self) -> u64
        ensures value { result ≡ capped (length (spelled self.now)) }
        ensures rule { rule self.now ≡ true };
}

fn block_weight(bytes: &[u8]) -> u64
    ensures { result ≡ capped (length (records.block bytes.now)) }
{
    B32.saturating_add(bytes.len() as u64)
}

impl Recorded for Text {
    ghost spelled = { records.block };

    ghost rule = { is_utf8 };

    fn weight(&self) -> u64 {
        block_weight(self.bytes())
    }
}

impl Recorded for Id {
    ghost spelled = { records.block };

    ghost rule = { is_id };

    fn weight(&self) -> u64 {
        block_weight(self.bytes())
    }
}

impl Recorded for Addr {
    ghost spelled = { records.block };

    ghost rule = { is_addr };

    fn weight(&self) -> u64 {
        block_weight(self.bytes())
    }
}

impl Recorded for GroupId {
    ghost spelled = { records.block };

    ghost rule = { is_group };

    fn weight(&self) -> u64 {
        block_weight(self.bytes())
    }
}

impl Recorded for bool {
    ghost spelled = { records.flag };

    ghost rule = { λ _. true };

    fn weight(&self) -> u64 {
        B8
    }
}

impl Recorded for u32 {
    ghost spelled = { records.b32 };

    ghost rule = { λ n. nat_lt n (2 ^ 32) };

    fn weight(&self) -> u64 {
        self.to_be_bytes().len() as u64
    }
}

impl Recorded for u64 {
    ghost spelled = { records.b64 };

    ghost rule = { λ n. nat_lt n (2 ^ 64) };

    fn weight(&self) -> u64 {
        self.to_be_bytes().len() as u64
    }
}

impl<T: Recorded> Recorded for Option<T> {
    ghost spelled = { records.opt T.spelled };

    ghost rule = { where_some T.rule };

    fn weight(&self) -> u64 {
        match self {
            Some(value) => B8.saturating_add(value.weight()),
            None => B8,
        }
    }
}

impl<T: Recorded> Recorded for Items<T> {
    ghost spelled = { records.list T.spelled };

    ghost rule = { list_all T.rule };

    fn weight(&self) -> u64 {
        let mut total = B32;
        for value in self.as_slice() {
            total = total.saturating_add(value.weight());
        }
        total
    }
}

impl Recorded for Attachment {
    ghost spelled = { records.attachment };

    ghost rule = { is_attachment };

    fn weight(&self) -> u64 {
        self.kind
            .weight()
            .saturating_add(self.name.weight())
            .saturating_add(self.size.weight())
    }
}

impl Recorded for Payload {
    ghost spelled = { records.payload };

    ghost rule = { is_utf8_payload };

    fn weight(&self) -> u64 {
        match self {
            Payload::Absent | Payload::Hidden => B8,
            Payload::Json(text) => B8.saturating_add(text.weight()),
        }
    }
}

impl Recorded for Update {
    ghost spelled = { records.update };

    ghost rule = { is_utf8_update };

    fn weight(&self) -> u64 {
        self.payload
            .weight()
            .saturating_add(self.info.weight())
            .saturating_add(self.document.weight())
            .saturating_add(self.summary.weight())
    }
}

/// A code of one byte, which says whether there is an app and whether a reaction stands at the end.
fn code_weight(card: &Card) -> u64
    ensures { result ≡ capped (length (records.b8 (records.app_code card.now.app (is_some card.now.reaction)))) }
{
    card.app.weight()
}

/// Nothing where there is no reaction.
fn reaction_weight(reaction: &Option<Text>) -> u64
    ensures value { result ≡ capped (length (records.reaction reaction.now)) }
    ensures rule { where_some is_utf8 reaction.now ≡ true }
{
    match reaction {
        Some(text) => text.weight(),
        None => 0,
    }
}

fn total(weights: &[u64]) -> u64
    ensures { result ≡ capped (sum weights.now) }
{
    let mut total: u64 = 0;
    for weight in weights {
        total = total.saturating_add(*weight);
    }
    total
}

#[tactic(auto, using(crate::proofs::Weights::capped_sum))]
fn envelope_weight(card: &Card) -> u64
    ensures value { result ≡ capped (length (concat (records.envelope card.now))) }
    ensures types { is_envelope card.now ≡ true }
{
    total(&[
        card.id.weight(),
        card.from.weight(),
        card.from_name.weight(),
        card.to.weight(),
        card.cc.weight(),
        card.date.weight(),
        card.replies.weight(),
        card.references.weight(),
    ])
}

#[tactic(auto, using(crate::proofs::Weights::capped_sum))]
fn requests_weight(card: &Card) -> u64
    ensures value { result ≡ capped (length (concat (records.requests card.now))) }
    ensures types { is_requests card.now ≡ true }
{
    total(&[
        card.chat.weight(),
        card.group.weight(),
        card.group_name.weight(),
        card.added.weight(),
        card.removed.weight(),
        card.renamed.weight(),
        card.edit.weight(),
        card.deletes.weight(),
        card.timer.weight(),
    ])
}

#[tactic(auto, using(crate::proofs::Weights::capped_sum))]
fn shown_weight(card: &Card) -> u64
    ensures value { result ≡ capped (length (concat (records.shown card.now))) }
    ensures types { is_shown card.now ≡ true }
{
    total(&[
        card.subject.weight(),
        card.text.weight(),
        card.cut.weight(),
        card.attachments.weight(),
        card.receipt.weight(),
        code_weight(card),
        card.updates.weight(),
        reaction_weight(&card.reaction),
    ])
}

/// The weight of a card: the number of bytes of its record. Where that is no 64-bit number, which no card that
/// fits in memory has, it is the greatest such number. Takes no memory, and time for a pass over the lists.
///
/// By the clause `types` a card keeps its rules where it keeps those that the types of its values leave open.
#[tactic(auto, using(crate::proofs::Weights::capped_parts))]
pub fn weight(card: &Card) -> u64
    ensures value { result ≡ capped (records.weight card.now) }
    ensures exact { records.weight card.now < 2 ^ 64 → result ≡ records.weight card.now }
    ensures types { is_valid card.now ≡ keeps_bounds card.now }
{
    envelope_weight(card)
        .saturating_add(requests_weight(card))
        .saturating_add(shown_weight(card))
}
