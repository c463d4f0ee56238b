//! The record of a card, read.
ghost use Rattle.std.specs.Prelude.{◌≡◌, ◌++◌, IfOk, IsTrue};
ghost use Rattle.card_type.specs.Records.{record_of};
ghost use Rattle.card_type.specs.Rules.{is_valid};
ghost use Rattle.card_record.specs.Reading.{Moves};
ghost use Rattle.card_record.specs.Cards.{envelope_at, requests_at, app_at, reaction_at, said_at, shown_at, later_at, fields_at, record_at, joined};

use crate::fault::ReadFault;
use crate::field::{Field, read_flag, read_opt, read_opt_moment, read_text_within};
use crate::rest::Rest;
use crate::values::{read_addrs, read_list};
use card_type::{Attachment, Card, GroupId, MAX_REACTION_LEN, MAX_TEXT_LEN, Update, fits_weight};
use kit::{Addr, Id, Text};
use lists::Items;
use std::alloc::Global;

// A card is read in three parts, so that no function has more than nine values to drop where a later one fails.

/// Who wrote to whom, in answer to what.
#[derive(Drop)]
struct Envelope {
    id: Id,
    from: Addr,
    from_name: Text,
    to: Items<Addr>,
    cc: Items<Addr>,
    date: Option<u64>,
    replies: Items<Id>,
    references: Items<Id>,
}

/// What a chat mail requests.
#[derive(Drop)]
struct Requests {
    chat: bool,
    group: Option<GroupId>,
    group_name: Text,
    added: Option<Addr>,
    removed: Option<Addr>,
    renamed: bool,
    edit: Option<Id>,
    deletes: Items<Id>,
    timer: u32,
}

/// What is said to an app, and the reaction.
#[derive(Drop)]
struct Said {
    app: bool,
    updates: Items<Update>,
    reaction: Option<Text>,
}

/// What is shown, and what is said to other programs.
#[derive(Drop)]
struct Shown {
    subject: Text,
    text: Text,
    cut: bool,
    attachments: Items<Attachment>,
    receipt: Option<Id>,
    said: Said,
}

#[tactic(auto, unfolding(crate::specs::Cards::envelope_at))]
fn read_envelope(alloc: Global, rest: &mut Rest<'_>) -> Result<Envelope, ReadFault>
    ensures { Moves (λ x. x) result (envelope_at rest.old) rest.new }
{
    let id = <Id as Field>::read(alloc, rest)?;
    let from = <Addr as Field>::read(alloc, rest)?;
    let from_name = <Text as Field>::read(alloc, rest)?;
    let to = read_addrs(alloc, rest)?;
    let cc = read_addrs(alloc, rest)?;
    let date = read_opt_moment(rest)?;
    let replies = read_list::<Id>(alloc, rest)?;
    let references = read_list::<Id>(alloc, rest)?;
    Ok(Envelope {
        id,
        from,
        from_name,
        to,
        cc,
        date,
        replies,
        references,
    })
}

#[tactic(auto, unfolding(crate::specs::Cards::requests_at))]
fn read_requests(alloc: Global, rest: &mut Rest<'_>) -> Result<Requests, ReadFault>
    ensures { Moves (λ x. x) result (requests_at rest.old) rest.new }
{
    let chat = read_flag(rest)?;
    let group = read_opt::<GroupId>(alloc, rest)?;
    let group_name = <Text as Field>::read(alloc, rest)?;
    let added = read_opt::<Addr>(alloc, rest)?;
    let removed = read_opt::<Addr>(alloc, rest)?;
    let renamed = read_flag(rest)?;
    let edit = read_opt::<Id>(alloc, rest)?;
    let deletes = read_list::<Id>(alloc, rest)?;
    let timer = rest.b32()?;
    Ok(Requests {
        chat,
        group,
        group_name,
        added,
        removed,
        renamed,
        edit,
        deletes,
        timer,
    })
}

/// Takes a code of one byte: whether there is an app, and whether a reaction stands at the end.
#[tactic(auto, unfolding(crate::specs::Cards::app_at))]
fn read_app(rest: &mut Rest<'_>) -> Result<(bool, bool), ReadFault>
    ensures { Moves (λ x. x) result (app_at rest.old) rest.new }
{
    let left = rest.len();
    match rest.b8()? {
        0 => Ok((false, false)),
        1 => Ok((true, false)),
        2 => Ok((false, true)),
        3 => Ok((true, true)),
        _ => Err(ReadFault::Malformed(left)),
    }
}

/// Takes a reaction where one stands, and else nothing.
fn read_reaction(
    alloc: Global,
    stands: bool,
    rest: &mut Rest<'_>,
) -> Result<Option<Text>, ReadFault>
    ensures { Moves (λ x. x) result (reaction_at stands rest.old) rest.new }
{
    if !stands {
        return Ok(None);
    }
    Ok(Some(read_text_within(alloc, 0, MAX_REACTION_LEN, rest)?))
}

#[tactic(auto, unfolding(crate::specs::Cards::said_at))]
fn read_said(alloc: Global, rest: &mut Rest<'_>) -> Result<Said, ReadFault>
    ensures { Moves (λ x. x) result (said_at rest.old) rest.new }
{
    let (app, stands) = read_app(rest)?;
    let updates = read_list::<Update>(alloc, rest)?;
    let reaction = read_reaction(alloc, stands, rest)?;
    Ok(Said {
        app,
        updates,
        reaction,
    })
}

#[tactic(auto, unfolding(crate::specs::Cards::shown_at))]
fn read_shown(alloc: Global, rest: &mut Rest<'_>) -> Result<Shown, ReadFault>
    ensures { Moves (λ x. x) result (shown_at rest.old) rest.new }
{
    let subject = <Text as Field>::read(alloc, rest)?;
    let text = read_text_within(alloc, 0, MAX_TEXT_LEN, rest)?;
    let cut = read_flag(rest)?;
    let attachments = read_list::<Attachment>(alloc, rest)?;
    let receipt = read_opt::<Id>(alloc, rest)?;
    let said = read_said(alloc, rest)?;
    Ok(Shown {
        subject,
        text,
        cut,
        attachments,
        receipt,
        said,
    })
}

/// The card of the three parts.
fn joined(envelope: Envelope, requests: Requests, shown: Shown) -> Card
    ensures { result ≡ joined envelope requests shown }
{
    let said = shown.said;
    Card {
        id: envelope.id,
        from: envelope.from,
        from_name: envelope.from_name,
        to: envelope.to,
        cc: envelope.cc,
        date: envelope.date,
        replies: envelope.replies,
        references: envelope.references,
        chat: requests.chat,
        group: requests.group,
        group_name: requests.group_name,
        added: requests.added,
        removed: requests.removed,
        renamed: requests.renamed,
        edit: requests.edit,
        deletes: requests.deletes,
        timer: requests.timer,
        subject: shown.subject,
        text: shown.text,
        cut: shown.cut,
        attachments: shown.attachments,
        receipt: shown.receipt,
        app: said.app,
        updates: said.updates,
        reaction: said.reaction,
    }
}

/// Takes the two later parts: with all three in one function, two would be dropped where the last one fails.
#[tactic(auto, unfolding(crate::specs::Cards::later_at))]
fn read_later(alloc: Global, rest: &mut Rest<'_>) -> Result<(Requests, Shown), ReadFault>
    ensures { Moves (λ x. x) result (later_at rest.old) rest.new }
{
    let requests = read_requests(alloc, rest)?;
    let shown = read_shown(alloc, rest)?;
    Ok((requests, shown))
}

/// Takes the fields of a card of any weight.
#[tactic(auto, unfolding(crate::specs::Cards::fields_at))]
fn read_fields(alloc: Global, rest: &mut Rest<'_>) -> Result<Card, ReadFault>
    ensures { Moves (λ x. x) result (fields_at rest.old) rest.new }
{
    let envelope = read_envelope(alloc, rest)?;
    let (requests, shown) = read_later(alloc, rest)?;
    Ok(joined(envelope, requests, shown))
}

/// Takes the record of a card. Takes memory. `Malformed` where a field is short or breaks its rule, with the number of
/// bytes that were left where the first such field begins; where all fields are well-formed but the card weighs more
/// than a valid one, it is malformed at its own beginning.
#[tactic(auto, unfolding(crate::specs::Cards::record_at))]
pub fn read_record(alloc: Global, rest: &mut Rest<'_>) -> Result<Card, ReadFault>
    ensures card { Moves (λ x. x) result (record_at rest.old) rest.new }
    ensures spelled { IfOk result (λ card. rest.old ≡ record_of card ++ rest.new) }
    ensures valid { IfOk result (λ card. IsTrue (is_valid card)) }
{
    let left = rest.len();
    let card = read_fields(alloc, rest)?;
    if !fits_weight(&card) {
        return Err(ReadFault::Malformed(left));
    }
    Ok(card)
}
