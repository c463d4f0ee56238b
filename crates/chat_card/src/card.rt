//! The card of a mail.
ghost use Rattle.std.specs.Prelude.{◌≡◌, ◌⊎◌, IfErr, IfOk, IsTrue, Ok, Err};
ghost use Rattle.card_type.specs.Rules.{fits_weight, is_valid, keeps_bounds};
ghost use Rattle.chat_card.specs.Cards.{accepted, card_by, card_from, card_of};
ghost use Rattle.chat_card.specs.declared.fault.CardFault.TheVariants as fault;

use crate::contents::{Contents, read_contents};
use crate::envelope::{Envelope, read_envelope, sender};
use crate::fault::CardFault;
use crate::requests::{Requests, read_requests};
use crate::text::{CardText, card_text};
use card_type::{Card, fits_weight};
use kit::Memory;
use mail_address::Person;
use mail_headers::{Header, read_header};
use std::alloc::Global;

/// The card of a sender, of the fields, of what a chat program requests in them, and of the contents.
fn card_by(
    from: Person,
    fields: Envelope,
    requests: Requests,
    contents: Contents,
    text: CardText,
) -> Card
    ensures { result ≡ card_by from fields requests contents text }
{
    Card {
        id: fields.id,
        from: from.addr,
        from_name: from.name,
        to: fields.to,
        cc: fields.cc,
        date: fields.date,
        replies: fields.replies,
        references: fields.references,
        chat: requests.chat,
        group: requests.group,
        group_name: requests.group_name,
        added: requests.added,
        removed: requests.removed,
        renamed: requests.renamed,
        edit: requests.edit,
        deletes: requests.deletes,
        timer: requests.timer,
        subject: fields.subject,
        text: text.text,
        cut: text.cut,
        attachments: contents.attachments,
        receipt: contents.receipt,
        app: contents.app,
        updates: contents.updates,
        reaction: contents.reaction,
    }
}

/// The card of a mail of this header and the body after it, which a person sent.
fn card_from(
    alloc: Global,
    uid: u32,
    header: &Header,
    from: Person,
    body: &[u8],
) -> Result<Card, Memory>
    ensures card { IfOk result (λ card. card ≡ card_from uid header.now from body.now) }
    // It keeps the bounds of a card, but that it may be too heavy.
    ensures bounds { IfOk result (λ card. keeps_bounds card ≡ fits_weight card) }
{
    let fields = read_envelope(alloc, uid, header)?;
    let requests = read_requests(alloc, header)?;
    let contents = read_contents(
        alloc,
        header,
        body,
        !fields.replies.is_empty(),
        &requests.edit,
    )?;
    let text = card_text(alloc, &requests.edit, &contents.text)?;
    Ok(card_by(from, fields, requests, contents, text))
}

/// A card, unless it is too heavy.
fn accepted(card: Card) -> Result<Card, CardFault>
    ensures answer { result ≡ accepted card }
    ensures valid { keeps_bounds card ≡ fits_weight card → IfOk result (λ card. IsTrue (is_valid card)) }
{
    if fits_weight(&card) {
        Ok(card)
    } else {
        Err(CardFault::CardTooLong)
    }
}

/// The card of a mail: what is kept of it. Any bytes of any length are a mail. Takes memory, for long lines a few times
/// the bytes of the mail.
///
/// Of several fields of one name the first counts. `id` is the first id of Message-ID, or else `uid`, the uid in
/// decimal and `@none`; `from` and `from_name` are the first person of From, and `to` and `cc` the addresses of To and
/// Cc, each once; `date`, `replies`, `references` and `subject` are what the readers of Date, In-Reply-To, References
/// and Subject give (RFC 5322, section 3.6). `chat` is true where Chat-Version is present, and only then the other
/// fields of a chat are read. The text is the one that the parts show, without white space at its end and, in an edit,
/// one U+270F U+FE0F at its beginning, cut at the end of a character to 32,768 bytes at most.
///
/// A mail that answers another and has no other text is a reaction where one of its parts is text/plain, has the
/// disposition `reaction` and no file name (RFC 9078): `reaction` is the words of the first of them with one space between
/// each two, cut at the end of a character to 255 bytes at most, and the text and the files are those of the other parts.
///
/// `NoFields` comes exactly where the header has no field, else `NoFrom` exactly where From names nobody with an
/// address, else `CardTooLong` exactly where the weight of the card passes 1,048,576, and `Memory` only when memory
/// runs out.
pub fn read_card(alloc: Global, uid: u32, mail: &[u8]) -> Result<Card, CardFault>
    ensures card { IfOk result (λ card. card_of uid mail.now ≡ Ok card) }
    ensures fault { IfErr result (λ why. (why ≡ fault.Memory) ⊎ (card_of uid mail.now ≡ Err why)) }
    ensures valid { IfOk result (λ card. IsTrue (is_valid card)) }
{
    let header = read_header(alloc, mail)?;
    if header.len() == 0 {
        return Err(CardFault::NoFields);
    }
    let Some(from) = sender(alloc, &header)? else {
        return Err(CardFault::NoFrom);
    };
    let body = &mail[header.body_at()..];
    accepted(card_from(alloc, uid, &header, from, body)?)
}
