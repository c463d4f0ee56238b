//! Who wrote to whom, when, about what and in answer to what.
ghost use Rattle.std.specs.Prelude.{◌≡◌, ◌≤◌, IfOk, IfSome, IsTrue, map};
ghost use Rattle.lists.specs.Distinct.{are_distinct};
ghost use Rattle.kit.specs.Moments.{last_moment};
ghost use Rattle.chat_card.specs.Envelope.{addresses, envelope_of, first_id, first_person, mail_id, sender, stand_in_id};

use encoded_words::decode_words;
use kit::{Addr, Id, Memory, Text};
use lists::{Items, each_once};
use mail_address::{Person, people};
use mail_date::moment;
use mail_headers::{Header, ids};
use std::alloc::Global;

/// What the fields of any mail say, but for its sender (RFC 5322, section 3.6).
#[derive(Drop)]
pub struct Envelope {
    /// The first id of Message-ID, or else one that is made of the uid.
    pub id: Id,
    /// The addresses of To, each once.
    pub to: Items<Addr>,
    /// The addresses of Cc, each once.
    pub cc: Items<Addr>,
    /// The moment of Date, in seconds since 1970-01-01 00:00:00 UTC.
    pub date: Option<u64>,
    /// The ids of In-Reply-To.
    pub replies: Items<Id>,
    /// The ids of References.
    pub references: Items<Id>,
    /// The text of Subject.
    pub subject: Text,
}

/// The first id in a body.
pub fn first_id(alloc: Global, body: &[u8]) -> Result<Option<Id>, Memory>
    ensures { IfOk result (λ id. id ≡ first_id body.now) }
{
    Ok(ids(alloc, body)?.into_iter().next())
}

/// The first person in a body.
pub fn first_person(alloc: Global, body: &[u8]) -> Result<Option<Person>, Memory>
    ensures { IfOk result (λ person. person ≡ first_person body.now) }
{
    Ok(people(alloc, body)?.into_iter().next())
}

/// The first person of From, if it names one.
pub fn sender(alloc: Global, header: &Header) -> Result<Option<Person>, Memory>
    ensures { IfOk result (λ person. person ≡ sender header.now) }
{
    first_person(alloc, header.field(b"From"))
}

/// The id of a mail without one: `uid4@none` for the uid 4.
#[tactic(auto, using(crate::proofs::IdLemmas::stand_in_is_id))]
fn stand_in_id(alloc: Global, uid: u32) -> Result<Id, Memory>
    ensures { IfOk result (λ id. id ≡ stand_in_id uid) }
{
    let id = format!(in alloc; "uid{uid}@none")?;
    Ok(Id::read(alloc, id.as_bytes())?.unwrap())
}

fn mail_id(alloc: Global, uid: u32, body: &[u8]) -> Result<Id, Memory>
    ensures { IfOk result (λ id. id ≡ mail_id uid body.now) }
{
    match first_id(alloc, body)? {
        Some(id) => Ok(id),
        None => stand_in_id(alloc, uid),
    }
}

/// The addresses of people, in their order.
fn addresses_of(alloc: Global, people: Vec<Person>) -> Result<Vec<Addr>, Memory>
    ensures { IfOk result (λ addrs. addrs.items ≡ map (λ person. person.addr) people.items) }
{
    let mut addrs = Vec::new(alloc);
    for person in people {
        addrs.push(person.addr)?;
    }
    Ok(addrs)
}

/// The addresses in a body, each once, where it first is.
#[tactic(auto, using(lists::proofs::DistinctLaws::are_distinct_once))]
fn addresses(alloc: Global, body: &[u8]) -> Result<Items<Addr>, Memory>
    ensures value { IfOk result (λ addrs. addrs ≡ addresses body.now) }
    ensures once { IfOk result (λ addrs. IsTrue (are_distinct addrs)) }
{
    let addrs = addresses_of(alloc, people(alloc, body)?)?;
    Ok(Items::from(each_once(alloc, addrs)?))
}

/// What the fields of a mail of this uid say.
pub fn read_envelope(alloc: Global, uid: u32, header: &Header) -> Result<Envelope, Memory>
    ensures value { IfOk result (λ envelope. envelope ≡ envelope_of uid header.now) }
    ensures to { IfOk result (λ envelope. IsTrue (are_distinct envelope.to)) }
    ensures cc { IfOk result (λ envelope. IsTrue (are_distinct envelope.cc)) }
    ensures moment { IfOk result (λ envelope. IfSome envelope.date (λ date. date ≤ last_moment)) }
{
    Ok(Envelope {
        id: mail_id(alloc, uid, header.field(b"Message-ID"))?,
        to: addresses(alloc, header.field(b"To"))?,
        cc: addresses(alloc, header.field(b"Cc"))?,
        date: moment(header.field(b"Date")),
        replies: Items::from(ids(alloc, header.field(b"In-Reply-To"))?),
        references: Items::from(ids(alloc, header.field(b"References"))?),
        subject: decode_words(alloc, header.field(b"Subject"))?,
    })
}
