//! What a mail of a chat program requests.
ghost use Rattle.std.specs.Prelude.{◌≡◌, ◌<◌, ◌^◌, IfOk};
ghost use Rattle.chat_card.specs.Requests.{address_in, chat_field, has_field, is_chat, requests_of, timer_of};

use crate::envelope::{first_id, first_person};
use card_type::GroupId;
use encoded_words::decode_words;
use kit::{Addr, Id, Memory, Text, number};
use lists::Items;
use mail_headers::{Header, ids};
use std::alloc::Global;

/// What the fields of a chat request; of a mail that no chat program sent, nothing.
#[derive(Drop)]
pub struct Requests {
    /// Whether a chat program sent the mail.
    pub chat: bool,
    /// The group to which it was sent.
    pub group: Option<GroupId>,
    /// The name of that group, empty where it says none.
    pub group_name: Text,
    /// Whom it adds to the group.
    pub added: Option<Addr>,
    /// Whom it removes from the group.
    pub removed: Option<Addr>,
    /// Whether it gives the group its name.
    pub renamed: bool,
    /// The mail whose text it replaces.
    pub edit: Option<Id>,
    /// The mails that it takes back.
    pub deletes: Items<Id>,
    /// After how many seconds it is to vanish, and 0 where it is to stay.
    pub timer: u32,
}

fn has_field(header: &Header, name: &[u8]) -> bool
    ensures { result ≡ has_field header.now name.now }
{
    header.first(name).is_some()
}

/// Whether a chat program sent a mail.
fn is_chat(header: &Header) -> bool
    ensures { result ≡ is_chat header.now }
{
    has_field(header, b"Chat-Version")
}

/// The body of a field of a chat, which is empty in other mails. Whether a chat program sent the mail is given, since it
/// is asked for each field.
fn chat_field<'a>(chat: bool, header: &'a Header, name: &[u8]) -> &'a [u8]
    requires { chat ≡ is_chat header.now }
    ensures { result.now ≡ chat_field header.now name.now }
{
    if chat { header.field(name) } else { b"" }
}

/// The first address in a body.
fn address_in(alloc: Global, body: &[u8]) -> Result<Option<Addr>, Memory>
    ensures { IfOk result (λ addr. addr ≡ address_in body.now) }
{
    Ok(first_person(alloc, body)?.map(|person| person.addr))
}

/// The timer that a body sets, in seconds; 0 where it sets none.
fn timer_of(body: &[u8]) -> u32
    ensures { result ≡ timer_of body.now }
{
    match number(1, 10, body) {
        Some(seconds) => u32::try_from(seconds).unwrap_or(0),
        None => 0,
    }
}

/// What the fields of a chat in a header request.
pub fn read_requests(alloc: Global, header: &Header) -> Result<Requests, Memory>
    ensures { IfOk result (λ requests. requests ≡ requests_of header.now) }
{
    let chat = is_chat(header);
    Ok(Requests {
        chat,
        group: GroupId::read(alloc, chat_field(chat, header, b"Chat-Group-ID"))?,
        group_name: decode_words(alloc, chat_field(chat, header, b"Chat-Group-Name"))?,
        added: address_in(alloc, chat_field(chat, header, b"Chat-Group-Member-Added"))?,
        removed: address_in(
            alloc,
            chat_field(chat, header, b"Chat-Group-Member-Removed"),
        )?,
        renamed: chat && has_field(header, b"Chat-Group-Name-Changed"),
        edit: first_id(alloc, chat_field(chat, header, b"Chat-Edit"))?,
        deletes: Items::from(ids(alloc, chat_field(chat, header, b"Chat-Delete"))?),
        timer: timer_of(chat_field(chat, header, b"Ephemeral-Timer")),
    })
}
