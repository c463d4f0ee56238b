//! What one card does to another.
ghost use Rattle.std.specs.Prelude.{◌≡◌, IsSome, IsTrue, take};
ghost use Rattle.std.specs.Option.{option_to_list};
ghost use Rattle.card_type.specs.Effects.{is_among, names_by, names, has_person, effect_of};
ghost use Rattle.card_type.specs.Kinds.{is_content, kind_of};

use crate::card::Card;
use crate::kind::{Kind, kind_of};
use kit::{Addr, Id};
use lists::Items;

/// What a mail does to a mail of kind Content that it names.
#[derive(Clone, Copy, Debug, PartialEq, Eq)]
pub enum Effect {
    /// It replaces its text.
    Edit,
    /// It takes it back.
    Delete,
    /// It says that it was read.
    Read,
    /// It brings updates to its app.
    Update,
    /// It is a reaction to it, or takes an earlier one back.
    Reaction,
}

fn is_of(named: &Option<Id>, id: &Id) -> bool
    ensures { result ≡ is_among (option_to_list named.now) id.now }
{
    match named {
        Some(named) => id == named,
        None => false,
    }
}

fn is_first(ids: &Items<Id>, id: &Id) -> bool
    ensures { result ≡ is_among (take 1 ids.now) id.now }
{
    match ids.as_slice() {
        [first, ..] => id == first,
        [] => false,
    }
}

fn has_id(ids: &Items<Id>, id: &Id) -> bool
    ensures { result ≡ is_among ids.now id.now }
{
    ids.as_slice().contains(id)
}

fn has_addr(addrs: &Items<Addr>, addr: &Addr) -> bool
    ensures { result ≡ is_among addrs.now addr.now }
{
    addrs.as_slice().contains(addr)
}

/// Whether an id is among those that a card of this kind names.
fn names(card: &Card, kind: Kind, id: &Id) -> bool
    ensures { result ≡ is_among (names_by kind card.now) id.now }
{
    match kind {
        Kind::Receipt => is_of(&card.receipt, id),
        Kind::Delete => has_id(&card.deletes, id),
        Kind::Edit => is_of(&card.edit, id),
        Kind::Update | Kind::Reaction => is_first(&card.replies, id),
        Kind::Content => false,
    }
}

/// Whether an address is among From, To and Cc of a card.
fn has_person(card: &Card, addr: &Addr) -> bool
    ensures { result ≡ has_person card.now addr.now }
{
    *addr == card.from || has_addr(&card.to, addr) || has_addr(&card.cc, addr)
}

/// What the mail of `e` does to the mail of `t`, where `me` is the own address. It is decided by the two cards
/// alone, and is `None` where `t` is not Content. Takes no memory.
///
/// - Edit, where `e` is an Edit of the id of `t` and both have one From address.
/// - Delete, where `e` is a Delete that has the id of `t` and both have one From address.
/// - Read, where `e` is a Receipt for the id of `t`, and `t` is from oneself and `e` is not.
/// - Update, where `e` is an Update, the first of its `replies` is the id of `t`, `t` is an app, and the From
///   address of `e` is among From, To and Cc of `t`.
/// - Reaction, where `e` is a Reaction, the first of its `replies` is the id of `t`, and the From address of `e` is
///   among From, To and Cc of `t`.
pub fn effect_of(e: &Card, t: &Card, me: &Addr) -> Option<Effect>
    ensures value { result ≡ effect_of e.now t.now me.now }
    ensures content { IsSome result → IsTrue (is_content (kind_of t.now)) }
    ensures named { IsSome result → IsTrue (is_among (names e.now) t.now.id) }
{
    let kind = kind_of(e);
    if kind_of(t) != Kind::Content || !names(e, kind, &t.id) {
        return None;
    }
    match kind {
        Kind::Receipt if t.from == *me && e.from != *me => Some(Effect::Read),
        Kind::Delete if e.from == t.from => Some(Effect::Delete),
        Kind::Edit if e.from == t.from => Some(Effect::Edit),
        Kind::Update if t.app && has_person(t, &e.from) => Some(Effect::Update),
        Kind::Reaction if has_person(t, &e.from) => Some(Effect::Reaction),
        _ => None,
    }
}
