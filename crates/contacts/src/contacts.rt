//! The contacts.
ghost use Rattle.std.specs.Prelude.{◌≡◌, ◌+◌, ◌-◌, ℕ, List, [], not, ◌&&◌, nat_lt, map, IfOk, OnOk};
ghost use Rattle.std.specs.Cmp.Lexicographic.{slice_cmp};
ghost use Rattle.std.specs.List.{AllByRecursion};
ghost use Rattle.std.specs.List.Sorted.{IsStrictlySortedBy};
ghost use Rattle.std.specs.Option.{option_copied};
ghost use Rattle.std.specs.Ordering.{nat_cmp};
ghost use Rattle.std.specs.Str.{bytes_eq};
ghost use Rattle.card_type.specs.Effects.{is_among};
ghost use Rattle.card_type.specs.Records.{capped};
ghost use Rattle.contacts.specs.Kept.{mentions_at, names_at, names_with, names_without, last_name, shown_name, times_in};

use crate::mentions::Mentions;
use crate::names::Names;
use card_type::{Card, Spot};
use kit::{Addr, Memory, Text};
use mailbox_model::ContactRow;
use std::alloc::Global;
use std::marker::Model;

/// What is kept of the people of some cards, each at a spot: how often each address is mentioned, and under which names it
/// wrote.
#[derive(Drop)]
pub struct Contacts {
    mentions: Mentions,
    names: Names,
}

impl Model for Contacts {
    ghost use Rattle.contacts.specs.Kept.{Kept};

    ghost Value = { Kept };

    ghost view = { λ contacts. record { mentions = contacts.mentions; names = contacts.names } };
}

impl Contacts {
    /// Those of no cards. Takes no memory.
    pub fn new(alloc: Global) -> Self
        ensures mentions { (addr : List ℕ) → mentions_at result.mentions addr ≡ 0 }
        ensures names { (addr : List ℕ) → names_at result.names addr ≡ [] }
    {
        Contacts {
            mentions: Mentions::new(alloc),
            names: Names::new(alloc),
        }
    }

    /// Lets the addresses of a card share their bytes with those that are kept. The card stays as it is. Takes no memory, and
    /// time that grows with the number of its addresses, and with the logarithm of what is kept. That they share is not said
    /// by a clause, since a contract sees the bytes and not where they stand: it is only measured.
    pub fn share(&self, card: &mut Card)
        ensures { card.new ≡ card.old }
    {
        self.mentions.share(card);
    }

    /// Adds a card at a spot where none is. Takes memory; `Err` only when it runs out, and after it the contacts may only be
    /// dropped. Takes time that grows with the number of addresses of the card, and with the logarithm of what is kept.
    ///
    /// - `mentions`: each address is mentioned so often more as it is among From, To and Cc. A count goes up to 2^64 - 1 and
    ///   stays there.
    /// - `names`: the name of From, where it is not empty, stands in its place in mail order.
    pub fn add(&mut self, spot: &Spot, card: &Card) -> Result<(), Memory>
        ensures mentions { OnOk result ((addr : List ℕ) → capped (mentions_at self.new.mentions addr) ≡ capped (mentions_at self.old.mentions addr + times_in card.now addr)) }
        ensures names { OnOk result ((addr : List ℕ) → names_at self.new.names addr ≡ names_with spot.now card.now addr (names_at self.old.names addr)) }
    {
        self.mentions.add(card)?;
        self.names.add(spot, card)
    }

    /// Removes the card that is kept at a spot. Takes no memory, and the time of `add`.
    ///
    /// - `mentions`: each address is mentioned so often less as it is among From, To and Cc.
    /// - `names`: the name at that spot is taken from the names of From.
    pub fn remove(&mut self, spot: &Spot, card: &Card)
        ensures mentions { (addr : List ℕ) → mentions_at self.new.mentions addr ≡ mentions_at self.old.mentions addr - times_in card.now addr }
        ensures names { (addr : List ℕ) → names_at self.new.names addr ≡ names_without spot.now card.now addr (names_at self.old.names addr) }
    {
        self.mentions.remove(card);
        self.names.remove(spot, card);
    }

    /// The last name of an address in mail order: `None` exactly where it has none. Takes no memory, and time that grows with
    /// the logarithm of the number of addresses and names.
    pub fn name_of(&self, addr: &Addr) -> Option<&Text>
        ensures { option_copied result ≡ last_name (names_at self.now.names addr.now) }
    {
        self.names.last(addr)
    }

    /// The name under which an address is shown: its last name in mail order, else the address. Takes memory; `Err` only when
    /// it runs out. Takes the time of `name_of`.
    pub fn shown_name(&self, alloc: Global, addr: &Addr) -> Result<Text, Memory>
        ensures { IfOk result (λ name. name ≡ shown_name self.now addr.now) }
    {
        match self.name_of(addr) {
            Some(name) => name.copy(),
            None => text_of(alloc, addr),
        }
    }

    /// The contacts: each address that is mentioned but the own one, in the order of addresses, and the name under which it is
    /// shown. Takes memory; `Err` only when it runs out. Takes the time of `name_of` for each address.
    ///
    /// - `order`: each address comes strictly before all that follow it.
    /// - `all`: an address is there exactly where it is mentioned and is not the own one.
    /// - `names`: its name is the last one, else the address.
    pub fn page(&self, alloc: Global, me: &Addr) -> Result<Vec<ContactRow>, Memory>
        ensures order { IfOk result (λ rows. IsStrictlySortedBy (slice_cmp nat_cmp) (map (λ row. row.addr) rows.items)) }
        ensures all { IfOk result (λ rows. (addr : List ℕ) → is_among (map (λ row. row.addr) rows.items) addr ≡ (nat_lt 0 (mentions_at self.now.mentions addr) && not (bytes_eq me.now addr))) }
        ensures names { IfOk result (λ rows. AllByRecursion (λ row. row.name ≡ shown_name self.now row.addr) rows.items) }
    {
        let addrs = self.mentions.others(alloc, me)?;
        let mut rows = Vec::with_capacity(alloc, addrs.len())?;
        for addr in addrs {
            let name = self.shown_name(alloc, &addr)?;
            rows.push(ContactRow { addr, name })?;
        }
        Ok(rows)
    }
}

/// The bytes of an address as a text.
fn text_of(alloc: Global, addr: &Addr) -> Result<Text, Memory>
    ensures { IfOk result (λ text. text ≡ addr.now) }
{
    let text = String::from_str(alloc, addr.as_str())?;
    Ok(Text::from(text))
}
