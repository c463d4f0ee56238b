//! Addresses in the order in which they are said, each once.
ghost use Rattle.std.specs.Prelude.{◌≡◌, [], ◌∷◌, ◌++◌, List, IfOk, OnOk};
ghost use Rattle.std.specs.Option.{option_map_or, option_to_list};
ghost use Rattle.lists.specs.Distinct.{each_once};
ghost use Rattle.mailbox_model.specs.Chats.{people};
ghost use Rattle.mailbox_model.specs.Lists.{Bytes, without};
ghost use Rattle.mailbox_model.specs.Rosters.{listed};

use card_type::Card;
use indexmap::IndexSet;
use kit::{Addr, Memory};
use lists::Items;
use std::alloc::Global;

/// Says an address after those that were said.
fn say(said: &mut IndexSet<Addr>, addr: &Addr) -> Result<(), Memory>
    ensures { OnOk result ((before : List Bytes) → said.old.keys ≡ each_once before → said.new.keys ≡ each_once (before ++ addr.now ∷ [])) }
{
    said.insert(addr.copy()?)?;
    Ok(())
}

/// Says addresses after those that were said, one after the other.
fn say_all(said: &mut IndexSet<Addr>, addrs: &[Addr]) -> Result<(), Memory>
    ensures { OnOk result ((before : List Bytes) → said.old.keys ≡ each_once before → said.new.keys ≡ each_once (before ++ addrs.now)) }
{
    for addr in addrs {
        say(said, addr)?;
    }
    Ok(())
}

/// Says an address, if there is one.
fn say_option(said: &mut IndexSet<Addr>, addr: &Option<Addr>) -> Result<(), Memory>
    ensures { OnOk result ((before : List Bytes) → said.old.keys ≡ each_once before → said.new.keys ≡ each_once (before ++ option_to_list addr.now)) }
{
    match addr {
        Some(addr) => say(said, addr),
        None => Ok(()),
    }
}

/// Takes an address back, if there is one.
fn take_back(said: &mut IndexSet<Addr>, addr: &Option<Addr>)
    ensures { (before : List Bytes) → said.old.keys ≡ each_once before
        → said.new.keys ≡ option_map_or (λ removed. without removed said.old.keys) addr.now said.old.keys }
{
    if let Some(addr) = addr {
        said.shift_remove(addr);
    }
}

/// The addresses as a list.
fn list_of(alloc: Global, said: IndexSet<Addr>) -> Result<Items<Addr>, Memory>
    ensures { IfOk result (λ members. members ≡ said.keys) }
{
    Ok(Items::from(said.into_iter().collect::<Vec<Addr>>(alloc)?))
}

/// From, To and the address that the card adds, each once, without the one that it removes. Takes memory; `Err` only
/// when it runs out.
pub(crate) fn listed(alloc: Global, card: &Card) -> Result<Items<Addr>, Memory>
    ensures { IfOk result (λ members. members ≡ listed card.now) }
{
    let mut said = IndexSet::new(alloc);
    say(&mut said, &card.from)?;
    say_all(&mut said, card.to.as_slice())?;
    say_option(&mut said, &card.added)?;
    take_back(&mut said, &card.removed);
    list_of(alloc, said)
}

/// The members, and after them those of From, To and Cc of the card, each once. Takes memory; `Err` only when it runs
/// out.
pub(crate) fn with_people(
    alloc: Global,
    members: &[Addr],
    card: &Card,
) -> Result<Items<Addr>, Memory>
    ensures { IfOk result (λ all. all ≡ each_once (members.now ++ people card.now)) }
{
    let mut said = IndexSet::new(alloc);
    say_all(&mut said, members)?;
    say(&mut said, &card.from)?;
    say_all(&mut said, card.to.as_slice())?;
    say_all(&mut said, card.cc.as_slice())?;
    list_of(alloc, said)
}
