//! How often each address is mentioned.
ghost use Rattle.std.specs.Prelude.{◌≡◌, ◌+◌, ◌-◌, ◌&&◌, nat_lt, not, ℕ, List, false, IfOk, IfSome, OnOk};
ghost use Rattle.std.specs.Cmp.Lexicographic.{slice_cmp};
ghost use Rattle.std.specs.List.{count_by};
ghost use Rattle.std.specs.List.Sorted.{IsStrictlySortedBy};
ghost use Rattle.std.specs.Ordering.{nat_cmp};
ghost use Rattle.std.specs.Str.{bytes_eq};
ghost use Rattle.card_type.specs.Effects.{is_among};
ghost use Rattle.card_type.specs.Records.{capped};
ghost use Rattle.contacts.specs.Kept.{mentions_at, times_in};

use card_type::Card;
use kit::{Addr, Memory};
use lists::Items;
use std::alloc::Global;
use std::collections::BTreeMap;
use std::marker::Model;

/// How often each address is among From, To and Cc of some cards. An address that is not there is mentioned 0 times.
#[derive(Drop)]
pub(crate) struct Mentions {
    counts: BTreeMap<Addr, u64>,
}

impl Model for Mentions {
    ghost use Rattle.std.specs.Prelude.{ℕ, List};

    ghost Value = { List (List ℕ × ℕ) };

    ghost view = { λ mentions. mentions.counts.entries };
}

/// Whether an address is mentioned, and is not the own one.
fn is_other(me: &Addr, addr: &Addr, count: u64) -> bool
    ensures { result ≡ (nat_lt 0 count && not (bytes_eq me.now addr.now)) }
{
    count > 0 && me != addr
}

impl Mentions {
    /// No mentions. Takes no memory.
    pub(crate) fn new(alloc: Global) -> Self
        ensures { (addr : List ℕ) → mentions_at result addr ≡ 0 }
    {
        Mentions {
            counts: BTreeMap::new(alloc),
        }
    }

    /// How often an address is mentioned.
    fn get(&self, addr: &Addr) -> u64
        ensures { result ≡ mentions_at self.now addr.now }
    {
        match self.counts.get(addr) {
            Some(count) => *count,
            None => 0,
        }
    }

    /// The addresses that are mentioned but for one, in their order.
    pub(crate) fn others(&self, alloc: Global, me: &Addr) -> Result<Vec<Addr>, Memory>
        ensures order { IfOk result (λ addrs. IsStrictlySortedBy (slice_cmp nat_cmp) addrs.items) }
        ensures all { IfOk result (λ addrs. (addr : List ℕ) → is_among addrs.items addr ≡ (nat_lt 0 (mentions_at self.now addr) && not (bytes_eq me.now addr))) }
    {
        let mut addrs = Vec::new(alloc);
        for (addr, count) in &self.counts {
            if is_other(me, addr, *count) {
                addrs.push(addr.copy()?)?;
            }
        }
        Ok(addrs)
    }

    /// An address as it is kept: `None` where it is not mentioned. Takes no memory.
    fn kept(&self, addr: &Addr) -> Option<Addr>
        ensures { IfSome result (λ kept. kept ≡ addr.now) }
    {
        let (kept, _) = self.counts.get_key_value(addr)?;
        kept.copy().ok()
    }

    /// Puts the address that is kept in place of the one at an index, where it is mentioned.
    fn share_at(&self, addrs: &mut Items<Addr>, index: usize)
        ensures { addrs.new ≡ addrs.old }
    {
        let Some(addr) = addrs.as_slice().get(index) else {
            return;
        };
        if let Some(kept) = self.kept(addr) {
            addrs.set(index, kept);
        }
    }

    /// Puts those that are kept in place of these, where they are mentioned.
    fn share_each(&self, addrs: &mut Items<Addr>)
        ensures { addrs.new ≡ addrs.old }
    {
        for index in 0..addrs.len() {
            self.share_at(addrs, index);
        }
    }

    /// Puts the addresses that are kept in place of those of a card, which stays as it is: they share their bytes. Takes no
    /// memory.
    pub(crate) fn share(&self, card: &mut Card)
        ensures { card.new ≡ card.old }
    {
        if let Some(kept) = self.kept(&card.from) {
            card.from = kept;
        }
        self.share_each(&mut card.to);
        self.share_each(&mut card.cc);
    }

    /// Counts one mention more of an address, up to 2^64 - 1. Takes memory; `Err` only when it runs out.
    fn add_one(&mut self, addr: &Addr) -> Result<(), Memory>
        ensures at { OnOk result (mentions_at self.new addr.now ≡ capped (mentions_at self.old addr.now + 1)) }
        ensures others { OnOk result ((other : List ℕ) → bytes_eq addr.now other ≡ false → mentions_at self.new other ≡ mentions_at self.old other) }
    {
        if let Some(count) = self.counts.get_mut(addr) {
            *count = count.saturating_add(1);
            return Ok(());
        }
        self.counts.insert(addr.copy()?, 1)?;
        Ok(())
    }

    /// Counts a mention more of each of these, up to 2^64 - 1.
    fn add_each(&mut self, addrs: &[Addr]) -> Result<(), Memory>
        ensures { OnOk result ((other : List ℕ) → capped (mentions_at self.new other) ≡ capped (mentions_at self.old other + count_by (bytes_eq other) addrs.now)) }
    {
        for addr in addrs {
            self.add_one(addr)?;
        }
        Ok(())
    }

    /// Counts the mentions of a card, those of each address up to 2^64 - 1. Takes memory; `Err` only when it runs out.
    pub(crate) fn add(&mut self, card: &Card) -> Result<(), Memory>
        ensures { OnOk result ((other : List ℕ) → capped (mentions_at self.new other) ≡ capped (mentions_at self.old other + times_in card.now other)) }
    {
        self.add_one(&card.from)?;
        self.add_each(card.to.as_slice())?;
        self.add_each(card.cc.as_slice())?;
        Ok(())
    }

    /// Counts one mention less of an address, where it is mentioned, and keeps the address.
    fn take_one(&mut self, addr: &Addr)
        ensures at { mentions_at self.new addr.now ≡ mentions_at self.old addr.now - 1 }
        ensures others { (other : List ℕ) → bytes_eq addr.now other ≡ false → mentions_at self.new other ≡ mentions_at self.old other }
    {
        if let Some(count) = self.counts.get_mut(addr) {
            *count = count.saturating_sub(1);
        }
    }

    /// Drops an address that is not mentioned.
    fn drop_none(&mut self, addr: &Addr)
        ensures { (other : List ℕ) → mentions_at self.new other ≡ mentions_at self.old other }
    {
        if self.get(addr) == 0 {
            let _none = self.counts.remove(addr);
        }
    }

    /// Counts a mention less of each of these.
    fn remove_each(&mut self, addrs: &[Addr])
        ensures { (other : List ℕ) → mentions_at self.new other ≡ mentions_at self.old other - count_by (bytes_eq other) addrs.now }
    {
        for addr in addrs {
            self.take_one(addr);
            self.drop_none(addr);
        }
    }

    /// Takes the mentions of a card away. Takes no memory.
    pub(crate) fn remove(&mut self, card: &Card)
        ensures { (other : List ℕ) → mentions_at self.new other ≡ mentions_at self.old other - times_in card.now other }
    {
        self.take_one(&card.from);
        self.drop_none(&card.from);
        self.remove_each(card.to.as_slice());
        self.remove_each(card.cc.as_slice());
    }
}
