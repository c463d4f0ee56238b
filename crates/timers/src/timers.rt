//! Deadlines by mail, the least first.
ghost use Rattle.std.specs.Prelude.{◌≡◌, ◌≤◌, ◌<◌, ℕ, [], ◌∷◌, IfSome, IfNone, OnOk};
ghost use Rattle.std.specs.List.{AllByRecursion};
ghost use Rattle.std.specs.List.Sorted.{IsStrictlySortedBy};
ghost use Rattle.timers.specs.Deadlines.{deadline_cmp, with_deadline, without_uid};

use kit::Memory;
use std::alloc::Global;
use std::collections::{BTreeSet, HashMap};
use std::marker::Model;

/// At most one deadline for each mail: the moment at which it expires. A contract sees the list of these moments, in
/// seconds since 1970-01-01 00:00:00 UTC, each with the number of its mail, the least first.
#[derive(Drop)]
pub struct Timers {
    deadlines: BTreeSet<(u64, u32)>,
    // The deadline of each mail. After a refused `put` it may have one that is not among the deadlines.
    expiries: HashMap<u32, u64>,
}

impl Model for Timers {
    ghost use Rattle.std.specs.Prelude.{ℕ, List};
    ghost use Rattle.std.specs.List.Sorted.{IsStrictlySortedBy};
    ghost use Rattle.timers.specs.Deadlines.{deadline_cmp, AreKnown};

    ghost Value = { List (ℕ × ℕ) };

    ghost view = { λ timers. timers.deadlines.keys };

    ghost invariant = { λ timers. IsStrictlySortedBy deadline_cmp timers.deadlines.keys
        × AreKnown timers.expiries.entries timers.deadlines.keys };
}

impl Timers {
    /// No deadlines. Takes no memory.
    pub fn new(alloc: Global) -> Self
        ensures { result ≡ [] }
    {
        Timers {
            deadlines: BTreeSet::new(alloc),
            expiries: HashMap::new(alloc),
        }
    }

    /// Sets the deadline of a mail, in place of an earlier one. Takes memory; `Err` only when it runs out, and then the
    /// deadlines may only be dropped.
    pub fn put(&mut self, uid: u32, expiry: u64) -> Result<(), Memory>
        ensures { OnOk result (self.new ≡ with_deadline expiry uid self.old) }
    {
        self.drop_of(uid);
        self.expiries.insert(uid, expiry)?;
        self.deadlines.insert((expiry, uid))?;
        Ok(())
    }

    /// Drops the deadline of a mail, if it has one. Takes no memory.
    pub fn drop_of(&mut self, uid: u32)
        ensures { self.new ≡ without_uid uid self.old }
    {
        if let Some(expiry) = self.expiries.remove(&uid) {
            self.deadlines.remove(&(expiry, uid));
        }
    }

    /// Takes out the least deadline where it is at most `now`, in seconds since 1970-01-01 00:00:00 UTC, and returns the
    /// number of its mail; of equal moments the mail with the least number is first. `None` exactly where no deadline
    /// is at most `now`. Takes no memory.
    ///
    /// - `once`: no other deadline is of that mail.
    pub fn due(&mut self, now: u64) -> Option<u32>
        ensures order { IsStrictlySortedBy deadline_cmp self.old }
        ensures some { IfSome result (λ uid. (expiry : ℕ) × (expiry ≤ now) × (self.old ≡ (expiry, uid) ∷ self.new)) }
        ensures once { IfSome result (λ uid. without_uid uid self.new ≡ self.new) }
        ensures none { IfNone result ((self.new ≡ self.old) × AllByRecursion (λ p. now < p.0) self.old) }
    {
        let &(expiry, uid) = self.deadlines.first()?;
        if now < expiry {
            return None;
        }
        self.deadlines.pop_first();
        self.expiries.remove(&uid);
        Some(uid)
    }
}
