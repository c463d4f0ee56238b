//! Changes that are not lasting yet.
ghost use Rattle.std.specs.Prelude.{◌≡◌, ◌⊎◌, ◌<◌, ◌≤◌, ◌-◌, ◌++◌, ◌^◌, ℕ, List, [], length, drop, OnOk, OnErr};
ghost use Rattle.mailbox_model.specs.declared.change.Change.{Change};
ghost use Rattle.mailbox_model.specs.Mailbox.{IsValidChange};
ghost use Rattle.state_image.specs.Changes.{change_spelled, FitsChange};
ghost use Rattle.tail_journal.specs.Pending.{AreWritten, none_pending, with_change};
ghost use Rattle.tail_journal.specs.Spelling.{AreSpelled, group_head, group_spelled};

use crate::group::{GROUP_HEAD, fill_head};
use kit::Memory;
use mailbox_model::Change;
use state_image::{Position, append_change};
use std::alloc::Global;
use std::marker::Model;
use std::mem;

/// Changes that are not lasting yet, in their order and in their written form, at most 256: the group that they will be.
#[derive(Drop)]
pub struct Pending {
    count: u16,
    /// Room for the head of a group, and then the changes; nothing where there is none.
    group: Vec<u8>,
}

impl Model for Pending {
    ghost use Rattle.std.specs.Prelude.{drop};
    ghost use Rattle.tail_journal.specs.Pending.{PendingChanges, HoldsPending};
    ghost use Rattle.tail_journal.specs.Spelling.{group_head};

    ghost Value = { PendingChanges };

    ghost view = { λ p. record { count = p.count; bytes = drop group_head p.group.items } };

    ghost invariant = { λ p. HoldsPending p.count p.group.items };
}

/// A valid change has a spelling, since its uid has 32 bits, as its type says.
fn a_valid_change_fits(change: &Change)
    requires { IsValidChange change.now }
    ensures { FitsChange change.now }
{
    match change {
        Change::Arrive(_) | Change::ArriveFault(_) | Change::At(_) => {}
        Change::Expunge(uid) | Change::Seen(uid) => has_32_bits(*uid),
    }
}

fn has_32_bits(uid: u32)
    ensures { uid < 2 ^ 32 }
{}

/// Appends a change to those of a group, of which the head gets its room first.
fn append_after_head(change: &Change, group: &mut Vec<u8>) -> Result<(), Memory>
    requires { (group.old.items ≡ []) ⊎ (group_head ≤ length group.old.items) }
    ensures changes { OnOk result (drop group_head group.new.items ≡ drop group_head group.old.items ++ change_spelled change.now) }
    ensures head { OnOk result (group_head ≤ length group.new.items) }
{
    if !group.is_empty() {
        return append_change(change, group);
    }
    group.extend_from_slice(&[0; GROUP_HEAD])?;
    append_change(change, group)
}

impl Pending {
    /// No change. Takes no memory.
    pub fn new(alloc: Global) -> Self
        ensures { result ≡ none_pending }
    {
        Pending {
            count: 0,
            group: Vec::new(alloc),
        }
    }

    /// How many changes these are, from 0 to 256.
    pub fn count(&self) -> u16
        ensures value { result ≡ self.now.count }
        ensures written { AreWritten self.now }
    {
        self.count
    }

    /// How many bytes the changes have in their written form.
    pub fn size(&self) -> usize
        ensures { result ≡ length self.now.bytes }
    {
        self.group.len().saturating_sub(GROUP_HEAD)
    }

    /// Adds a change after the others, whose bytes are written once, where they stay. Takes memory; `Err` only when it runs
    /// out, and then none is pending: the changes before it may not be committed without it.
    pub fn push(&mut self, change: &Change) -> Result<(), Memory>
        requires few { self.old.count < 256 }
        requires valid { IsValidChange change.now }
        ensures ok { OnOk result (self.new ≡ with_change self.old change.now) }
        ensures err { OnErr result (self.new ≡ none_pending) }
        ensures fits { FitsChange change.now }
    {
        a_valid_change_fits(change);
        match append_after_head(change, &mut self.group) {
            Ok(()) => {
                self.count += 1;
                Ok(())
            }
            Err(memory) => {
                self.group.clear();
                self.count = 0;
                Err(memory)
            }
        }
    }

    /// The group that the changes are, after which this is the position: its count is no smaller than theirs. No change is
    /// pending then. Takes no memory.
    pub fn seal(&mut self, position: Position) -> Vec<u8>
        requires some { 1 ≤ self.old.count }
        requires counted { self.old.count ≤ position.count }
        ensures none { self.new ≡ none_pending }
        ensures text { (held : List Change) → AreSpelled self.old.count self.old.bytes held
            → result.items ≡ group_spelled (record { base = position.count - self.old.count; position = position; changes = held }) }
    {
        let alloc = *self.group.allocator();
        let n = mem::replace(&mut self.count, 0);
        let mut group = mem::replace(&mut self.group, Vec::new(alloc));
        fill_head(&mut group, position.count - u64::from(n), position, n);
        group
    }

    /// Takes the memory of a group back for the changes to come. Takes none.
    pub fn reuse(&mut self, group: Vec<u8>)
        requires { self.old ≡ none_pending }
        ensures { self.new ≡ none_pending }
    {
        self.group = group;
        self.group.clear();
    }

    /// Drops all changes. Takes no memory.
    pub fn clear(&mut self)
        ensures { self.new ≡ none_pending }
    {
        self.group.clear();
        self.count = 0;
    }
}
