//! Keys of chats, and their order.
ghost use Rattle.std.specs.Prelude.{◌≡◌, IfOk};
ghost use Rattle.std.specs.Cmp.Rules.{comparing};
ghost use Rattle.std.specs.Cmp.{partial_order_from_own_ties};
ghost use Rattle.std.specs.Ordering.{as_partial_cmp};
ghost use Rattle.std.specs.Str.{IsUtf8};
ghost use Rattle.std.proofs.Common.{rules};
ghost use Rattle.card_type.specs.Keys.{key_rank, key_bytes, key_eq, key_cmp};

use crate::group_id::GroupId;
use kit::{Addr, Id, Memory};
use lists::Exact;
use std::cmp::Ordering;

/// The key of a chat. Keys are ordered as their variants here, and keys of one variant by their bytes, a
/// proper prefix first.
#[derive(Clone, Debug, Drop)]
pub enum ChatKey {
    /// The chat with oneself.
    SelfChat,
    /// The chat with one other.
    Single(Addr),
    /// The chat of a group.
    Group(GroupId),
    /// The chat of a thread of mails, by the id of the mail with which it begins.
    Thread(Id),
}

impl Exact for ChatKey {
    ghost same = { Prim.search rules };
}

impl ChatKey {
    /// A copy of the key, which shares its bytes. Takes no memory; `Err` only where no more copies can be counted.
    pub fn copy(&self) -> Result<Self, Memory>
        ensures { IfOk result (λ copy. copy ≡ self.now) }
    {
        Ok(self.clone()?)
    }

    fn rank(&self) -> u8
        ensures { result ≡ key_rank self.now }
    {
        match self {
            ChatKey::SelfChat => 0,
            ChatKey::Single(_) => 1,
            ChatKey::Group(_) => 2,
            ChatKey::Thread(_) => 3,
        }
    }

    /// The bytes after the prefix of its text, of which `SelfChat` has none.
    pub(crate) fn bytes(&self) -> &[u8]
        ensures same { result.now ≡ key_bytes self.now }
        ensures utf8 { IsUtf8 (key_bytes self.now) }
    {
        match self {
            ChatKey::SelfChat => &[],
            ChatKey::Single(other) => other.bytes(),
            ChatKey::Group(group) => group.bytes(),
            ChatKey::Thread(first) => first.bytes(),
        }
    }
}

impl PartialEq for ChatKey {
    ghost eq = { key_eq };

    ghost laws = { Prim.search (comparing, rules) };

    fn eq(&self, other: &Self) -> bool {
        match (self, other) {
            (ChatKey::Single(one), ChatKey::Single(two)) => one == two,
            (ChatKey::Group(one), ChatKey::Group(two)) => one == two,
            (ChatKey::Thread(one), ChatKey::Thread(two)) => one == two,
            _ => self.rank() == other.rank(),
        }
    }
}

impl Eq for ChatKey {
    ghost laws = { Prim.search (comparing, rules) };
}

impl PartialOrd for ChatKey {
    ghost partial_cmp = { as_partial_cmp key_cmp };

    ghost laws = { partial_order_from_own_ties (Prim.search (comparing, rules)) (Prim.search (comparing, rules)) };

    fn partial_cmp(&self, other: &Self) -> Option<Ordering> {
        Some(self.cmp(other))
    }
}

// The order is written by hand, so that it is the one that `key_cmp` names and not one that is made of a derive.
impl Ord for ChatKey {
    ghost cmp = { key_cmp };

    ghost total = { Prim.search (comparing, rules) };

    ghost matches_partial_cmp = { Prim.search (comparing, rules) };

    ghost matches_eq = { Prim.search (comparing, rules) };

    fn cmp(&self, other: &Self) -> Ordering {
        match (self, other) {
            (ChatKey::Single(one), ChatKey::Single(two)) => one.cmp(two),
            (ChatKey::Group(one), ChatKey::Group(two)) => one.cmp(two),
            (ChatKey::Thread(one), ChatKey::Thread(two)) => one.cmp(two),
            _ => self.rank().cmp(&other.rank()),
        }
    }
}
