//! Ids of groups.
ghost use Rattle.std.specs.Prelude.{◌≡◌, ℕ, List, IfOk, IsTrue};
ghost use Rattle.std.specs.List.{list_all};
ghost use Rattle.std.proofs.Common.{rules};
ghost use Rattle.kit.specs.Reading.{read_as};
ghost use Rattle.card_type.specs.Groups.{is_group, is_group_byte};

use kit::{Bytes, Memory};
use lists::Exact;
use std::alloc::Global;
use std::marker::Model;

/// No group id is shorter, so that ids that are drawn by chance differ.
const MIN_LEN: usize = 11;
/// No group id is longer than a line may be (RFC 5322, section 2.1.1).
const MAX_LEN: usize = 998;

/// The id of a group: 11 to 998 bytes, each an ASCII letter, a digit, `_` or `-`. Compared byte by byte,
/// so the case of letters counts.
#[derive(Clone, Debug, PartialEq, Eq, PartialOrd, Ord, Hash, Drop)]
pub struct GroupId {
    bytes: Bytes,
}

impl Model for GroupId {
    ghost Value = { List ℕ };

    ghost view = { λ group. group.bytes };

    ghost invariant = { λ group. IsTrue (is_group group.bytes) };

    ghost inverse = { λ bytes. record { bytes = bytes } };
}

impl Exact for GroupId {
    ghost same = { Prim.search rules };
}

fn are_group_bytes(bytes: &[u8]) -> bool
    ensures { result ≡ list_all is_group_byte bytes.now }
{
    bytes
        .iter()
        .all(|b| b.is_ascii_alphanumeric() || *b == b'_' || *b == b'-')
}

/// Whether the bytes are a valid group id: 11 to 998 of `0-9 A-Z a-z _ -`. Takes no memory.
pub fn valid_group(bytes: &[u8]) -> bool
    ensures { result ≡ is_group bytes.now }
{
    MIN_LEN <= bytes.len() && bytes.len() <= MAX_LEN && are_group_bytes(bytes)
}

impl GroupId {
    /// The bytes as a group id: `None` exactly where they are no valid one. Takes memory
    /// for an id; `Err` only when it runs out.
    pub fn read(alloc: Global, bytes: &[u8]) -> Result<Option<Self>, Memory>
        ensures { IfOk result (λ read. read ≡ read_as is_group bytes.now) }
    {
        if !valid_group(bytes) {
            return Ok(None);
        }
        let bytes = Bytes::from_slice(alloc, bytes)?;
        Ok(Some(GroupId { bytes }))
    }

    /// The bytes of the id. Takes no memory.
    pub fn bytes(&self) -> &[u8]
        ensures same { result.now ≡ self.now }
        ensures group { IsTrue (is_group self.now) }
    {
        self.bytes.bytes()
    }

    /// A copy of the id, which shares its bytes. Takes no memory; `Err` only where no more copies can be counted.
    pub fn copy(&self) -> Result<Self, Memory>
        ensures { IfOk result (λ copy. copy ≡ self.now) }
    {
        Ok(self.clone()?)
    }
}
