//! Bytes whose copies share them.
ghost use Rattle.std.specs.Prelude.{◌≡◌, ℕ, List, ◌==◌, Some, IfOk, get_or};
ghost use Rattle.std.specs.Cmp.Lexicographic.{pointwise, slice_cmp, texts_ties, texts_po, nat_list_eq_equiv, nat_list_cmp_total};
ghost use Rattle.std.specs.Cmp.Rules.{hashing};
ghost use Rattle.std.specs.Cmp.{partial_equiv_from_equiv};
ghost use Rattle.std.specs.Hash as fed;
ghost use Rattle.std.specs.Ordering.{nat_cmp};
ghost use Rattle.kit.specs.Fronts.{IsFront};
ghost use Rattle.std.proofs.Common.{rules, refl};

use crate::memory::Memory;
use std::alloc::{AllocError, Global};
use std::cmp::Ordering;
use std::hash::{Hash, Hasher};
use std::marker::Model;
use std::rc::Rc;

/// A list of bytes of any length, compared byte by byte. All copies share one place in memory, so to keep an id in many
/// tables costs little more than to keep it in one. What is built over it, as `Id`, derives its traits.
#[derive(Debug, Drop)]
pub struct Bytes {
    // By it most comparisons are settled, without a look at the bytes.
    front: u64,
    items: Rc<Vec<u8>>,
}

impl Model for Bytes {
    ghost use Rattle.std.specs.Prelude.{ℕ, List};
    ghost use Rattle.kit.specs.Fronts.{IsFront};

    ghost Value = { List ℕ };

    ghost view = { λ bytes. bytes.items.value.items };

    ghost invariant = { λ bytes. IsFront bytes.front bytes.items.value.items };
}

/// The byte at an index, and 0 where there is none.
fn byte_at(bytes: &[u8], index: usize) -> u8
    ensures { result ≡ get_or bytes.now index 0 }
{
    match bytes.get(index) {
        Some(byte) => *byte,
        None => 0,
    }
}

/// The first eight bytes as a number, the first of them the highest, with zeros where there are fewer.
fn front_of(bytes: &[u8]) -> u64
    ensures { IsFront result bytes.now }
{
    let mut front = 0;
    for index in 0..8 {
        front = front * 256 + u64::from(byte_at(bytes, index));
    }
    front
}

impl Bytes {
    /// A copy of the bytes. Takes memory; `Err` only when it runs out.
    pub fn from_slice(alloc: Global, bytes: &[u8]) -> Result<Self, Memory>
        ensures { IfOk result (λ copy. copy ≡ bytes.now) }
    {
        Bytes::from_vec(alloc, Vec::from_slice(alloc, bytes)?)
    }

    /// The bytes of a `Vec`, which are not copied. Takes memory; `Err` only when it runs out.
    pub fn from_vec(alloc: Global, items: Vec<u8>) -> Result<Self, Memory>
        ensures { IfOk result (λ made. made ≡ items.items) }
    {
        let front = front_of(&items);
        let items = Rc::new(alloc, items)?;
        Ok(Bytes { front, items })
    }

    /// The bytes themselves. Takes no memory.
    pub fn bytes(&self) -> &[u8]
        ensures { result.now ≡ self.now }
    {
        self.items.as_slice()
    }

    /// A copy, which shares the bytes. Takes no memory; `Err` only where no more copies can be counted.
    pub fn copy(&self) -> Result<Self, Memory>
        ensures { IfOk result (λ copy. copy ≡ self.now) }
    {
        Ok(self.clone()?)
    }
}

impl Clone for Bytes {
    ghost is_clone = { λ a b. b ≡ a };

    fn clone(&self) -> Result<Self, AllocError> {
        let items = self.items.clone()?;
        Ok(Bytes {
            front: self.front,
            items,
        })
    }
}

impl PartialEq for Bytes {
    ghost eq = { pointwise ◌==◌ };

    ghost laws = { partial_equiv_from_equiv nat_list_eq_equiv };

    fn eq(&self, other: &Self) -> bool {
        self.front == other.front && self.items == other.items
    }
}

impl Eq for Bytes {
    ghost laws = { nat_list_eq_equiv };
}

impl PartialOrd for Bytes {
    ghost partial_cmp = { λ a b. Some (slice_cmp nat_cmp a b) };

    ghost laws = { texts_po };

    fn partial_cmp(&self, other: &Self) -> Option<Ordering> {
        Some(self.cmp(other))
    }
}

impl Ord for Bytes {
    ghost cmp = { slice_cmp nat_cmp };

    ghost total = { nat_list_cmp_total };

    ghost matches_partial_cmp = { λ a b. refl };

    ghost matches_eq = { texts_ties };

    fn cmp(&self, other: &Self) -> Ordering {
        match self.front.cmp(&other.front) {
            Ordering::Equal => self.items.cmp(&other.items),
            different => different,
        }
    }
}

impl Hash for Bytes {
    ghost hash_input = { fed.slice fed.u8 };

    ghost respects_eq = { Prim.search (hashing, rules) };

    fn hash<H: Hasher>(&self, state: &mut H) {
        self.items.hash(state);
    }
}
