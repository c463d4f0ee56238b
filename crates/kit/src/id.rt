//! Message ids.
ghost use Rattle.std.specs.Prelude.{◌≡◌, ℕ, List, IfOk, IsTrue};
ghost use Rattle.std.specs.List.{list_all};
ghost use Rattle.kit.specs.Ids.{is_id, is_id_byte};
ghost use Rattle.kit.specs.Reading.{read_as};

use crate::bytes::Bytes;
use crate::memory::Memory;
use std::alloc::Global;
use std::marker::Model;

/// No id is longer than a line may be (RFC 5322, section 2.1.1).
const MAX_LEN: usize = 998;

/// A message id without its angle brackets: 1 to 998 bytes from 33 to 126, none of them `<` or `>`
/// (RFC 5322, section 3.6.4). Compared byte by byte, so the case of letters counts.
#[derive(Clone, Debug, PartialEq, Eq, PartialOrd, Ord, Hash, Drop)]
pub struct Id {
    bytes: Bytes,
}

impl Model for Id {
    ghost Value = { List ℕ };

    ghost view = { λ id. id.bytes };

    ghost invariant = { λ id. IsTrue (is_id id.bytes) };

    ghost inverse = { λ bytes. record { bytes = bytes } };
}

fn are_id_bytes(bytes: &[u8]) -> bool
    ensures { result ≡ list_all is_id_byte bytes.now }
{
    bytes
        .iter()
        .all(|b| b.is_ascii_graphic() && !b"<>".contains(b))
}

fn is_id(bytes: &[u8]) -> bool
    ensures { result ≡ is_id bytes.now }
{
    1 <= bytes.len() && bytes.len() <= MAX_LEN && are_id_bytes(bytes)
}

impl Id {
    /// The bytes as an id: `None` exactly where they are none (RFC 5322, section 3.6.4). Takes memory
    /// for an id; `Err` only when it runs out.
    pub fn read(alloc: Global, bytes: &[u8]) -> Result<Option<Self>, Memory>
        ensures { IfOk result (λ read. read ≡ read_as is_id bytes.now) }
    {
        if !is_id(bytes) {
            return Ok(None);
        }
        let bytes = Bytes::from_slice(alloc, bytes)?;
        Ok(Some(Id { bytes }))
    }

    /// The bytes of the id, without brackets. Takes no memory.
    pub fn bytes(&self) -> &[u8]
        ensures same { result.now ≡ self.now }
        ensures id { IsTrue (is_id self.now) }
    {
        self.bytes.bytes()
    }

    /// A copy of the id, which shares its bytes. Takes no memory; `Err` only where no more copies can be counted.
    pub fn copy(&self) -> Result<Self, Memory>
        ensures { IfOk result (λ copy. copy ≡ self.now) }
    {
        Ok(self.clone()?)
    }
}
