//! Mail addresses.
ghost use Rattle.std.specs.Prelude.{◌≡◌, ℕ, List, IfOk, IsTrue, false};
ghost use Rattle.std.specs.List.{list_all};
ghost use Rattle.kit.specs.Addresses.{is_addr, is_addr_byte, has_inner_at, has_inner_colons};
ghost use Rattle.kit.specs.Letters.{lowered};
ghost use Rattle.kit.specs.Reading.{read_as};

use crate::bytes::Bytes;
use crate::letters::lower;
use crate::memory::Memory;
use std::alloc::Global;
use std::marker::Model;
use std::{fmt, str};

/// No address is shorter: a byte on either side of the `@`.
const MIN_LEN: usize = 3;
/// No address is longer than a path without its angle brackets (RFC 5321, section 4.5.3.1.3).
const MAX_LEN: usize = 254;

/// A mail address (RFC 5322, section 3.4.1) in small letters: 3 to 254 bytes from 33 to 126, none of
/// them a capital letter or one of `<>(),;"`, with exactly one `@`, which is neither first nor last,
/// and a `:` only inside brackets `[..]`. Compared byte by byte. Hosts may tell `Bob@x.org` and
/// `bob@x.org` apart (RFC 5321, section 2.4); here they are one address.
#[derive(Clone, Debug, PartialEq, Eq, PartialOrd, Ord, Hash, Drop)]
pub struct Addr {
    bytes: Bytes,
}

impl Model for Addr {
    ghost Value = { List ℕ };

    ghost view = { λ addr. addr.bytes };

    ghost invariant = { λ addr. IsTrue (is_addr addr.bytes) };

    ghost inverse = { λ bytes. record { bytes = bytes } };
}

fn are_addr_bytes(bytes: &[u8]) -> bool
    ensures { result ≡ list_all is_addr_byte bytes.now }
{
    bytes.iter().all(|b| b.is_ascii_graphic()
        && !b.is_ascii_uppercase()
        && !b"<>(),;\"".contains(b))
}

fn has_inner_at(bytes: &[u8]) -> bool
    ensures { result ≡ has_inner_at bytes.now }
{
    bytes.iter().filter(|b| **b == b'@').count() == 1
        && !bytes.starts_with(b"@")
        && !bytes.ends_with(b"@")
}

/// Whether each `:` is inside brackets, where a `[` that is never closed runs to the end.
fn has_inner_colons(bytes: &[u8]) -> bool
    ensures { result ≡ has_inner_colons false bytes.now }
{
    let mut inside = false;
    for b in bytes {
        if !inside && *b == b':' {
            return false;
        }
        inside = *b == b'[' || inside && *b != b']';
    }
    true
}

fn is_addr(bytes: &[u8]) -> bool
    ensures { result ≡ is_addr bytes.now }
{
    MIN_LEN <= bytes.len()
        && bytes.len() <= MAX_LEN
        && are_addr_bytes(bytes)
        && has_inner_at(bytes)
        && has_inner_colons(bytes)
}

impl Addr {
    /// The bytes, with ASCII letters lowered, as an address: `None` exactly where they are none (RFC
    /// 5322, section 3.4.1). Takes memory; `Err` only when it runs out.
    pub fn read(alloc: Global, bytes: &[u8]) -> Result<Option<Self>, Memory>
        ensures { IfOk result (λ read. read ≡ read_as is_addr (lowered bytes.now)) }
    {
        let mut items = Vec::from_slice(alloc, bytes)?;
        lower(&mut items);
        if !is_addr(&items) {
            return Ok(None);
        }
        let bytes = Bytes::from_vec(alloc, items)?;
        Ok(Some(Addr { bytes }))
    }

    /// The bytes of the address, in small letters. Takes no memory.
    pub fn bytes(&self) -> &[u8]
        ensures same { result.now ≡ self.now }
        ensures addr { IsTrue (is_addr self.now) }
    {
        self.bytes.bytes()
    }

    /// The address as a `str`. Takes no memory.
    pub fn as_str(&self) -> &str
        ensures { result.now ≡ self.now }
    {
        str::from_utf8(self.bytes()).unwrap()
    }

    /// A copy of the address, which shares its bytes. Takes no memory; `Err` only where no more copies can be counted.
    pub fn copy(&self) -> Result<Self, Memory>
        ensures { IfOk result (λ copy. copy ≡ self.now) }
    {
        Ok(self.clone()?)
    }
}

impl fmt::Display for Addr {
    ghost use Rattle.std.specs.Prelude.{Some};

    ghost output = { λ addr. Some addr };

    fn fmt<W: fmt::Write>(&self, f: &mut fmt::Formatter<W>) -> fmt::Result {
        f.write_str(self.as_str())
    }
}
