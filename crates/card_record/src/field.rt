//! The values of a record, read.
ghost use Rattle.std.specs.Prelude.{◌≡◌, ◌≤◌, List, ℕ, IfOk};
ghost use Rattle.std.specs.Str.{is_utf8};
ghost use Rattle.kit.specs.Addresses.{is_addr};
ghost use Rattle.kit.specs.Ids.{is_id};
ghost use Rattle.kit.specs.Moments.{last_moment};
ghost use Rattle.kit.specs.Reading.{read_as};
ghost use Rattle.card_type.specs.Groups.{is_group};
ghost use Rattle.std.specs.Char.{is_ascii_uppercase};
ghost use Rattle.std.specs.List.{list_any};
ghost use Rattle.card_record.specs.Reading.{Moves, Read, flag_at, block_of, opt_of, moment_at, is_text_within};

use crate::fault::ReadFault;
use crate::rest::Rest;
use card_type::GroupId;
use kit::{Addr, Id, LAST_MOMENT, Memory, Text};
use std::alloc::Global;
use std::str;

/// A type whose values are read from a record.
pub trait Field {
    /// How the bytes read from their front on.
    ghost at: { List ℕ → Read Self };

    /// Takes the value that is at the front. Takes memory; `Malformed` with the number of bytes that were left where the
    /// first field begins that is short or breaks its rule.
    fn read(alloc: Global, rest: &mut Rest<'_>) -> Result<Self, ReadFault>
        ensures { Moves (λ x. x) result (at rest.old) rest.new };
}

/// The bytes as a text: `None` exactly where they are not UTF-8.
#[tactic(auto, using(crate::proofs::Texts::read_as_text, crate::proofs::Texts::read_as_none))]
fn as_text(alloc: Global, bytes: &[u8]) -> Result<Option<Text>, Memory>
    ensures { IfOk result (λ read. read ≡ read_as is_utf8 bytes.now) }
{
    match str::from_utf8(bytes) {
        Ok(text) => Ok(Some(Text::from(String::from_str(alloc, text)?))),
        Err(_) => Ok(None),
    }
}

fn has_capital(bytes: &[u8]) -> bool
    ensures { result ≡ list_any is_ascii_uppercase bytes.now }
{
    bytes.iter().any(|b| b.is_ascii_uppercase())
}

/// The bytes as an address where they are one as they are: `Addr::read` alone would lower their letters.
fn as_addr(alloc: Global, bytes: &[u8]) -> Result<Option<Addr>, Memory>
    ensures { IfOk result (λ read. read ≡ read_as is_addr bytes.now) }
{
    if has_capital(bytes) {
        return Ok(None);
    }
    Addr::read(alloc, bytes)
}

#[tactic(auto, unfolding(crate::specs::Reading::block_of))]
impl Field for Id {
    ghost at = { block_of is_id };

    fn read(alloc: Global, rest: &mut Rest<'_>) -> Result<Self, ReadFault> {
        let left = rest.len();
        let block = rest.block()?;
        match Id::read(alloc, block)? {
            Some(id) => Ok(id),
            None => Err(ReadFault::Malformed(left)),
        }
    }
}

#[tactic(auto, unfolding(crate::specs::Reading::block_of))]
impl Field for Addr {
    ghost at = { block_of is_addr };

    fn read(alloc: Global, rest: &mut Rest<'_>) -> Result<Self, ReadFault> {
        let left = rest.len();
        let block = rest.block()?;
        match as_addr(alloc, block)? {
            Some(addr) => Ok(addr),
            None => Err(ReadFault::Malformed(left)),
        }
    }
}

#[tactic(auto, unfolding(crate::specs::Reading::block_of))]
impl Field for GroupId {
    ghost at = { block_of is_group };

    fn read(alloc: Global, rest: &mut Rest<'_>) -> Result<Self, ReadFault> {
        let left = rest.len();
        let block = rest.block()?;
        match GroupId::read(alloc, block)? {
            Some(group) => Ok(group),
            None => Err(ReadFault::Malformed(left)),
        }
    }
}

#[tactic(auto, unfolding(crate::specs::Reading::block_of))]
impl Field for Text {
    ghost at = { block_of is_utf8 };

    fn read(alloc: Global, rest: &mut Rest<'_>) -> Result<Self, ReadFault> {
        let left = rest.len();
        let block = rest.block()?;
        match as_text(alloc, block)? {
            Some(text) => Ok(text),
            None => Err(ReadFault::Malformed(left)),
        }
    }
}

/// Takes a text of `least` to `most` bytes.
#[tactic(auto, unfolding(crate::specs::Reading::block_of))]
pub fn read_text_within(
    alloc: Global,
    least: usize,
    most: usize,
    rest: &mut Rest<'_>,
) -> Result<Text, ReadFault>
    ensures { Moves (λ x. x) result (block_of (is_text_within least most) rest.old) rest.new }
{
    let left = rest.len();
    let block = rest.block()?;
    if block.len() < least || most < block.len() {
        return Err(ReadFault::Malformed(left));
    }
    match as_text(alloc, block)? {
        Some(text) => Ok(text),
        None => Err(ReadFault::Malformed(left)),
    }
}

/// Takes a moment, in seconds since 1970-01-01 00:00:00 UTC. Takes no memory.
#[tactic(auto, unfolding(crate::specs::Reading::moment_at))]
pub fn read_moment(rest: &mut Rest<'_>) -> Result<u64, ReadFault>
    ensures moment { Moves (λ x. x) result (moment_at rest.old) rest.new }
    ensures late { IfOk result (λ x. x ≤ last_moment) }
{
    let left = rest.len();
    let moment = rest.b64()?;
    if moment > LAST_MOMENT {
        return Err(ReadFault::Malformed(left));
    }
    Ok(moment)
}

/// Takes a flag: a byte that is 0 or 1.
#[tactic(auto, unfolding(crate::specs::Reading::flag_at))]
pub fn read_flag(rest: &mut Rest<'_>) -> Result<bool, ReadFault>
    ensures { Moves (λ x. x) result (flag_at rest.old) rest.new }
{
    let left = rest.len();
    match rest.b8()? {
        0 => Ok(false),
        1 => Ok(true),
        _ => Err(ReadFault::Malformed(left)),
    }
}

/// Takes a value that may be missing, after a flag that says whether it is present. Takes memory.
#[tactic(auto, unfolding(crate::specs::Reading::opt_of, crate::specs::Reading::flag_at))]
pub fn read_opt<T: Field>(alloc: Global, rest: &mut Rest<'_>) -> Result<Option<T>, ReadFault>
    ensures { Moves (λ x. x) result (opt_of T.at rest.old) rest.new }
{
    if !read_flag(rest)? {
        return Ok(None);
    }
    Ok(Some(T::read(alloc, rest)?))
}

/// Takes a moment that may be missing, after a flag that says whether it is present.
#[tactic(auto, unfolding(crate::specs::Reading::opt_of))]
pub fn read_opt_moment(rest: &mut Rest<'_>) -> Result<Option<u64>, ReadFault>
    ensures { Moves (λ x. x) result (opt_of moment_at rest.old) rest.new }
{
    if !read_flag(rest)? {
        return Ok(None);
    }
    Ok(Some(read_moment(rest)?))
}
