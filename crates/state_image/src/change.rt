//! Changes as bytes.
ghost use Rattle.std.specs.Prelude.{◌≡◌, ◌≤◌, ◌++◌, length, IfOk, OnOk, OnErr};
ghost use Rattle.mailbox_model.specs.Mailbox.{IsValidChange};
ghost use Rattle.card_record.specs.Reading.{Moves};
ghost use Rattle.state_image.specs.Changes.{change_at, change_from, change_spelled, fault_at, GivesChange, IsSpelledAt};

use crate::fault::ImageFault;
use crate::fault_code::{code_of, fault_of};
use crate::offset::{fault_in, rest_from};
use card_record::{ReadFault, Rest, Written, read_moment, read_record, write_record};
use kit::Memory;
use mailbox_model::{Change, Fault};
use std::alloc::Global;

/// Appends the spelling of a change to bytes, in place. Takes memory; `Err` only when it runs out, and then nothing is
/// promised of the bytes.
pub fn append_change(change: &Change, out: &mut Vec<u8>) -> Result<(), Memory>
    ensures { OnOk result (out.new.items ≡ out.old.items ++ change_spelled change.now) }
{
    match change {
        Change::Arrive(card) => {
            out.push(1)?;
            write_record(out, card)
        }
        Change::ArriveFault(fault) => {
            out.push(2)?;
            out.push(code_of(*fault))?;
            Ok(())
        }
        Change::Expunge(uid) => {
            out.push(3)?;
            uid.write(out)
        }
        Change::Seen(uid) => {
            out.push(4)?;
            uid.write(out)
        }
        Change::At(moment) => {
            out.push(5)?;
            moment.write(out)
        }
    }
}

/// Appends the spelling of a change to bytes. Takes memory; `Err` only when it runs out, and then the bytes are as
/// before.
pub fn write_change(change: &Change, out: &mut Vec<u8>) -> Result<(), Memory>
    requires { IsValidChange change.now }
    ensures ok { OnOk result (out.new.items ≡ out.old.items ++ change_spelled change.now) }
    ensures err { OnErr result (out.new.items ≡ out.old.items) }
{
    // Written apart, so that no part of it stays where memory runs out.
    let mut spelled = Vec::new(*out.allocator());
    append_change(change, &mut spelled)?;
    out.extend_from_slice(&spelled)?;
    Ok(())
}

/// The reason why a mail has no card.
#[tactic(auto, unfolding(crate::specs::Changes::fault_at))]
fn read_fault(rest: &mut Rest<'_>) -> Result<Fault, ReadFault>
    ensures { Moves (λ x. x) result (fault_at rest.old) rest.new }
{
    let left = rest.len();
    let code = rest.b8()?;
    fault_of(code).ok_or(ReadFault::Malformed(left))
}

/// Takes a change. `Malformed` exactly where a field is short or breaks its rule, with the number of bytes that were left
/// where the first such field begins. Takes memory for a card.
#[tactic(auto, unfolding(crate::specs::Changes::change_at))]
pub fn take_change(alloc: Global, rest: &mut Rest<'_>) -> Result<Change, ReadFault>
    ensures { Moves (λ x. x) result (change_at rest.old) rest.new }
{
    let left = rest.len();
    match rest.b8()? {
        1 => Ok(Change::Arrive(read_record(alloc, rest)?)),
        2 => Ok(Change::ArriveFault(read_fault(rest)?)),
        3 => Ok(Change::Expunge(rest.b32()?)),
        4 => Ok(Change::Seen(rest.b32()?)),
        5 => Ok(Change::At(read_moment(rest)?)),
        _ => Err(ReadFault::Malformed(left)),
    }
}

/// The change that begins at an offset of the bytes, and the offset after it. `Malformed` exactly where a field is short
/// or breaks its rule, with the offset of the first such field; never `Version`. Takes memory for a card.
pub fn read_change(alloc: Global, bytes: &[u8], at: usize) -> Result<(Change, usize), ImageFault>
    requires { at ≤ length bytes.now }
    ensures gives { GivesChange result (change_from bytes.now at) }
    ensures valid { IfOk result (λ read. IsValidChange read.0) }
    ensures spelled { IfOk result (λ read. IsSpelledAt bytes.now at (change_spelled read.0) read.1) }
{
    let mut rest = rest_from(bytes, at);
    match take_change(alloc, &mut rest) {
        Ok(change) => Ok((change, bytes.len().saturating_sub(rest.len()))),
        Err(fault) => Err(fault_in(bytes.len(), fault)),
    }
}
