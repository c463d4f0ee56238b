//! The record of a card, written.
ghost use Rattle.std.specs.Prelude.{◌≡◌, ◌++◌, ℕ, List, OnOk, flat_map, is_some};
ghost use Rattle.std.specs.List.{concat};
ghost use Rattle.card_type.specs.Records as records;

use card_type::{Attachment, Card, GroupId, Payload, Update};
use kit::{Addr, Id, Memory, Text};
use lists::Items;

/// A type whose values have a spelling in a record.
pub trait Written {
    /// Its bytes.
    ghost spelled: { Self → List ℕ };

    /// Appends its spelling. Takes memory; `Err` only when it runs out, and then nothing is promised of the bytes.
    fn write(&self, out: &mut Vec<u8>) -> Result<(), Memory>
        ensures { OnOk result (out.new.items ≡ out.old.items ++ spelled self.now) };
}

/// Appends a number of one byte.
fn write_b8(out: &mut Vec<u8>, n: u8) -> Result<(), Memory>
    ensures { OnOk result (out.new.items ≡ out.old.items ++ records.b8 n) }
{
    out.push(n)?;
    Ok(())
}

/// Appends a count in four bytes, which are enough for every count in a valid card and in a mailbox: of a greater one only
/// the lowest four are written. Takes memory; `Err` only when it runs out.
pub fn write_count(out: &mut Vec<u8>, count: usize) -> Result<(), Memory>
    ensures { OnOk result (out.new.items ≡ out.old.items ++ records.b32 count) }
{
    out.extend_from_slice(&count.to_be_bytes()[4..])?;
    Ok(())
}

/// Appends bytes, after their number. Takes memory; `Err` only when it runs out.
pub fn write_block(out: &mut Vec<u8>, bytes: &[u8]) -> Result<(), Memory>
    ensures { OnOk result (out.new.items ≡ out.old.items ++ records.block bytes.now) }
{
    write_count(out, bytes.len())?;
    out.extend_from_slice(bytes)?;
    Ok(())
}

impl Written for Text {
    ghost spelled = { records.block };

    fn write(&self, out: &mut Vec<u8>) -> Result<(), Memory> {
        write_block(out, self.bytes())
    }
}

impl Written for Id {
    ghost spelled = { records.block };

    fn write(&self, out: &mut Vec<u8>) -> Result<(), Memory> {
        write_block(out, self.bytes())
    }
}

impl Written for Addr {
    ghost spelled = { records.block };

    fn write(&self, out: &mut Vec<u8>) -> Result<(), Memory> {
        write_block(out, self.bytes())
    }
}

impl Written for GroupId {
    ghost spelled = { records.block };

    fn write(&self, out: &mut Vec<u8>) -> Result<(), Memory> {
        write_block(out, self.bytes())
    }
}

impl Written for bool {
    ghost spelled = { records.flag };

    fn write(&self, out: &mut Vec<u8>) -> Result<(), Memory> {
        write_b8(out, if *self { 1 } else { 0 })
    }
}

impl Written for u32 {
    ghost spelled = { records.b32 };

    fn write(&self, out: &mut Vec<u8>) -> Result<(), Memory> {
        out.extend_from_slice(&self.to_be_bytes())?;
        Ok(())
    }
}

impl Written for u64 {
    ghost spelled = { records.b64 };

    fn write(&self, out: &mut Vec<u8>) -> Result<(), Memory> {
        out.extend_from_slice(&self.to_be_bytes())?;
        Ok(())
    }
}

impl<T: Written> Written for Option<T> {
    ghost spelled = { records.opt T.spelled };

    fn write(&self, out: &mut Vec<u8>) -> Result<(), Memory> {
        match self {
            Some(value) => {
                write_b8(out, 1)?;
                value.write(out)
            }
            None => write_b8(out, 0),
        }
    }
}

/// Appends the values, one after the other.
fn write_values<T: Written>(out: &mut Vec<u8>, values: &[T]) -> Result<(), Memory>
    ensures { OnOk result (out.new.items ≡ out.old.items ++ flat_map T.spelled values.now) }
{
    for value in values {
        value.write(out)?;
    }
    Ok(())
}

impl<T: Written> Written for Items<T> {
    ghost spelled = { records.list T.spelled };

    fn write(&self, out: &mut Vec<u8>) -> Result<(), Memory> {
        write_count(out, self.len())?;
        write_values(out, self.as_slice())
    }
}

impl Written for Attachment {
    ghost spelled = { records.attachment };

    fn write(&self, out: &mut Vec<u8>) -> Result<(), Memory> {
        self.kind.write(out)?;
        self.name.write(out)?;
        self.size.write(out)
    }
}

impl Written for Payload {
    ghost spelled = { records.payload };

    fn write(&self, out: &mut Vec<u8>) -> Result<(), Memory> {
        match self {
            Payload::Absent => write_b8(out, 0),
            Payload::Json(text) => {
                write_b8(out, 1)?;
                text.write(out)
            }
            Payload::Hidden => write_b8(out, 2),
        }
    }
}

impl Written for Update {
    ghost spelled = { records.update };

    fn write(&self, out: &mut Vec<u8>) -> Result<(), Memory> {
        self.payload.write(out)?;
        self.info.write(out)?;
        self.document.write(out)?;
        self.summary.write(out)
    }
}

fn write_envelope(out: &mut Vec<u8>, card: &Card) -> Result<(), Memory>
    ensures { OnOk result (out.new.items ≡ out.old.items ++ concat (records.envelope card.now)) }
{
    card.id.write(out)?;
    card.from.write(out)?;
    card.from_name.write(out)?;
    card.to.write(out)?;
    card.cc.write(out)?;
    card.date.write(out)?;
    card.replies.write(out)?;
    card.references.write(out)?;
    Ok(())
}

fn write_requests(out: &mut Vec<u8>, card: &Card) -> Result<(), Memory>
    ensures { OnOk result (out.new.items ≡ out.old.items ++ concat (records.requests card.now)) }
{
    card.chat.write(out)?;
    card.group.write(out)?;
    card.group_name.write(out)?;
    card.added.write(out)?;
    card.removed.write(out)?;
    card.renamed.write(out)?;
    card.edit.write(out)?;
    card.deletes.write(out)?;
    card.timer.write(out)?;
    Ok(())
}

/// The code that says whether there is an app, and whether a reaction stands at the end.
fn app_code(app: bool, reaction: bool) -> u8
    ensures { result ≡ records.app_code app reaction }
{
    match (app, reaction) {
        (false, false) => 0,
        (true, false) => 1,
        (false, true) => 2,
        (true, true) => 3,
    }
}

/// Appends that code.
fn write_code(out: &mut Vec<u8>, card: &Card) -> Result<(), Memory>
    ensures { OnOk result (out.new.items ≡ out.old.items ++ records.b8 (records.app_code card.now.app (is_some card.now.reaction))) }
{
    write_b8(out, app_code(card.app, card.reaction.is_some()))
}

/// Appends a reaction where there is one, and else nothing.
fn write_reaction(out: &mut Vec<u8>, reaction: &Option<Text>) -> Result<(), Memory>
    ensures { OnOk result (out.new.items ≡ out.old.items ++ records.reaction reaction.now) }
{
    match reaction {
        Some(text) => text.write(out),
        None => Ok(()),
    }
}

fn write_shown(out: &mut Vec<u8>, card: &Card) -> Result<(), Memory>
    ensures { OnOk result (out.new.items ≡ out.old.items ++ concat (records.shown card.now)) }
{
    card.subject.write(out)?;
    card.text.write(out)?;
    card.cut.write(out)?;
    card.attachments.write(out)?;
    card.receipt.write(out)?;
    write_code(out, card)?;
    card.updates.write(out)?;
    write_reaction(out, &card.reaction)?;
    Ok(())
}

/// Appends the record of a card. Takes memory; `Err` only when it runs out, and then nothing is promised of the bytes.
pub fn write_record(out: &mut Vec<u8>, card: &Card) -> Result<(), Memory>
    ensures { OnOk result (out.new.items ≡ out.old.items ++ records.record_of card.now) }
{
    write_envelope(out, card)?;
    write_requests(out, card)?;
    write_shown(out, card)
}
