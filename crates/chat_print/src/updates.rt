//! The text of the updates of an app.
ghost use Rattle.std.specs.Prelude.{◌≡◌, ◌++◌, IfOk, OnOk, codes, string_bytes};
ghost use Rattle.mailbox_model.specs.Printed.{part_text, payload_text, update_line, updates_text};

use crate::fields::{push_addr, push_field};
use card_type::{Payload, Update};
use kit::{Memory, Text};
use mailbox_model::UpdateRow;
use std::alloc::Global;

/// Appends the payload of an update, where it has one.
fn push_payload(text: &mut String, payload: &Payload) -> Result<(), Memory>
    ensures { OnOk result (string_bytes text.new ≡ string_bytes text.old ++ payload_text payload.now) }
{
    match payload {
        Payload::Absent => Ok(()),
        Payload::Json(value) => {
            text.push_str(" | payload ")?;
            push_field(text, value.as_str())
        }
        Payload::Hidden => Ok(text.push_str(" | payload hidden")?),
    }
}

/// Appends a part of an update after what it is, where there is one.
fn push_part(text: &mut String, what: &str, part: &Option<Text>) -> Result<(), Memory>
    ensures { OnOk result (string_bytes text.new ≡ string_bytes text.old ++ part_text what.now part.now) }
{
    match part {
        Some(value) => {
            write!(text, " | {what} ")?;
            push_field(text, value.as_str())
        }
        None => Ok(()),
    }
}

/// Appends what an update has.
fn push_parts(text: &mut String, update: &Update) -> Result<(), Memory>
    ensures { OnOk result (string_bytes text.new ≡ string_bytes text.old ++ (payload_text update.now.payload
        ++ part_text (codes "info") update.now.info ++ part_text (codes "document") update.now.document
        ++ part_text (codes "summary") update.now.summary)) }
{
    push_payload(text, &update.payload)?;
    push_part(text, "info", &update.info)?;
    push_part(text, "document", &update.document)?;
    push_part(text, "summary", &update.summary)
}

/// Appends the line of an update, where the app has so many.
fn push_row(text: &mut String, max: u32, row: &UpdateRow) -> Result<(), Memory>
    ensures { OnOk result (string_bytes text.new ≡ string_bytes text.old ++ update_line max row.now) }
{
    write!(text, "{}/{} ", row.serial, max)?;
    push_addr(text, &row.from)?;
    push_parts(text, &row.update)?;
    text.push('\n')?;
    Ok(())
}

/// The text of the updates, where the app has so many. Takes memory; `Err` only when it runs out.
pub fn updates_text(alloc: Global, max: u32, rows: &[UpdateRow]) -> Result<String, Memory>
    ensures { IfOk result (λ text. string_bytes text ≡ updates_text max rows.now) }
{
    let mut text = String::new(alloc);
    for row in rows {
        push_row(&mut text, max, row)?;
    }
    Ok(text)
}
