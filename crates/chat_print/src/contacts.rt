//! The text of the contacts.
ghost use Rattle.std.specs.Prelude.{◌≡◌, ◌++◌, IfOk, OnOk, string_bytes};
ghost use Rattle.mailbox_model.specs.Printed.{contact_line, contacts_text};

use crate::fields::{push_addr, push_field};
use kit::Memory;
use mailbox_model::ContactRow;
use std::alloc::Global;

/// Appends the line of a contact.
fn push_contact(text: &mut String, row: &ContactRow) -> Result<(), Memory>
    ensures { OnOk result (string_bytes text.new ≡ string_bytes text.old ++ contact_line row.now) }
{
    push_addr(text, &row.addr)?;
    text.push_str(" | ")?;
    push_field(text, row.name.as_str())?;
    text.push('\n')?;
    Ok(())
}

/// The text of the contacts. Takes memory; `Err` only when it runs out.
pub fn contacts_text(alloc: Global, rows: &[ContactRow]) -> Result<String, Memory>
    ensures { IfOk result (λ text. string_bytes text ≡ contacts_text rows.now) }
{
    let mut text = String::new(alloc);
    for row in rows {
        push_contact(&mut text, row)?;
    }
    Ok(text)
}
