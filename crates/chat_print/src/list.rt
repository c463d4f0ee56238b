//! The text of the list of chats.
ghost use Rattle.std.specs.Prelude.{◌≡◌, ◌++◌, IfOk, OnOk, IfSome, flat_map, string_bytes};
ghost use Rattle.mailbox_model.specs.Printed.{fault_line, fault_text, last_text, list_line, list_text};
ghost use Rattle.chat_print.specs.Moments.{HasMoment, IsMoment, ListHasMoments};

use crate::fields::{push_field, push_key, push_short};
use crate::times::push_time;
use kit::Memory;
use mailbox_model::{Fault, FaultRow, ListPage, ListRow};
use std::alloc::Global;

/// Appends TIME and BODY, of the last row that is shown.
fn push_last(text: &mut String, time: Option<u64>, body: &str) -> Result<(), Memory>
    requires { IfSome time IsMoment }
    ensures { OnOk result (string_bytes text.new ≡ string_bytes text.old ++ last_text time body.now) }
{
    match time {
        Some(time) => {
            push_time(text, time)?;
            text.push_str(" | ")?;
            push_short(text, body)
        }
        None => Ok(text.push_str("- | -")?),
    }
}

/// Appends the line of a chat.
fn push_row(alloc: Global, text: &mut String, row: &ListRow) -> Result<(), Memory>
    requires { HasMoment row.now }
    ensures { OnOk result (string_bytes text.new ≡ string_bytes text.old ++ list_line row.now) }
{
    push_key(alloc, text, &row.key)?;
    text.push_str(" | ")?;
    push_field(text, row.name.as_str())?;
    write!(text, " | fresh {} | ", row.fresh)?;
    push_last(text, row.time, row.body.as_str())?;
    text.push('\n')?;
    Ok(())
}

fn fault_text(fault: Fault) -> &'static str
    ensures { result.now ≡ fault_text fault }
{
    match fault {
        Fault::NoFields => "no fields",
        Fault::NoFrom => "no From",
        Fault::CardTooLong => "card too long",
        Fault::TooLong => "mail too long",
    }
}

/// Appends the lines of the mails that have no card.
fn push_faults(text: &mut String, faults: &[FaultRow]) -> Result<(), Memory>
    ensures { OnOk result (string_bytes text.new ≡ string_bytes text.old ++ flat_map fault_line faults.now) }
{
    for row in faults {
        write!(text, "fault {} {}\n", row.uid, fault_text(row.fault))?;
    }
    Ok(())
}

/// The text of the list. Takes memory; `Err` only when it runs out.
pub fn list_text(alloc: Global, page: &ListPage) -> Result<String, Memory>
    requires { ListHasMoments page.now }
    ensures { IfOk result (λ text. string_bytes text ≡ list_text page.now) }
{
    let mut text = String::new(alloc);
    for row in page.rows.as_slice() {
        push_row(alloc, &mut text, row)?;
    }
    push_faults(&mut text, page.faults.as_slice())?;
    Ok(text)
}
