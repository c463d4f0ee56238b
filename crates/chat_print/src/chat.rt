//! The text of a chat.
ghost use Rattle.std.specs.Prelude.{◌≡◌, [], ◌++◌, All, IfOk, OnOk, codes, flat_map, string_bytes};
ghost use Rattle.std.specs.List.{join_by};
ghost use Rattle.mailbox_model.specs.Bodies.{body};
ghost use Rattle.mailbox_model.specs.Printed.{field, file_line, mark_text, or_dash, reaction_line, reader_line, row_line, row_text, chat_text};
ghost use Rattle.chat_print.specs.Moments.{ChatHasMoments, IsMoment, ReaderHasMoment, RowHasMoments};

use crate::fields::{push_addr, push_field};
use crate::times::push_time;
use card_type::Attachment;
use chat_view::body_of;
use kit::{Addr, Memory, Text};
use mailbox_model::{ChatPage, Mark, Row};
use std::alloc::Global;

fn mark_text(mark: Mark) -> &'static str
    ensures { result.now ≡ mark_text mark }
{
    match mark {
        Mark::Out => "out",
        Mark::New => "new",
        Mark::Seen => "seen",
    }
}

/// Appends the body of a row as a field.
fn push_body(alloc: Global, text: &mut String, row: &Row) -> Result<(), Memory>
    ensures { OnOk result (string_bytes text.new ≡ string_bytes text.old ++ field (body row.now)) }
{
    let body = body_of(alloc, row)?;
    push_field(text, body.as_str())
}

/// Appends the first line of a row.
fn push_row_line(alloc: Global, text: &mut String, row: &Row) -> Result<(), Memory>
    requires { IsMoment row.now.date }
    ensures { OnOk result (string_bytes text.new ≡ string_bytes text.old ++ row_line row.now) }
{
    write!(text, "#{} ", row.uid)?;
    push_time(text, row.date)?;
    text.push(' ')?;
    push_addr(text, &row.from)?;
    write!(text, " {}: ", mark_text(row.mark))?;
    push_body(alloc, text, row)?;
    text.push('\n')?;
    Ok(())
}

fn or_dash(value: &str) -> &str
    ensures { result.now ≡ or_dash value.now }
{
    if value.is_empty() { "-" } else { value }
}

/// Appends the line of a file.
fn push_file(text: &mut String, file: &Attachment) -> Result<(), Memory>
    ensures { OnOk result (string_bytes text.new ≡ string_bytes text.old ++ file_line file.now) }
{
    text.push_str("  file ")?;
    push_field(text, file.kind.as_str())?;
    write!(text, " {} ", file.size)?;
    push_field(text, or_dash(file.name.as_str()))?;
    text.push('\n')?;
    Ok(())
}

/// Appends the lines of the files of a row.
fn push_files(text: &mut String, files: &[Attachment]) -> Result<(), Memory>
    ensures { OnOk result (string_bytes text.new ≡ string_bytes text.old ++ flat_map file_line files.now) }
{
    for file in files {
        push_file(text, file)?;
    }
    Ok(())
}

/// Appends the line of a reader.
fn push_reader(text: &mut String, reader: &(Addr, u64)) -> Result<(), Memory>
    requires { ReaderHasMoment reader.now }
    ensures { OnOk result (string_bytes text.new ≡ string_bytes text.old ++ reader_line reader.now) }
{
    text.push_str("  read by ")?;
    push_addr(text, &reader.0)?;
    text.push(' ')?;
    push_time(text, reader.1)?;
    text.push('\n')?;
    Ok(())
}

/// Appends the lines of the readers of a row.
fn push_readers(text: &mut String, readers: &[(Addr, u64)]) -> Result<(), Memory>
    requires { All ReaderHasMoment readers.now }
    ensures { OnOk result (string_bytes text.new ≡ string_bytes text.old ++ flat_map reader_line readers.now) }
{
    for reader in readers {
        push_reader(text, reader)?;
    }
    Ok(())
}

/// Appends the line of a reaction.
fn push_reaction(text: &mut String, reaction: &(Addr, Text)) -> Result<(), Memory>
    ensures { OnOk result (string_bytes text.new ≡ string_bytes text.old ++ reaction_line reaction.now) }
{
    text.push_str("  reaction ")?;
    push_addr(text, &reaction.0)?;
    text.push(' ')?;
    push_field(text, reaction.1.as_str())?;
    text.push('\n')?;
    Ok(())
}

/// Appends the lines of the reactions to a row.
fn push_reactions(text: &mut String, reactions: &[(Addr, Text)]) -> Result<(), Memory>
    ensures { OnOk result (string_bytes text.new ≡ string_bytes text.old ++ flat_map reaction_line reactions.now) }
{
    for reaction in reactions {
        push_reaction(text, reaction)?;
    }
    Ok(())
}

/// Appends the lines of a row: the row itself, its files, its readers, its reactions, and how many updates its app has.
fn push_row(alloc: Global, text: &mut String, row: &Row) -> Result<(), Memory>
    requires { RowHasMoments row.now }
    ensures { OnOk result (string_bytes text.new ≡ string_bytes text.old ++ row_text row.now) }
{
    push_row_line(alloc, text, row)?;
    push_files(text, row.attachments.as_slice())?;
    push_readers(text, row.readers.as_slice())?;
    push_reactions(text, row.reactions.as_slice())?;
    if row.app {
        write!(text, "  updates {}\n", row.updates.len())?;
    }
    Ok(())
}

/// Appends the members after the first one, each after a comma and a space.
fn push_others(text: &mut String, others: &[Addr]) -> Result<(), Memory>
    ensures { OnOk result (string_bytes text.new
        ≡ string_bytes text.old ++ field (flat_map (λ addr. codes ", " ++ addr) others.now)) }
{
    for addr in others {
        text.push_str(", ")?;
        push_addr(text, addr)?;
    }
    Ok(())
}

/// Appends the members as one field.
fn push_members(text: &mut String, members: &[Addr]) -> Result<(), Memory>
    ensures { OnOk result (string_bytes text.new
        ≡ string_bytes text.old ++ field (join_by (λ addr. addr) (codes ", ") members.now)) }
{
    match members {
        [first, others @ ..] => {
            push_addr(text, first)?;
            push_others(text, others)
        }
        [] => Ok(()),
    }
}

/// Appends a line of one field, after what it is.
fn push_line(text: &mut String, what: &str, value: &str) -> Result<(), Memory>
    ensures { OnOk result (string_bytes text.new ≡ string_bytes text.old ++ (what.now ++ field value.now ++ codes "\n")) }
{
    text.push_str(what)?;
    push_field(text, value)?;
    text.push('\n')?;
    Ok(())
}

/// Appends the line of the members.
fn push_member_line(text: &mut String, members: &[Addr]) -> Result<(), Memory>
    ensures { OnOk result (string_bytes text.new ≡ string_bytes text.old
        ++ (codes "members " ++ field (join_by (λ addr. addr) (codes ", ") members.now) ++ codes "\n")) }
{
    text.push_str("members ")?;
    push_members(text, members)?;
    text.push('\n')?;
    Ok(())
}

/// Appends the lines above the rows.
fn push_head(alloc: Global, text: &mut String, page: &ChatPage) -> Result<(), Memory>
    ensures { OnOk result (string_bytes text.new ≡ string_bytes text.old ++ chat_text (record page.now { rows = [] })) }
{
    let key = page.key.text(alloc)?;
    push_line(text, "chat ", key.as_str())?;
    push_line(text, "name ", page.name.as_str())?;
    push_member_line(text, page.members.as_slice())?;
    write!(text, "timer {}\n", page.timer)?;
    Ok(())
}

/// Appends the lines of the rows.
fn push_rows(alloc: Global, text: &mut String, rows: &[Row]) -> Result<(), Memory>
    requires { All RowHasMoments rows.now }
    ensures { OnOk result (string_bytes text.new ≡ string_bytes text.old ++ flat_map row_text rows.now) }
{
    for row in rows {
        push_row(alloc, text, row)?;
    }
    Ok(())
}

/// The text of a chat. Takes memory; `Err` only when it runs out.
pub fn chat_text(alloc: Global, page: &ChatPage) -> Result<String, Memory>
    requires { ChatHasMoments page.now }
    ensures { IfOk result (λ text. string_bytes text ≡ chat_text page.now) }
{
    let mut text = String::new(alloc);
    push_head(alloc, &mut text, page)?;
    push_rows(alloc, &mut text, page.rows.as_slice())?;
    Ok(text)
}
