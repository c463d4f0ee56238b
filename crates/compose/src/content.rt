//! The content of a draft, and the whole mail.
ghost use Rattle.std.specs.Prelude.{◌≡◌, ◌<◌, ◌≤◌, ◌++◌, OnOk, length};
ghost use Rattle.kit.specs.Moments.{last_moment};
ghost use Rattle.compose.specs.Intended.{notification, receipt_for};
ghost use Rattle.compose.specs.Mails.{box_of, content_by, edit_mark, mail_of, report};
ghost use Rattle.compose.specs.Written.{body_text};

use crate::draft::{Act, Draft};
use crate::header::push_header;
use crate::texts::push_body;
use kit::{Addr, Id, Memory, Text};

/// Appends the text of an edit, with the mark before it.
fn push_edited(out: &mut Vec<u8>, text: &Text) -> Result<(), Memory>
    ensures { OnOk result (out.new.items ≡ out.old.items ++ body_text (edit_mark ++ text.now)) }
{
    let mut marked = Vec::new(*out.allocator());
    marked.extend_from_slice(b"\xE2\x9C\x8F\xEF\xB8\x8F")?;
    marked.extend_from_slice(text.bytes())?;
    push_body(out, marked.as_slice())
}

/// Appends what a receipt says to programs (RFC 3798, section 3), of who sends it and of the mail that it is for.
pub fn push_notification(out: &mut Vec<u8>, from: &Addr, id: &Id) -> Result<(), Memory>
    ensures { OnOk result (out.new.items ≡ out.old.items ++ notification from.now id.now) }
{
    out.extend_from_slice(b"Final-Recipient: rfc822;")?;
    out.extend_from_slice(from.bytes())?;
    out.extend_from_slice(b"\nOriginal-Message-ID: <")?;
    out.extend_from_slice(id.bytes())?;
    out.extend_from_slice(b">\nDisposition: manual-action/MDN-sent-automatically; displayed")?;
    Ok(())
}

/// Appends the two parts of a receipt: its text, and what it says to programs.
fn push_report(out: &mut Vec<u8>, from: &Addr, id: &Id, text: &Text) -> Result<(), Memory>
    ensures { OnOk result (out.new.items ≡ out.old.items ++ report (body_text text.now) (notification from.now id.now)) }
{
    out.extend_from_slice(
        b"--=_chats\nContent-Type: text/plain; charset=utf-8\nContent-Transfer-Encoding: base64\n\n",
    )?;
    push_body(out, text.bytes())?;
    out.extend_from_slice(b"--=_chats\nContent-Type: message/disposition-notification\n\n")?;
    push_notification(out, from, id)?;
    out.extend_from_slice(b"\n--=_chats--\n")?;
    Ok(())
}

/// Appends the content of a draft.
fn push_content(out: &mut Vec<u8>, draft: &Draft) -> Result<(), Memory>
    ensures { OnOk result (out.new.items ≡ out.old.items ++ content_by draft.now (receipt_for draft.now.act)) }
{
    match &draft.act {
        Act::Receipt(id) => push_report(out, &draft.from, id, &draft.text),
        Act::Edit(_) => push_edited(out, &draft.text),
        _ => push_body(out, draft.text.bytes()),
    }
}

/// Appends the mail of a draft.
pub fn push_mail(out: &mut Vec<u8>, draft: &Draft) -> Result<(), Memory>
    requires date { draft.now.date ≤ last_moment }
    requires to { 0 < length draft.now.to }
    ensures { OnOk result (out.new.items ≡ out.old.items ++ mail_of draft.now) }
{
    push_header(out, draft)?;
    out.push(b'\n')?;
    push_content(out, draft)
}

/// Appends the mail of a draft as an mbox of one mail.
pub fn push_box(out: &mut Vec<u8>, draft: &Draft) -> Result<(), Memory>
    requires date { draft.now.date ≤ last_moment }
    requires to { 0 < length draft.now.to }
    ensures { OnOk result (out.new.items ≡ out.old.items ++ box_of draft.now) }
{
    out.extend_from_slice(b"From -\n")?;
    push_mail(out, draft)?;
    out.push(b'\n')?;
    Ok(())
}
