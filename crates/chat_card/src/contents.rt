//! The contents of a mail: what it shows, and what it says to a chat program.
ghost use Rattle.std.specs.Prelude.{◌≡◌, [], IfOk, IsTrue, OnOk, map, unwrap_or};
ghost use Rattle.std.specs.List.{list_all};
ghost use Rattle.std.specs.Result.{result_ok};
ghost use Rattle.card_type.specs.Rules.{is_short, is_update, where_some};
ghost use Rattle.part_read.specs.Updates.{updates};
ghost use Rattle.chat_card.specs.Contents.{contents_of, contents_with};
ghost use Rattle.chat_card.specs.Files.{attached, updates_in};

use crate::files::{attachments, files, has_app, update_index};
use crate::kept::kept_of;
use crate::part::{Part, parts_of};
use crate::reaction::take_reaction;
use crate::report::receipt_of;
use crate::shown::shown_text;
use card_type::{Attachment, Update};
use kit::{Id, Memory, Text};
use lists::Items;
use mail_headers::Header;
use part_read::{UpdateFault, read_updates};
use std::alloc::Global;

/// The contents of a mail: what its parts say.
#[derive(Debug, Drop)]
pub struct Contents {
    /// The text that it shows.
    pub text: Text,
    /// Its files, in their order.
    pub attachments: Items<Attachment>,
    /// The mail that its sender has read, where it is a receipt (RFC 3798, section 3).
    pub receipt: Option<Id>,
    /// Whether one of its files is an app.
    pub app: bool,
    /// The updates that it brings to an app, in their order.
    pub updates: Items<Update>,
    /// What it says of the mail that it answers, where it is a reaction to it (RFC 9078): at most 255 bytes.
    pub reaction: Option<Text>,
}

/// The updates in a file, if they are accepted.
fn accepted(alloc: Global, file: &Part) -> Result<Option<Items<Update>>, Memory>
    ensures value { IfOk result (λ read. read ≡ result_ok (updates file.now.content)) }
    ensures rules { IfOk result (λ read. IsTrue (where_some (list_all is_update) read)) }
{
    match read_updates(alloc, &file.content(alloc)?) {
        Ok(updates) => Ok(Some(updates)),
        Err(UpdateFault::Memory) => Err(Memory),
        Err(UpdateFault::NoJson | UpdateFault::NoList) => Ok(None),
    }
}

/// Takes the file of updates out of the files, if there is one and they are accepted, and returns the updates.
fn take_updates(alloc: Global, files: &mut Vec<&Part<'_>>) -> Result<Items<Update>, Memory>
    ensures updates { IfOk result (λ updates. updates ≡ unwrap_or (updates_in (map (λ f. f.now) files.old.items)) []) }
    ensures rules { IfOk result (λ updates. IsTrue (list_all is_update updates)) }
    ensures files { OnOk result (map (λ f. f.now) files.new.items ≡ attached (map (λ f. f.now) files.old.items)) }
{
    let Some(index) = update_index(files) else {
        return Ok(Items::new(alloc));
    };
    let Some(updates) = accepted(alloc, files[index])? else {
        return Ok(Items::new(alloc));
    };
    files.remove(index);
    Ok(updates)
}

fn contents_with(
    alloc: Global,
    parts: &[Part],
    receipt: Option<Id>,
    reaction: Option<Text>,
) -> Result<Contents, Memory>
    ensures value { IfOk result (λ contents. contents ≡ contents_with receipt reaction parts.now) }
    ensures updates { IfOk result (λ contents. IsTrue (list_all is_update contents.updates)) }
{
    let kept = kept_of(alloc, parts)?;
    let mut files = files(alloc, &kept)?;
    let app = has_app(&files);
    let updates = take_updates(alloc, &mut files)?;
    Ok(Contents {
        text: shown_text(alloc, &kept)?,
        attachments: attachments(alloc, &files)?,
        receipt,
        app,
        updates,
        reaction,
    })
}

/// Reads what the parts of a mail of this header and the body after it say, where the mail answers another or none and
/// edits another or none. Any bytes are a body. Takes memory; `Err` only when it runs out.
///
/// A leaf that is text/plain, has no file name and whose disposition is not that of an attachment (RFC 2183) is shown
/// as a text, and any other is a file. Of alternatives the first that shows a text is chosen (RFC 2046, section 5.1.4),
/// and in the others texts of any type without a file name are dropped. A text is read in its charset, made whole where
/// it is flowed (RFC 3676), and ends above a signature; there is an LF between each two.
///
/// The receipt is that of the first notification in a report that the mail itself is (RFC 3798, section 3). A file is
/// an app where its name ends in `.xdc`, without the case of letters. Where none is, the first file that is named
/// `status-update.json` is read for updates, and is no file of the mail where it is accepted.
///
/// In a mail that answers another the first text whose disposition is that of a reaction (RFC 9078) is what the mail says
/// to it, where the mail has no other text: then it is none of the parts that are shown.
pub fn read_contents(
    alloc: Global,
    header: &Header,
    body: &[u8],
    is_reply: bool,
    edit: &Option<Id>,
) -> Result<Contents, Memory>
    ensures value { IfOk result (λ contents. contents ≡ contents_of is_reply edit.now header.now body.now) }
    // They keep the rules of a card.
    ensures updates { IfOk result (λ contents. IsTrue (list_all is_update contents.updates)) }
    ensures reaction { IfOk result (λ contents. IsTrue (where_some is_short contents.reaction)) }
{
    let mut parts = parts_of(alloc, header, body)?;
    let receipt = receipt_of(alloc, &parts)?;
    let reaction = take_reaction(alloc, &mut parts, is_reply, edit)?;
    contents_with(alloc, &parts, receipt, reaction)
}
