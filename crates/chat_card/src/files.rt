//! The files of a mail.
ghost use Rattle.std.specs.Prelude.{◌≡◌, ◌<◌, None, IfNone, IfOk, IfSome, length, map, option_map, position, remove, slice_get};
ghost use Rattle.std.specs.List.{filter_map, list_any};
ghost use Rattle.chat_card.specs.Files.{attachment, is_app, is_update_file, kind_text, other_files, size_of, update_file};
ghost use Rattle.chat_card.specs.Shown.{file_of};
ghost use Rattle.chat_card.specs.Views.{kept};

use crate::leaf::Kept;
use crate::part::Part;
use card_type::Attachment;
use kit::{Memory, Text, same_name};
use lists::Items;
use mime_fields::ContentType;
use std::alloc::Global;

/// How the name of an app ends.
const APP_END: &[u8] = b".xdc";

/// The parts that are files.
pub fn files<'p, 'a>(alloc: Global, parts: &[Kept<'p, 'a>]) -> Result<Vec<&'p Part<'a>>, Memory>
    ensures { IfOk result (λ files. map (λ f. f.now) files.items ≡ filter_map file_of (map kept parts.now)) }
{
    let mut files = Vec::new(alloc);
    for part in parts {
        if let Kept::File(part) = part {
            files.push(*part)?;
        }
    }
    Ok(files)
}

/// Whether a file is an app, by its name.
fn is_app(file: &Part) -> bool
    ensures { result ≡ is_app file.now }
{
    let name = file.node.name.bytes();
    same_name(APP_END, &name[name.len().saturating_sub(APP_END.len())..])
}

/// Whether any of the files is an app.
pub fn has_app(files: &[&Part]) -> bool
    ensures { result ≡ list_any (λ f. is_app f.now) files.now }
{
    files.iter().any(|file| is_app(file))
}

fn is_update_file(file: &Part) -> bool
    ensures { result ≡ is_update_file file.now }
{
    file.node.name.bytes() == b"status-update.json".as_slice()
}

fn named_index(files: &[&Part]) -> Option<usize>
    ensures index { result ≡ position (λ f. is_update_file f.now) files.now }
    ensures bound { IfSome result (λ at. at < length files.now) }
{
    files.iter().position(|file| is_update_file(file))
}

/// The index of the file that is to be read for updates, if there is one.
pub fn update_index(files: &[&Part]) -> Option<usize>
    ensures none { IfNone result (update_file (map (λ f. f.now) files.now) ≡ None) }
    ensures bound { IfSome result (λ at. at < length files.now) }
    ensures file { IfSome result (λ at. update_file (map (λ f. f.now) files.now) ≡ option_map (λ f. f.now) (slice_get files.now at)) }
    ensures others { IfSome result (λ at. other_files (map (λ f. f.now) files.now) ≡ map (λ f. f.now) (remove files.now at)) }
{
    if has_app(files) {
        return None;
    }
    named_index(files)
}

/// A media type as it is written.
fn kind_text(alloc: Global, kind: &ContentType) -> Result<Text, Memory>
    ensures { IfOk result (λ text. text ≡ kind_text kind.now) }
{
    let mut text = String::from_str(alloc, kind.top.as_str())?;
    text.push('/')?;
    text.push_str(kind.sub.as_str())?;
    Ok(Text::from(text))
}

fn size_of(alloc: Global, file: &Part) -> Result<u64, Memory>
    ensures { IfOk result (λ size. size ≡ size_of file.now) }
{
    let node = &file.node;
    if node.kind.top.bytes() == b"multipart".as_slice() {
        Ok(node.end.saturating_sub(node.start) as u64)
    } else {
        Ok(file.content_len(alloc)? as u64)
    }
}

fn attachment(alloc: Global, file: &Part) -> Result<Attachment, Memory>
    ensures { IfOk result (λ made. made ≡ attachment file.now) }
{
    Ok(Attachment {
        kind: kind_text(alloc, &file.node.kind)?,
        name: file.node.name.copy()?,
        size: size_of(alloc, file)?,
    })
}

/// What is kept of the files.
pub fn attachments(alloc: Global, files: &[&Part]) -> Result<Items<Attachment>, Memory>
    ensures { IfOk result (λ made. made ≡ map attachment (map (λ f. f.now) files.now)) }
{
    let mut made = Items::new(alloc);
    for file in files {
        made.push(attachment(alloc, file)?)?;
    }
    Ok(made)
}
