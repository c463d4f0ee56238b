//! The receipt of a mail.
ghost use Rattle.std.specs.Prelude.{◌≡◌, IfOk, find};
ghost use Rattle.std.specs.Option.{option_copied};
ghost use Rattle.chat_card.specs.Receipts.{is_notification, is_report, notification_of, receipt_of};

use crate::part::{Part, param};
use kit::{Id, Memory, same_name};
use mime_parts::{PartNode, is_kind};
use part_read::read_receipt;
use std::alloc::Global;

/// Whether a part is a report of what became of a mail (RFC 3462), whose parts are in the tree.
fn is_report(node: &PartNode) -> bool
    ensures { result ≡ is_report node.now }
{
    is_kind(b"multipart", b"report", &node.kind)
        && !node.leaf
        && same_name(
            param(&node.kind, b"report-type"),
            b"disposition-notification",
        )
}

/// Whether a part is right below the mail itself and is a notification (RFC 3798, section 3).
fn is_notification(part: &Part) -> bool
    ensures { result ≡ is_notification part.now }
{
    part.node.depth == 1 && is_kind(b"message", b"disposition-notification", &part.node.kind)
}

fn notification<'p, 'a>(parts: &'p [Part<'a>]) -> Option<&'p Part<'a>>
    ensures { option_copied result ≡ find is_notification parts.now }
{
    parts.iter().find(|part| is_notification(part))
}

/// The first notification of a mail of these parts, if that is such a report.
fn notification_of<'p, 'a>(parts: &'p [Part<'a>]) -> Option<&'p Part<'a>>
    ensures { option_copied result ≡ notification_of parts.now }
{
    let (root, parts) = parts.split_first()?;
    if is_report(&root.node) {
        notification(parts)
    } else {
        None
    }
}

/// The mail that a mail of these parts is a receipt for.
pub fn receipt_of(alloc: Global, parts: &[Part]) -> Result<Option<Id>, Memory>
    ensures { IfOk result (λ receipt. receipt ≡ receipt_of parts.now) }
{
    match notification_of(parts) {
        Some(part) => read_receipt(alloc, &part.content(alloc)?),
        None => Ok(None),
    }
}
