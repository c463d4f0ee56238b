//! Receipts.
ghost use Rattle.std.specs.Prelude.{◌≡◌, IfOk, option_map};
ghost use Rattle.part_read.specs.Receipts.{disposition_type, is_displayed, original_id, receipt};

use kit::{Id, Memory, before_first, same_name, split_once, trim};
use mail_headers::{Header, ids, read_header};
use std::alloc::Global;

/// The type that the body of a Disposition field names.
fn disposition_type(body: &[u8]) -> Option<&[u8]>
    ensures { option_map (λ found. found.now) result ≡ disposition_type body.now }
{
    let (_mode, rest) = split_once(body, b';')?;
    Some(trim(before_first(before_first(rest, b'/'), b',')))
}

fn is_displayed(header: &Header) -> bool
    ensures { result ≡ is_displayed header.now }
{
    match disposition_type(header.field(b"Disposition")) {
        Some(found) => same_name(b"displayed", found),
        None => false,
    }
}

/// The first id in the first Original-Message-ID field.
fn original_id(alloc: Global, header: &Header) -> Result<Option<Id>, Memory>
    ensures { IfOk result (λ id. id ≡ original_id header.now) }
{
    let found = ids(alloc, header.field(b"Original-Message-ID"))?;
    Ok(found.into_iter().next())
}

/// Reads a receipt: the content of a part of type message/disposition-notification, which says what became of a mail
/// (RFC 3798, section 3). Returns the id of that mail where it was displayed, and `None` exactly where the bytes don't
/// say so. Any bytes of any length may be given; their fields are read as those of a header are.
///
/// The mail is the one whose id comes first in the body of the first Original-Message-ID field (section 3.2.3). It was
/// displayed where the type in the body of the first Disposition field is `displayed`, without the case of letters
/// (section 3.2.6). The type is what follows the first `;`, up to the next `/` or `,`, without outer white space. Takes
/// memory; `Err` only when it runs out.
pub fn read_receipt(alloc: Global, bytes: &[u8]) -> Result<Option<Id>, Memory>
    ensures { IfOk result (λ read. read ≡ receipt bytes.now) }
{
    let header = read_header(alloc, bytes)?;
    if is_displayed(&header) {
        original_id(alloc, &header)
    } else {
        Ok(None)
    }
}
