//! Dispositions.
ghost use Rattle.std.specs.Prelude.{◌≡◌, IfOk};
ghost use Rattle.mime_fields.specs.Kinds.{disposition};

use crate::param::value_in;
use crate::segment::main_word;
use kit::{Memory, Text, same_name};
use std::alloc::Global;

/// The disposition of a part (RFC 2183), as `attachment; filename=plan.pdf`.
#[derive(Debug, Drop)]
pub struct Disposition {
    /// Whether the part is an attachment (section 2.2).
    pub attach: bool,
    /// Whether the part is a reaction to the mail that its own mail answers (RFC 9078, section 2).
    pub reaction: bool,
    /// Its file name (section 2.3), which may be any text; empty where none is given.
    pub name: Text,
}

/// What the body of a Content-Disposition field says, of any bytes and any length (RFC 2183, section 2). Takes memory;
/// `Err` only when it runs out.
///
/// The body is cut into segments as that of a Content-Type is. It says an attachment where the first segment, up to
/// white space or a `(`, is `attachment`, and a reaction where that is `reaction`, without the case of letters. The file
/// name is the value of the parameter `filename`, read as those of a content type are (RFC 2231), also where it says
/// something else than an attachment.
pub fn read_disposition(alloc: Global, body: &[u8]) -> Result<Disposition, Memory>
    ensures { IfOk result (λ read. read ≡ disposition body.now) }
{
    let name = value_in(alloc, body, "filename")?;
    let word = main_word(body);
    Ok(Disposition {
        attach: same_name(word, b"attachment"),
        reaction: same_name(word, b"reaction"),
        name: name.unwrap_or(Text::from(String::new(alloc))),
    })
}
