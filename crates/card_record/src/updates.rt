//! The files and updates of a record, read.
ghost use Rattle.std.specs.Prelude.{◌≡◌};
ghost use Rattle.card_record.specs.Reading.{Moves, payload_at, attachment_at, update_at};

use crate::fault::ReadFault;
use crate::field::{Field, read_opt, read_text_within};
use crate::rest::Rest;
use card_type::{Attachment, Payload, Update};
use kit::Text;
use std::alloc::Global;

#[tactic(auto, unfolding(crate::specs::Reading::attachment_at))]
impl Field for Attachment {
    ghost at = { attachment_at };

    fn read(alloc: Global, rest: &mut Rest<'_>) -> Result<Self, ReadFault> {
        let kind = <Text as Field>::read(alloc, rest)?;
        let name = <Text as Field>::read(alloc, rest)?;
        let size = rest.b64()?;
        Ok(Attachment { kind, name, size })
    }
}

/// Takes a payload, after the byte that says which kind it is.
#[tactic(auto, unfolding(crate::specs::Reading::payload_at))]
fn read_payload(alloc: Global, rest: &mut Rest<'_>) -> Result<Payload, ReadFault>
    ensures { Moves (λ x. x) result (payload_at rest.old) rest.new }
{
    let left = rest.len();
    match rest.b8()? {
        0 => Ok(Payload::Absent),
        1 => Ok(Payload::Json(read_text_within(alloc, 1, usize::MAX, rest)?)),
        2 => Ok(Payload::Hidden),
        _ => Err(ReadFault::Malformed(left)),
    }
}

#[tactic(auto, unfolding(crate::specs::Reading::update_at))]
impl Field for Update {
    ghost at = { update_at };

    fn read(alloc: Global, rest: &mut Rest<'_>) -> Result<Self, ReadFault> {
        let payload = read_payload(alloc, rest)?;
        let info = read_opt::<Text>(alloc, rest)?;
        let document = read_opt::<Text>(alloc, rest)?;
        let summary = read_opt::<Text>(alloc, rest)?;
        Ok(Update {
            payload,
            info,
            document,
            summary,
        })
    }
}
