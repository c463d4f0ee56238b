//! Which drafts are written: those whose mails read back.
ghost use Rattle.std.specs.Prelude.{◌≡◌, ◌⊎◌, ◌<◌, ◌≤◌, ℕ, [], ◌∷◌, IfErr, IfSome, None, Ok, OnOk, Some, length, map};
ghost use Rattle.std.specs.Str.{IsUtf8};
ghost use Rattle.kit.specs.Moments.{last_moment};
ghost use Rattle.mboxrd.specs.Mails.{mails_from};
ghost use Rattle.chat_card.specs.Cards.{card_of};
ghost use Rattle.compose.specs.declared.fault.DraftFault.TheVariants as fault;
ghost use Rattle.compose.specs.Intended.{intended, old_name};
ghost use Rattle.compose.specs.Mails.{box_of, mail_of};
ghost use Rattle.compose.specs.Refusals.{refusal};

use crate::dates::is_in_a_day;
use crate::draft::{Act, Draft};
use crate::fault::DraftFault;
use crate::refusals::refusal;
use std::alloc::Global;

/// The old name of a group is a text, as each value of its type is.
fn old_name_is_text(act: &Act)
    ensures { IfSome (old_name act.now) IsUtf8 }
{
    if let Act::Rename(name) = act {
        let _bytes = name.bytes();
    }
}

/// Checks that a draft is to be written: `Err` is the first cause why it is not, or `Memory` when memory runs out.
///
/// - `reads`: whoever reads its mail has the intended card.
/// - `one`: the mails of the mbox that is made of it are that mail alone.
pub fn check(alloc: Global, draft: &Draft) -> Result<(), DraftFault>
    requires { draft.now.date ≤ last_moment }
    ensures fine { OnOk result (refusal draft.now ≡ None) }
    ensures to { OnOk result (0 < length draft.now.to) }
    ensures reads { OnOk result ((uid : ℕ) → card_of uid (mail_of draft.now) ≡ Ok (intended draft.now)) }
    ensures one { OnOk result (map (λ m. m.bytes) (mails_from 0 (box_of draft.now)) ≡ mail_of draft.now ∷ []) }
    ensures why { IfErr result (λ why. (why ≡ fault.Memory) ⊎ (refusal draft.now ≡ Some why)) }
{
    old_name_is_text(&draft.act);
    is_in_a_day(draft.date);
    match refusal(alloc, draft)? {
        Some(why) => Err(why),
        None => Ok(()),
    }
}
