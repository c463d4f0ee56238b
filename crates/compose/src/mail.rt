//! Writing a draft as a mail.
ghost use Rattle.std.specs.Prelude.{◌≡◌, ◌≢◌, ◌⊎◌, ◌≤◌, ℕ, [], ◌∷◌, IfErr, IfOk, IsErrOf, None, Ok, OnOk, Some, map};
ghost use Rattle.std.specs.Io.KnownBytes.{Appends};
ghost use Rattle.kit.specs.Moments.{last_moment};
ghost use Rattle.outside.specs.Bytes.{AppendsPrefix};
ghost use Rattle.outside.specs.Causes.{Rose};
ghost use Rattle.mboxrd.specs.Mails.{mails_from};
ghost use Rattle.chat_card.specs.Cards.{card_of};
ghost use Rattle.compose.specs.declared.fault.DraftFault.{DraftFault as Why};
ghost use Rattle.compose.specs.declared.fault.DraftFault.TheVariants as fault;
ghost use Rattle.compose.specs.declared.fault.PutFault.TheVariants as put;
ghost use Rattle.compose.specs.Intended.{intended};
ghost use Rattle.compose.specs.Mails.{box_of, mail_of};
ghost use Rattle.compose.specs.Refusals.{refusal};

use crate::check::check;
use crate::content::{push_box, push_mail};
use crate::draft::Draft;
use crate::fault::{DraftFault, PutFault};
use outside::Sink;
use std::alloc::Global;

/// The mail of a draft, whose date is at most `LAST_MOMENT`: the fields of any mail and of a chat (RFC 5322, section
/// 2.2), an empty line, and the text in base64 (RFC 2045, section 6.8), which in a receipt is the first part of a report
/// (RFC 3462). Each line ends by LF, and one with References or a group may have more than 998 bytes. Takes memory, a
/// few times the bytes of the draft.
///
/// The error is the first that applies:
/// - `NoTo`, exactly where `to` is empty.
/// - `NoGroup`, exactly where the act is Add, Remove or Rename, and there is no group.
/// - `NoTarget`, exactly where the act is Delete of no mails, or React without `reply`.
/// - `BadAddr`, exactly where `from`, an address of `to`, or that of Add or Remove has a `[` or a `]`.
/// - `BadText`, exactly where the text breaks its rules. A reaction is its words with one space between each two, in at
///   most 255 bytes. Any other text is the lines above its signature (RFC 3676, section 4.3) with an LF between each
///   two, without a space, tab, CR or LF at its end, in at most 32,768 bytes.
/// - `CardTooLong`, exactly where the weight of the intended card passes 1,048,576.
///
/// `Memory` comes only when memory runs out.
///
/// - `mail`: the bytes are those of the draft.
/// - `reads`: whoever reads them has the intended card, whatever uid the mail has.
/// - `fine`: none of the causes of a refusal holds.
/// - `why`: a refusal is the first whose cause holds.
pub fn compose(alloc: Global, draft: &Draft) -> Result<Vec<u8>, DraftFault>
    requires { draft.now.date ≤ last_moment }
    ensures mail { IfOk result (λ mail. mail.items ≡ mail_of draft.now) }
    ensures reads { IfOk result (λ mail. (uid : ℕ) → card_of uid mail.items ≡ Ok (intended draft.now)) }
    ensures fine { OnOk result (refusal draft.now ≡ None) }
    ensures why { IfErr result (λ why. (why ≡ fault.Memory) ⊎ (refusal draft.now ≡ Some why)) }
{
    check(alloc, draft)?;
    let mut mail = Vec::new(alloc);
    push_mail(&mut mail, draft)?;
    Ok(mail)
}

/// Puts the mail of a draft, whose date is at most `LAST_MOMENT`, as an mbox of one mail: the line `From -`, the mail
/// and an empty line, made whole and put in one piece. Takes memory, all of it before it puts anything.
///
/// `Draft` comes with the error of `compose`, and then nothing was put. `Write` comes only at a fault of the sink, and
/// then a prefix may have been put.
///
/// - `ok`, `write`: the whole mbox was put, or at `Write` a prefix of it.
/// - `nothing`: at every other error nothing was put.
/// - `one`: the mails of the mbox are that one mail.
/// - `reads`: whoever reads it has the intended card, whatever uid the mail has.
/// - `fine`, `why`: none of the causes of a refusal holds, or the first that does is the error.
pub fn compose_to<K: Sink>(alloc: Global, draft: &Draft, out: &mut K) -> Result<(), PutFault>
    requires { draft.now.date ≤ last_moment }
    ensures ok { OnOk result (Appends (K.held out.old) (K.held out.new) (box_of draft.now)) }
    ensures write { IsErrOf result put.Write → AppendsPrefix (K.held out.old) (K.held out.new) (box_of draft.now) }
    ensures cause { IsErrOf result put.Write → Rose (K.faults out.old) (K.faults out.new) }
    ensures nothing { IfErr result (λ why. why ≢ put.Write → out.new ≡ out.old) }
    ensures one { OnOk result (map (λ m. m.bytes) (mails_from 0 (box_of draft.now)) ≡ mail_of draft.now ∷ []) }
    ensures reads { OnOk result ((uid : ℕ) → card_of uid (mail_of draft.now) ≡ Ok (intended draft.now)) }
    ensures fine { OnOk result (refusal draft.now ≡ None) }
    ensures why { (why : Why) → IsErrOf result (put.Draft why) → (why ≡ fault.Memory) ⊎ (refusal draft.now ≡ Some why) }
    ensures later { K.faults out.old ≤ K.faults out.new }
{
    check(alloc, draft)?;
    let mut mbox = Vec::new(alloc);
    push_box(&mut mbox, draft)?;
    Ok(out.put(mbox.as_slice())?)
}
