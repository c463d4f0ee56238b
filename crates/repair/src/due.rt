//! The deadlines that are reached.
ghost use Rattle.std.specs.Prelude.{◌≡◌, ℕ, ◌||◌, None, if◌then◌else◌, OnOk};
ghost use Rattle.card_type.specs.Effects.{is_among};
ghost use Rattle.mailbox_model.specs.Lists.{Bytes};
ghost use Rattle.mailbox_model.specs.Present.{present};
ghost use Rattle.touched_chats.specs.Suspects.{falls_due, uid_falls_due};
ghost use Rattle.indexes.specs.Kept.{deadline_at, AreDeadlines};
ghost use Rattle.repair.specs.Due.{ReadsDue};

use crate::turned::note;
use box_state::Mailbox;
use kit::{Id, Memory, Steps};
use std::collections::BTreeSet;
use std::sync::ledger::Ledger;
use timers::Timers;

/// Takes out the deadlines that are reached by a moment, and notes the ids of their cards. Takes memory; `Err` only when it
/// runs out, and after it the deadlines and the ids may only be dropped.
///
/// - `ids`: those of the cards whose rows fall due are there too.
/// - `timers`: those deadlines are taken out, and no other.
/// - `cost`: it reads each of those cards once, and no more where memory runs out.
pub(crate) fn drain<L: Ledger>(
    mailbox: &Mailbox,
    now: u64,
    timers: &mut Timers,
    ids: &mut BTreeSet<Id>,
    steps: &mut Steps<L>,
) -> Result<(), Memory>
    requires kept { AreDeadlines mailbox.now.mailbox (present mailbox.now.mailbox) timers.old }
    ensures ids { OnOk result ((id : Bytes) → is_among ids.new.keys id ≡ (is_among ids.old.keys id || falls_due mailbox.now.mailbox now id)) }
    ensures timers { OnOk result ((uid : ℕ) → deadline_at timers.new uid
        ≡ (if uid_falls_due mailbox.now.mailbox now uid then None else deadline_at timers.old uid)) }
    ensures cost { ReadsDue mailbox.now.mailbox now steps.old steps.new }
{
    mailbox.keeps_rules();
    while let Some(uid) = timers.due(now) {
        let card = mailbox.card(uid, steps).unwrap();
        note(&card.id, ids)?;
    }
    Ok(())
}
