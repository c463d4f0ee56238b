//! What a change would do to the present cards.
ghost use Rattle.std.specs.Prelude.{◌≡◌, ◌↔◌, true, false, not, is_some, IfOk, IsErrOf};
ghost use Rattle.std.specs.Option.{option_map_or};
ghost use Rattle.mailbox_model.specs.Mailbox.{full, lacks_room, item_at};
ghost use Rattle.mailbox_model.specs.Turns.{turn, arriving};
ghost use Rattle.mailbox_model.specs.Present.{spot};
ghost use Rattle.mailbox_model.specs.declared.change.Change.TheVariants.{Arrive, Expunge, Seen, At};
ghost use Rattle.box_state.specs.declared.mailbox.plan.PlanFault.TheVariants.{Memory as out_of_memory};

use crate::mailbox::{Mailbox, spot_in};
use card_type::{Card, Spot, weight};
use kit::Memory;
use mailbox_model::{Change, MAX_MAILS, MAX_TOTAL_WEIGHT, Turn};
use thiserror::Error;

/// No mail has this uid.
const END_OF_UIDS: u32 = u32::MAX;

/// Why there is no plan for a change.
#[derive(Clone, Copy, Debug, PartialEq, Eq, Error)]
pub enum PlanFault {
    /// The mailbox has no place for an arrival.
    #[error("mailbox full")]
    Full,
    /// Memory ran out.
    #[error("out of memory")]
    Memory,
}

impl From<Memory> for PlanFault {
    ghost from_gives = { λ _ fault. fault ≡ out_of_memory };

    fn from(_: Memory) -> PlanFault {
        PlanFault::Memory
    }
}

impl Mailbox {
    /// What a change would do to the present cards and to the moment. `Full` comes exactly for an arrival that has no place:
    /// where there are 65,536 items, where the next uid is 4,294,967,295, or where the weights of all cards would together
    /// pass 268,435,456. Takes memory for the ids of the spots, and time that grows with the logarithm of the number of
    /// items.
    pub fn plan(&self, change: &Change) -> Result<Turn, PlanFault>
        ensures turn { IfOk result (λ planned. planned ≡ turn self.now.mailbox change.now) }
        ensures full { IsErrOf result PlanFault.Full ↔ (full self.now.mailbox change.now ≡ true) }
    {
        if self.is_full(change) {
            return Err(PlanFault::Full);
        }
        match change {
            Change::Arrive(card) => Ok(self.plan_arrival(card)?),
            Change::ArriveFault(_) => Ok(Turn::Nothing),
            Change::Expunge(uid) => Ok(self.plan_expunge(*uid)?),
            Change::Seen(uid) => Ok(self.plan_seen(*uid)),
            Change::At(moment) if self.moment < *moment => Ok(Turn::Moved(*moment)),
            Change::At(_) => Ok(Turn::Nothing),
        }
    }

    fn is_full(&self, change: &Change) -> bool
        ensures { result ≡ full self.now.mailbox change.now }
    {
        match change {
            Change::Arrive(card) => self.lacks_room(weight(card)),
            Change::ArriveFault(_) => self.lacks_room(0),
            Change::Expunge(_) | Change::Seen(_) | Change::At(_) => false,
        }
    }

    fn lacks_room(&self, more: u64) -> bool
        ensures { result ≡ lacks_room self.now.mailbox more }
    {
        self.items.len() >= MAX_MAILS as usize
            || self.next_uid >= END_OF_UIDS
            || self.weight.saturating_add(more) > MAX_TOTAL_WEIGHT
    }

    fn plan_arrival(&self, card: &Card) -> Result<Turn, Memory>
        ensures { IfOk result (λ planned. planned ≡ turn self.now.mailbox (Arrive card.now)) }
    {
        let arriving = self.next_spot(card)?;
        match self.spot_of(&card.id) {
            None => Ok(Turn::Add(arriving)),
            Some(present) if arriving < *present => Ok(Turn::Replace(present.copy()?, arriving)),
            Some(_) => Ok(Turn::Nothing),
        }
    }

    /// Where a card is that arrives now.
    fn next_spot(&self, card: &Card) -> Result<Spot, Memory>
        ensures { IfOk result (λ next. next ≡ spot (arriving self.now.mailbox card.now).placed) }
    {
        Ok(spot_in(card, card.id.copy()?, self.moment, self.next_uid))
    }

    fn plan_expunge(&self, uid: u32) -> Result<Turn, Memory>
        ensures { IfOk result (λ planned. planned ≡ turn self.now.mailbox (Expunge uid)) }
    {
        match self.present_spot(uid) {
            None => Ok(Turn::Nothing),
            Some(spot) => match self.spots.second(&spot.id) {
                None => Ok(Turn::Remove(spot.copy()?)),
                Some(next) => Ok(Turn::Replace(spot.copy()?, next.copy()?)),
            },
        }
    }

    fn plan_seen(&self, uid: u32) -> Turn
        ensures { result ≡ turn self.now.mailbox (Seen uid) }
    {
        let is_present = self.present_spot(uid).is_some();
        if is_present && self.is_unseen(uid) {
            Turn::Marked(uid)
        } else {
            Turn::Nothing
        }
    }

    fn is_unseen(&self, uid: u32) -> bool
        ensures { result ≡ option_map_or (λ item. not (is_some item.seen)) (item_at self.now.mailbox uid) false }
    {
        match self.item(uid) {
            Some(item) => item.seen.is_none(),
            None => false,
        }
    }
}
