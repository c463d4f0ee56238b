//! The row of a card, made while what acts on it is added.
ghost use Rattle.std.specs.Prelude.{◌≡◌, ◌≤◌, ◌<◌, ◌+◌, [], ◌∷◌, ◌++◌, List, Option, Some, IfOk, OnOk, IfSome, filter, length, not, true, suc, if◌then◌else◌};
ghost use Rattle.std.specs.List.{list_any};
ghost use Rattle.std.specs.Str.{bytes_eq};
ghost use Rattle.kit.specs.Moments.{last_moment};
ghost use Rattle.card_type.specs.Kinds.{has_some};
ghost use Rattle.mailbox_model.specs.Lists.{Bytes};
ghost use Rattle.mailbox_model.specs.Present.{Mail, Placed};
ghost use Rattle.mailbox_model.specs.Rows.{Act, expiry, mark_of, reaction_of, row_by, update_row, updates_by};
ghost use Rattle.chat_view.specs.Makers.{MakesRow, act, mail, placed};

use card_type::{Card, Effect, Spot, Update};
use kit::{Addr, Memory, Text};
use lists::Items;
use mailbox_model::{Mark, Row, UpdateRow};
use std::alloc::Global;

/// The row of a card with what was added so far, and what says whether it is shown at all.
#[derive(Debug, Drop)]
pub struct RowMaker {
    row: Row,
    withdrawn: bool,
    // The moment at which it expires, if it ever does.
    expiry: Option<u64>,
}

/// Whether a card was sent, received or seen.
fn mark_of(card: &Card, seen: Option<u64>, me: &Addr) -> Mark
    ensures { (spot : Spot) → result ≡ mark_of me.now (mail spot card.now seen) }
{
    if card.from == *me {
        Mark::Out
    } else if seen.is_some() {
        Mark::Seen
    } else {
        Mark::New
    }
}

/// The moment at which a card expires, if it ever does: its timer runs from its date where it was sent, and from when it
/// was seen where it was received.
fn expiry(spot: &Spot, card: &Card, seen: Option<u64>, me: &Addr) -> Option<u64>
    requires date { spot.now.date ≤ last_moment }
    requires seen { IfSome seen (λ moment. moment ≤ last_moment) }
    ensures { result ≡ expiry me.now (mail spot.now card.now seen) }
{
    if card.timer == 0 {
        return None;
    }
    let start = if card.from == *me {
        Some(spot.date)
    } else {
        seen
    };
    start.map(|moment| moment + u64::from(card.timer))
}

/// Takes the text of an edit in place of that of the row.
fn edit(row: &mut Row, e: &Card) -> Result<(), Memory>
    ensures { OnOk result (row.new ≡ record row.old { text = e.now.text; cut = e.now.cut; edited = true }) }
{
    row.text = e.text.copy()?;
    row.cut = e.cut;
    row.edited = true;
    Ok(())
}

/// Whether the sender of a receipt is among the readers.
fn is_reader(readers: &[(Addr, u64)], e: &Card) -> bool
    ensures { result ≡ list_any (λ reader. bytes_eq reader.0 e.now.from) readers.now }
{
    readers.iter().any(|reader| reader.0 == e.from)
}

/// Adds the sender of a receipt and its date, unless an earlier receipt is theirs.
fn add_reader(readers: &mut Items<(Addr, u64)>, spot: &Spot, e: &Card) -> Result<(), Memory>
    ensures { OnOk result (readers.new ≡ (if list_any (λ reader. bytes_eq reader.0 e.now.from) readers.old then readers.old
        else readers.old ++ (e.now.from, spot.now.date) ∷ [])) }
{
    if !is_reader(readers.as_slice(), e) {
        readers.push((e.from.copy()?, spot.date))?;
    }
    Ok(())
}

/// Takes out the reaction of a sender, if there is one.
fn take_back(reactions: &mut Items<(Addr, Text)>, from: &Addr)
    ensures { reactions.new ≡ filter (λ reaction. not (bytes_eq from.now reaction.0)) reactions.old }
{
    reactions.retain(|reaction| *from != reaction.0);
}

/// Adds a reaction, unless it says nothing.
fn push_reaction(reactions: &mut Items<(Addr, Text)>, e: &Card) -> Result<(), Memory>
    ensures { OnOk result (reactions.new ≡ reactions.old
        ++ (if has_some (reaction_of e.now) then (e.now.from, reaction_of e.now) ∷ [] else [])) }
{
    match &e.reaction {
        Some(text) if !text.bytes().is_empty() => reactions.push((e.from.copy()?, text.copy()?)),
        _ => Ok(()),
    }
}

/// Puts a reaction in place of the earlier one of its sender; one that says nothing takes that back.
fn add_reaction(reactions: &mut Items<(Addr, Text)>, e: &Card) -> Result<(), Memory>
    ensures { OnOk result (reactions.new ≡ filter (λ reaction. not (bytes_eq e.now.from reaction.0)) reactions.old
        ++ (if has_some (reaction_of e.now) then (e.now.from, reaction_of e.now) ∷ [] else [])) }
{
    take_back(reactions, &e.from);
    push_reaction(reactions, e)
}

/// Adds an update with the next serial.
fn add_update(
    updates: &mut Items<UpdateRow>,
    spot: &Spot,
    e: &Card,
    part: u32,
    update: &Update,
) -> Result<(), Memory>
    requires { length updates.old < 4294967295 }
    ensures { OnOk result (updates.new ≡ updates.old
        ++ update_row (suc (length updates.old)) (record { by = placed spot.now e.now; part = part; update = update.now }) ∷ []) }
{
    updates.push(UpdateRow {
        serial: updates.len() as u32 + 1,
        uid: spot.uid,
        part,
        from: e.from.copy()?,
        update: update.copy()?,
    })
}

/// Adds the updates that a card brings, in their order.
fn add_updates(updates: &mut Items<UpdateRow>, spot: &Spot, e: &Card) -> Result<(), Memory>
    requires { length updates.old + length e.now.updates < 4294967296 }
    ensures rows { OnOk result ((before : List Placed) → updates.old ≡ updates_by before
        → updates.new ≡ updates_by (before ++ placed spot.now e.now ∷ [])) }
    ensures len { OnOk result (length updates.new ≡ length updates.old + length e.now.updates) }
{
    let mut part = 0;
    for update in e.updates.as_slice() {
        add_update(updates, spot, e, part, update)?;
        part += 1;
    }
    Ok(())
}

impl RowMaker {
    /// The row of a card on which nothing acts yet, where `seen` is when its mail was seen and `me` the own address. Takes
    /// memory; `Err` only when it runs out.
    ///
    /// - `stands`: it stands for the mail and for nothing that acts on it.
    /// - `updates`: no update is kept yet.
    pub fn new(
        alloc: Global,
        spot: &Spot,
        card: &Card,
        seen: Option<u64>,
        me: &Addr,
    ) -> Result<Self, Memory>
        requires date { spot.now.date ≤ last_moment }
        requires seen { IfSome seen (λ moment. moment ≤ last_moment) }
        ensures stands { IfOk result (MakesRow me.now (mail spot.now card.now seen) []) }
        ensures updates { IfOk result (λ maker. maker.row.updates ≡ []) }
    {
        let row = Row {
            uid: spot.uid,
            id: card.id.copy()?,
            date: spot.date,
            from: card.from.copy()?,
            chat: card.chat,
            subject: card.subject.copy()?,
            text: card.text.copy()?,
            cut: card.cut,
            edited: false,
            mark: mark_of(card, seen, me),
            attachments: card.attachments.copy()?,
            readers: Items::new(alloc),
            reactions: Items::new(alloc),
            app: card.app,
            updates: Items::new(alloc),
        };
        Ok(RowMaker {
            row,
            withdrawn: false,
            expiry: expiry(spot, card, seen, me),
        })
    }

    /// Adds what the next card in mail order does to that of the row. Takes memory; `Err` only when it runs out, and then
    /// the maker may only be dropped.
    ///
    /// - `stands`: a maker that stands for a mail and for what acts on it stands for this act too.
    /// - `updates`: no more updates are kept than before and in this card.
    pub fn add(&mut self, effect: Effect, spot: &Spot, e: &Card) -> Result<(), Memory>
        requires { length self.old.row.updates + length e.now.updates < 4294967296 }
        ensures stands { OnOk result ((me : Bytes) (t : Mail) (acts : List Act) → MakesRow me t acts self.old
            → MakesRow me t (acts ++ act effect spot.now e.now ∷ []) self.new) }
        ensures updates { OnOk result (length self.new.row.updates ≤ length self.old.row.updates + length e.now.updates) }
    {
        match effect {
            Effect::Edit => edit(&mut self.row, e),
            Effect::Delete => {
                self.withdrawn = true;
                Ok(())
            }
            Effect::Read => add_reader(&mut self.row.readers, spot, e),
            Effect::Update => add_updates(&mut self.row.updates, spot, e),
            Effect::Reaction => add_reaction(&mut self.row.reactions, e),
        }
    }

    /// The moment at which the mail expires, in seconds since 1970-01-01 00:00:00 UTC: `None` where it never does. Takes no
    /// memory.
    pub fn expiry(&self) -> Option<u64>
        ensures { (me : Bytes) (t : Mail) (acts : List Act) → MakesRow me t acts self.now → result ≡ expiry me t }
    {
        self.expiry
    }

    /// The row at a moment, in seconds since 1970-01-01 00:00:00 UTC: `None` exactly where it is withdrawn or expired. It is
    /// that of the mail and the acts for which the maker stands. Takes no memory.
    pub fn end(self, now: u64) -> Option<Row>
        ensures { (me : Bytes) (t : Mail) (acts : List Act) → MakesRow me t acts self → result ≡ row_by me now t acts }
    {
        if self.withdrawn || self.expiry.is_some_and(|end| end <= now) {
            return None;
        }
        Some(self.row)
    }
}
