//! The row of a card.
ghost use Rattle.std.specs.Prelude.{◌≡◌, ◌≤◌, ◌<◌, ◌+◌, ◌++◌, List, Option, Some, true, length, is_some, option_map, IfOk, OnOk};
ghost use Rattle.std.specs.Option.{option_to_list};
ghost use Rattle.effects.specs.Named.{StandsFor as AreEffects};
ghost use Rattle.mailbox_model.specs.Lists.{Bytes};
ghost use Rattle.mailbox_model.specs.Mailbox.{card_at};
ghost use Rattle.mailbox_model.specs.Present.{Mail, Placed, mail_at, present_cards};
ghost use Rattle.mailbox_model.specs.Rows.{Act, act_on, acting, row};
ghost use Rattle.chat_view.specs.Makers.{MakesRow};
ghost use Rattle.indexes.specs.Costs.{times_named};
ghost use Rattle.indexes.specs.Kept.{deadline_of, present_at, spot_at};

use crate::view::View;
use box_state::Mailbox;
use card_type::{Card, Spot, effect_of};
use chat_view::{Mark, Row, RowMaker};
use effects::Effects;
use kit::{Memory, Steps};
use std::alloc::Global;
use std::sync::ledger::Ledger;

/// Adds what the present card with a uid does to another one.
fn add_act<L: Ledger>(
    maker: &mut RowMaker,
    view: &View<'_>,
    card: &Card,
    uid: u32,
    steps: &mut Steps<L>,
) -> Result<(), Memory>
    requires there { is_some (present_at view.now uid) ≡ true }
    requires room { (p : Placed) → present_at view.now uid ≡ Some p → length maker.old.row.updates + length p.card.updates < 4294967296 }
    ensures stands { OnOk result ((p : Placed) (t : Mail) (acts : List Act) → present_at view.now uid ≡ Some p
        → t.placed.card ≡ card.now → MakesRow view.now.me t acts maker.old
        → MakesRow view.now.me t (acts ++ option_to_list (act_on view.now.me card.now p)) maker.new) }
    ensures updates { OnOk result ((p : Placed) → present_at view.now uid ≡ Some p
        → length maker.new.row.updates ≤ length maker.old.row.updates + length p.card.updates) }
    ensures cost { steps.new ≤ steps.old + 1 }
{
    let me = view.me();
    let e = view.card(uid, steps).unwrap();
    let spot = view.spot_of(&e.id).unwrap();
    match effect_of(e, card, me) {
        Some(effect) => maker.add(effect, spot, e),
        None => Ok(()),
    }
}

/// The maker of the row of the card at a spot, with all that acts on it.
pub(crate) fn row_maker<L: Ledger>(
    alloc: Global,
    view: &View<'_>,
    effects: &Effects,
    spot: &Spot,
    card: &Card,
    steps: &mut Steps<L>,
) -> Result<RowMaker, Memory>
    requires there { spot_at view.now spot.now.uid ≡ Some spot.now }
    requires card { card_at view.now spot.now.uid ≡ Some card.now }
    requires effects { AreEffects effects.now (present_cards view.now) }
    ensures stands { IfOk result (λ maker. (t : Mail) → mail_at view.now spot.now.uid ≡ Some t
        → MakesRow view.now.me t (acting view.now t.placed.card) maker) }
    ensures cost { steps.new ≤ steps.old + times_named view.now spot.now.id }
{
    let me = view.me();
    let seen = view.seen(spot.uid);
    let mut maker = RowMaker::new(alloc, spot, card, seen, me)?;
    for uid in effects.on(&spot.id) {
        add_act(&mut maker, view, card, *uid, steps)?;
    }
    Ok(maker)
}

/// How a card is shown: the mark of its row, and when it expires, if it ever does. Both are `None` where it is not shown.
#[derive(Clone, Copy, Debug)]
pub struct Showing {
    /// The mark of its row.
    pub mark: Option<Mark>,
    /// The moment at which it expires, in seconds since 1970-01-01 00:00:00 UTC.
    pub deadline: Option<u64>,
}

/// The mark of a row that may be missing.
fn mark_of(row: &Option<Row>) -> Option<Mark>
    ensures { result ≡ option_map (λ row. row.mark) row.now }
{
    row.as_ref().map(|row| row.mark)
}

/// How the content card at a spot is shown, by all that acts on it. Takes memory; `Err` only when it runs out.
///
/// - `mark`: the mark is that of the row of its mail.
/// - `deadline`: and so is the deadline.
/// - `cost`: it reads each present card that names this one.
pub fn shown_at<L: Ledger>(
    alloc: Global,
    view: &View<'_>,
    effects: &Effects,
    spot: &Spot,
    card: &Card,
    steps: &mut Steps<L>,
) -> Result<Showing, Memory>
    requires there { spot_at view.now spot.now.uid ≡ Some spot.now }
    requires card { card_at view.now spot.now.uid ≡ Some card.now }
    requires effects { AreEffects effects.now (present_cards view.now) }
    ensures mark { IfOk result (λ shown. (t : Mail) → mail_at view.now spot.now.uid ≡ Some t → shown.mark ≡ option_map (λ row. row.mark) (row view.now t)) }
    ensures deadline { IfOk result (λ shown. (t : Mail) → mail_at view.now spot.now.uid ≡ Some t → shown.deadline ≡ deadline_of view.now t) }
    ensures cost { steps.new ≤ steps.old + times_named view.now spot.now.id }
{
    let maker = row_maker(alloc, view, effects, spot, card, steps)?;
    let expiry = maker.expiry();
    let row = maker.end(view.now());
    Ok(Showing {
        mark: mark_of(&row),
        deadline: if row.is_some() { expiry } else { None },
    })
}

/// The row of the card at a spot, and `None` where it is withdrawn or expired.
pub(crate) fn row_at<L: Ledger>(
    alloc: Global,
    mailbox: &Mailbox,
    effects: &Effects,
    spot: &Spot,
    steps: &mut Steps<L>,
) -> Result<Option<Row>, Memory>
    requires there { spot_at mailbox.now.mailbox spot.now.uid ≡ Some spot.now }
    requires effects { AreEffects effects.now (present_cards mailbox.now.mailbox) }
    ensures row { IfOk result (λ shown. (t : Mail) → mail_at mailbox.now.mailbox spot.now.uid ≡ Some t → shown ≡ row mailbox.now.mailbox t) }
    ensures cost { steps.new ≤ steps.old + (1 + times_named mailbox.now.mailbox spot.now.id) }
{
    let view = View::as_is(mailbox);
    let card = view.card(spot.uid, steps).unwrap();
    let maker = row_maker(alloc, &view, effects, spot, card, steps)?;
    Ok(maker.end(view.now()))
}
