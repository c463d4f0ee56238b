//! The rosters that single cards could not tell are folded anew.
ghost use Rattle.std.specs.Prelude.{◌≡◌, ◌≤◌, ◌+◌, ◌++◌, ◌||◌, [], Bool, List, None, Some, false, true, length, IfOk, OnOk, is_some};
ghost use Rattle.std.specs.FinMap as map_of;
ghost use Rattle.std.specs.List.{AllByRecursion, sum_by};
ghost use Rattle.card_type.specs.declared.key.ChatKey.{ChatKey};
ghost use Rattle.card_type.specs.Keys.{key_eq};
ghost use Rattle.mailbox_model.specs.Chats.{chat_mails};
ghost use Rattle.mailbox_model.specs.Mailbox.{card_at};
ghost use Rattle.lists.specs.Chunks.{joined};
ghost use Rattle.group_roster.specs.Setters.{At, RestsOn};
ghost use Rattle.chat_view.specs.declared.state.ChatState.{ChatState};
ghost use Rattle.chat_states.specs.States.{AreStatesOf, has_key};
ghost use Rattle.repair.specs.Cards.{card_in, cards_at};

use card_type::{ChatKey, KeyMap, Spot};
use chat_states::{KeySet, settle};
use chat_view::ChatState;
use group_roster::{Setters, add_at, begin};
use indexes::View;
use kit::{Memory, Steps};
use lists::Items;
use mailbox_model::Roster;
use std::alloc::Global;
use std::sync::ledger::Ledger;

/// Adds the cards at these spots to a roster, with its setters.
fn add_spots<L: Ledger>(
    alloc: Global,
    view: &View<'_>,
    key: &ChatKey,
    spots: &[Spot],
    roster: &mut Roster,
    setters: &mut Setters,
    steps: &mut Steps<L>,
) -> Result<(), Memory>
    requires there { AllByRecursion (λ s. is_some (card_at view.now s.uid) ≡ true) spots.now }
    ensures rests { OnOk result ((cards : List At) → RestsOn view.now.me key.now cards roster.old setters.old
        → RestsOn view.now.me key.now (cards ++ cards_at view.now spots.now) roster.new setters.new) }
    ensures cost { steps.new ≤ steps.old + length spots.now }
{
    let me = view.me();
    for spot in spots {
        let card = view.card(spot.uid, steps).unwrap();
        add_at(alloc, roster, setters, key, spot, card, me)?;
    }
    Ok(())
}

/// The roster of the cards at the spots of these chunks, with its setters.
fn fold_roster<L: Ledger>(
    alloc: Global,
    view: &View<'_>,
    key: &ChatKey,
    chunks: &[Items<Spot>],
    steps: &mut Steps<L>,
) -> Result<(Roster, Setters), Memory>
    requires there { AllByRecursion (λ s. is_some (card_at view.now s.uid) ≡ true) (joined chunks.now) }
    ensures rests { IfOk result (λ folded. RestsOn view.now.me key.now (cards_at view.now (joined chunks.now)) folded.0 folded.1) }
    ensures cost { steps.new ≤ steps.old + length (joined chunks.now) }
{
    let mut roster = begin(alloc, key, view.me())?;
    let mut setters = Setters::new(alloc);
    for chunk in chunks {
        add_spots(
            alloc,
            view,
            key,
            chunk.as_slice(),
            &mut roster,
            &mut setters,
            steps,
        )?;
    }
    Ok((roster, setters))
}

/// The spots of the cards of a chat, chunk by chunk.
fn spots_of<'a>(chats: &'a KeyMap<ChatState>, key: &ChatKey) -> &'a [Items<Spot>]
    ensures some { (state : ChatState) → map_of.get chats.now key.now ≡ Some state → joined result.now ≡ state.spots }
    ensures none { map_of.get chats.now key.now ≡ None → joined result.now ≡ [] }
{
    match chats.get(key) {
        Some(state) => state.spots.chunks(),
        None => &[],
    }
}

/// Folds the roster of a chat anew, and lets the state of a chat without cards go.
fn refold<L: Ledger>(
    alloc: Global,
    view: &View<'_>,
    chats: &mut KeyMap<ChatState>,
    key: &ChatKey,
    steps: &mut Steps<L>,
) -> Result<(), Memory>
    requires states { (unsettled : ChatKey → Bool) × AreStatesOf view.now.me unsettled (card_in view.now) chats.old }
    ensures states { OnOk result ((unsettled : ChatKey → Bool) → AreStatesOf view.now.me (λ other. key_eq other key.now || unsettled other) (card_in view.now) chats.old
        → AreStatesOf view.now.me unsettled (card_in view.now) chats.new) }
    ensures others { OnOk result ((other : ChatKey) → key_eq key.now other ≡ false → map_of.get chats.new other ≡ map_of.get chats.old other) }
    ensures cost { steps.new ≤ steps.old + length (chat_mails view.now key.now) }
{
    view.keeps_rules();
    let (roster, setters) = fold_roster(alloc, view, key, spots_of(chats, key), steps)?;
    settle(chats, key, roster, setters)
}

/// Folds the roster of a chat anew, and lets its key go.
fn refold_next<L: Ledger>(
    alloc: Global,
    view: &View<'_>,
    chats: &mut KeyMap<ChatState>,
    key: ChatKey,
    steps: &mut Steps<L>,
) -> Result<(), Memory>
    requires states { (unsettled : ChatKey → Bool) × AreStatesOf view.now.me unsettled (card_in view.now) chats.old }
    ensures states { OnOk result ((unsettled : ChatKey → Bool) → AreStatesOf view.now.me (λ other. key_eq other key || unsettled other) (card_in view.now) chats.old
        → AreStatesOf view.now.me unsettled (card_in view.now) chats.new) }
    ensures others { OnOk result ((other : ChatKey) → key_eq key other ≡ false → map_of.get chats.new other ≡ map_of.get chats.old other) }
    ensures cost { steps.new ≤ steps.old + length (chat_mails view.now key) }
{
    refold(alloc, view, chats, &key, steps)
}

/// Folds the rosters of these chats anew, each once, and lets the states of chats without cards go.
pub(crate) fn refold_all<L: Ledger>(
    alloc: Global,
    view: &View<'_>,
    chats: &mut KeyMap<ChatState>,
    mut unsettled: KeySet,
    steps: &mut Steps<L>,
) -> Result<(), Memory>
    requires states { AreStatesOf view.now.me (has_key unsettled) (card_in view.now) chats.old }
    ensures states { OnOk result (AreStatesOf view.now.me (λ _. false) (card_in view.now) chats.new) }
    ensures others { OnOk result ((key : ChatKey) → has_key unsettled key ≡ false → map_of.get chats.new key ≡ map_of.get chats.old key) }
    ensures cost { steps.new ≤ steps.old + sum_by (λ key. length (chat_mails view.now key)) unsettled }
{
    while let Some(key) = unsettled.pop() {
        refold_next(alloc, view, chats, key, steps)?;
    }
    Ok(())
}
