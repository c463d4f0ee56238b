//! Laws of a family and of the states of its chats.
ghost use Rattle.std.specs.Prelude.{◌≡◌, ◌≤◌, Bool, true, false, Option, Some, None, List, if◌then◌else◌, length, map, find, All};
ghost use Rattle.std.specs.List.{IsDistinct};
ghost use Rattle.std.specs.Str.{bytes_eq};
ghost use Rattle.std.specs.FinMap as map_of;
ghost use Rattle.card_type.specs.Keys.{key_cmp};
ghost use Rattle.card_type.specs.Kinds.{has_some};
ghost use Rattle.card_type.specs.declared.key.ChatKey.{ChatKey};
ghost use Rattle.mailbox_model.specs.Lists.{Bytes};
ghost use Rattle.mailbox_model.specs.States.{Shown};
ghost use Rattle.chat_view.specs.declared.state.ChatState.{ChatState};
ghost use Rattle.chat_view.specs.Changes.{AreInOrder};
ghost use Rattle.chat_view.specs.Standing.{state_of};
ghost use Rattle.chat_states.specs.Families.{Family, AreCardsOf, CoverAll};
ghost use Rattle.chat_states.specs.States.{AreStatesOf, Has};

/// The states of the chats follow from the family alone, once all are settled.
///
/// - `one_list`: a chat has one list of cards.
/// - `few`: it has no more cards than there are ids that cover them.
/// - `own`: each of them is the card that the chat has at its id.
/// - `found`: a list in mail order without an id twice is that of a chat that has at each id what is found there.
/// - `told`: the state of a chat that is settled is that of its cards, and there is none where it has none.
/// - `stand`: and such a state is one that it has.
/// - `weaker`: more chats may be taken as unsettled.
/// - `empty`: no states are those of the family without cards.
pub fn states_follow_their_family()
    ensures one_list { (by_id : Bytes → Option Shown) (cards others : List Shown) → AreCardsOf by_id cards
        → AreCardsOf by_id others → cards ≡ others }
    ensures few { (by_id : Bytes → Option Shown) (ids : List Bytes) (cards : List Shown) → CoverAll ids by_id
        → AreCardsOf by_id cards → length cards ≤ length ids }
    ensures own { (by_id : Bytes → Option Shown) (cards : List Shown) → AreCardsOf by_id cards → All (λ c. by_id c.spot.id ≡ Some c) cards }
    ensures found { (by_id : Bytes → Option Shown) (cards : List Shown) → AreInOrder cards → IsDistinct bytes_eq (map (λ c. c.spot.id) cards)
        → ((id : Bytes) → by_id id ≡ find (λ c. bytes_eq id c.spot.id) cards) → AreCardsOf by_id cards }
    ensures told { (me : Bytes) (key : ChatKey) (by_id : Bytes → Option Shown) (cards : List Shown) (state : Option ChatState)
        → AreCardsOf by_id cards → Has me key false by_id state → state ≡ (if has_some cards then Some (state_of me key cards) else None) }
    ensures stand { (me : Bytes) (key : ChatKey) (by_id : Bytes → Option Shown) (cards : List Shown)
        → AreCardsOf by_id cards → Has me key false by_id (if has_some cards then Some (state_of me key cards) else None) }
    ensures weaker { (me : Bytes) (unsettled more : ChatKey → Bool) (family : Family) (states : map_of.FinMap key_cmp ChatState)
        → ((key : ChatKey) → unsettled key ≡ true → more key ≡ true) → AreStatesOf me unsettled family states
        → AreStatesOf me more family states }
    ensures empty { (me : Bytes) (unsettled : ChatKey → Bool) → AreStatesOf me unsettled (λ key id. None) map_of.empty }
{}
