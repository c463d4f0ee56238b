//! What is kept gives who acts on whom. Its function does nothing: its clauses speak of all cards in mail order.
ghost use Rattle.std.specs.Prelude.{◌≡◌, List, false, map};
ghost use Rattle.std.specs.List.{list_any};
ghost use Rattle.std.specs.List.Sorted.{IsStrictlySortedBy};
ghost use Rattle.lists.specs.Sorted.{insert_by};
ghost use Rattle.card_type.specs.declared.spot.Spot.{Spot};
ghost use Rattle.card_type.specs.Spots.{spot_cmp};
ghost use Rattle.mailbox_model.specs.Lists.{Bytes};
ghost use Rattle.mailbox_model.specs.Present.{Placed, Mail, spot, mail_cmp};
ghost use Rattle.mailbox_model.specs.Rows.{naming};
ghost use Rattle.mailbox_model.specs.Turns.{with_mail};
ghost use Rattle.effects.specs.Named.{StandsFor, named, named_with, named_without, put_once, same_spot};

/// What is kept of cards in mail order gives the cards that name an id.
///
/// - `on`: the uids of an id are those of the cards that name it, in mail order.
/// - `place`: a spot that is not there yet is put before the first one that follows it in mail order.
/// - `add`: after `Effects::add` of a mail that comes in it stands for that too.
/// - `remove`: after `Effects::remove` of a mail that leaves it stands for the others.
pub fn effects_follow_from_cards()
    ensures on { (spots : List (Bytes × List Spot)) (cards : List Placed) (id : Bytes) → StandsFor spots cards
        → map (λ spot. spot.uid) (named spots id) ≡ map (λ e. e.uid) (naming id cards) }
    ensures place { (spot : Spot) (spots : List Spot) → list_any (same_spot spot) spots ≡ false
        → put_once spot spots ≡ insert_by spot_cmp spot spots }
    ensures add { (before after : List (Bytes × List Spot)) (t : Mail) (ts : List Mail)
        → IsStrictlySortedBy mail_cmp (with_mail t ts) → StandsFor before (map (λ u. u.placed) ts)
        → ((id : Bytes) → named after id ≡ named_with (spot t.placed) t.placed.card id (named before id))
        → StandsFor after (map (λ u. u.placed) (with_mail t ts)) }
    ensures remove { (before after : List (Bytes × List Spot)) (t : Mail) (ts : List Mail)
        → IsStrictlySortedBy mail_cmp (with_mail t ts) → StandsFor before (map (λ u. u.placed) (with_mail t ts))
        → ((id : Bytes) → named after id ≡ named_without (spot t.placed) t.placed.card id (named before id))
        → StandsFor after (map (λ u. u.placed) ts) }
{}
