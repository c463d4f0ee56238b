//! What the answers to a card that comes or goes rest on, and what the kept cites stand for.
ghost use Rattle.std.specs.Prelude.{◌≡◌, List, ◌∷◌, ◌++◌, true, false, if◌then◌else◌};
ghost use Rattle.std.specs.List.{IsDistinct};
ghost use Rattle.std.specs.List.Sorted.{IsStrictlySortedBy};
ghost use Rattle.lists.specs.Sorted.{insert_by};
ghost use Rattle.card_type.specs.Effects.{is_among};
ghost use Rattle.card_type.specs.Kinds.{kind_of, is_content};
ghost use Rattle.mailbox_model.specs.declared.links.Cites.{Cites};
ghost use Rattle.mailbox_model.specs.Lists.{Bytes};
ghost use Rattle.mailbox_model.specs.Mailbox.{Mailbox};
ghost use Rattle.mailbox_model.specs.Present.{Mail, spot, mail_cmp, same_id, present};
ghost use Rattle.mailbox_model.specs.Turns.{with_mail};
ghost use Rattle.mailbox_model.specs.Chats.{cites, cites_by, cites_cmp, is_id_among, DistinctIds, parent_among, chat_among};
ghost use Rattle.thread_links.specs.Linked.{chat_of_parent, cites_among, without_id};

/// A card that comes, `x`, moves no card but those that name it, and those that name a card that moved. So does one that
/// goes, where the two sides of each law are read the other way round.
///
/// - `earlier`: each earlier card stays in its chat.
/// - `parent`: a later card `t` that does not name `x` has the same parent.
/// - `of_parent`: where it names no card that moved either, this parent is in the same chat.
/// - `chat`: and then `t` is in the same chat.
pub fn a_card_moves_only_what_names_it()
    ensures earlier { (before later : List Cites) (x t : Cites) → is_id_among before t.spot.id ≡ true
        → chat_among (before ++ x ∷ later) t.spot.id ≡ chat_among (before ++ later) t.spot.id }
    ensures parent { (before between : List Cites) (x t : Cites) → is_among t.candidates x.spot.id ≡ false
        → parent_among (before ++ x ∷ between) t ≡ parent_among (before ++ between) t }
    ensures of_parent { (before between later : List Cites) (x t : Cites) → is_among t.candidates x.spot.id ≡ false
        → ((id : Bytes) → is_among t.candidates id ≡ true
        → chat_among (before ++ x ∷ between ++ t ∷ later) id ≡ chat_among (before ++ between ++ t ∷ later) id)
        → chat_of_parent (before ++ x ∷ between) t later ≡ chat_of_parent (before ++ between) t later }
    ensures chat { (before between later : List Cites) (x t : Cites) → is_among t.candidates x.spot.id ≡ false
        → DistinctIds (before ++ x ∷ between ++ t ∷ later)
        → chat_of_parent (before ++ x ∷ between) t later ≡ chat_of_parent (before ++ between) t later
        → chat_among (before ++ x ∷ between ++ t ∷ later) t.spot.id ≡ chat_among (before ++ between ++ t ∷ later) t.spot.id }
{}

/// The cites that are kept stand for the mails of a mailbox when one comes in or leaves. Mails are in mail order, and no two
/// have one id.
///
/// - `present`: the cites of a mailbox are those of its present mails.
/// - `add`: those of a content that comes in are put in their place in mail order, and any other mail changes none.
/// - `absent`: none of the others has its id, as `Links::add` asks.
/// - `remove`: without its id they are those of the others.
/// - `there`: its id is there exactly where it is a content, as `Links::remove` asks.
pub fn cites_follow_from_mails()
    ensures present { (m : Mailbox) → cites m ≡ cites_among m.me (present m) }
    ensures add { (me : Bytes) (t : Mail) (ts : List Mail) → IsStrictlySortedBy mail_cmp (with_mail t ts)
        → cites_among me (with_mail t ts)
        ≡ (if is_content (kind_of t.placed.card) then insert_by cites_cmp (cites_by me (spot t.placed) t.placed.card) (cites_among me ts) else cites_among me ts) }
    ensures absent { (me : Bytes) (t : Mail) (ts : List Mail) → IsDistinct same_id (with_mail t ts)
        → is_id_among (cites_among me ts) t.placed.card.id ≡ false }
    ensures remove { (me : Bytes) (t : Mail) (ts : List Mail) → IsStrictlySortedBy mail_cmp (with_mail t ts)
        → IsDistinct same_id (with_mail t ts)
        → without_id t.placed.card.id (cites_among me (with_mail t ts)) ≡ cites_among me ts }
    ensures there { (me : Bytes) (t : Mail) (ts : List Mail) → IsStrictlySortedBy mail_cmp (with_mail t ts)
        → IsDistinct same_id (with_mail t ts)
        → is_id_among (cites_among me (with_mail t ts)) t.placed.card.id ≡ is_content (kind_of t.placed.card) }
{}
