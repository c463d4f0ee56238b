//! Laws of what a change touches. Each is the contract of a function that does nothing: its clauses speak of every mailbox
//! and every change.
ghost use Rattle.std.specs.Prelude.{◌≡◌, ◌⊎◌, ◌↔◌, Bool, filter, ◌<◌, ◌==◌, find, IfSome, Option, Some, ◌||◌, ◌&&◌, ◌≢◌, ℕ, ◌≤◌, ◌+◌, ◌*◌, List, length, true, false, None, if◌then◌else◌, is_some, nat_eq, sum_by};
ghost use Rattle.std.specs.List.{list_any, AllByRecursion, IsDistinct};
ghost use Rattle.std.specs.Str.{bytes_eq};
ghost use Rattle.lists.specs.Sorted.{insert_by};
ghost use Rattle.card_type.specs.declared.key.ChatKey.{ChatKey};
ghost use Rattle.card_type.specs.Keys.{key_eq};
ghost use Rattle.mailbox_model.specs.declared.change.Change.{Change};
ghost use Rattle.mailbox_model.specs.declared.links.Cites.{Cites};
ghost use Rattle.mailbox_model.specs.declared.turn.Turn.{Turn};
ghost use Rattle.mailbox_model.specs.Mailbox.{Mailbox, after, after_all, entry_at, full, AreAllowed, IsMailbox, IsValidChange};
ghost use Rattle.mailbox_model.specs.Lists.{Bytes};
ghost use Rattle.mailbox_model.specs.Present.{contents, mail_at, spot_of};
ghost use Rattle.mailbox_model.specs.Turns.{turn, IsTurn};
ghost use Rattle.mailbox_model.specs.Chats.{chat, chat_mails, cites, cites_cmp, is_chat, moves};
ghost use Rattle.mailbox_model.specs.Rows.{expiry, row};
ghost use Rattle.mailbox_model.specs.Frames.{NameStays, Stays};
ghost use Rattle.mailbox_model.specs.Pages.{page};
ghost use Rattle.mailbox_model.specs.ChatList.{list_row};
ghost use Rattle.mailbox_model.specs.States.{chat_cards};
ghost use Rattle.touched_chats.specs.Ahead.{entry_ahead, now_ahead, spot_ahead};
ghost use Rattle.touched_chats.specs.Costs.{build_reads, by_uid, cards_in, change_cost, change_costs, citing_unsettled, pairs_of, refold_reads, repair_cost, settle_reads, touched_keys, AreHeld};
ghost use Rattle.touched_chats.specs.Suspects.{has_due, is_end, is_moved, is_renamed, is_suspect, is_suspect_card, is_turned, turned, uid_falls_due, CardStays};
ghost use Rattle.touched_chats.specs.Touched.{has_chat, is_concerned, HoldsTouched, IsTouched};

/// A chat that is not suspect stays as it is: nothing that is kept of it has to be looked at.
///
/// The turn of a change says how the present mails and the moment change (`changes_move_the_present`). A chat is suspect
/// where a card came into it or left it, where a mail that came, left or was marked is in it or names a card of it, where it
/// is the chat with one other whose name such a mail changes, and where a shown row of it has expired.
///
/// - `stays`: any other chat has the same cards, and each has the same row.
/// - `name`: and the one other that it may be with has the same name.
/// - `page`, `list`: so it has the same page, and the same row in the list.
/// - `cards`: each card is marked alike, so that what is kept of the chat, which follows from the places, the cards and the
///   marks, is the same.
/// - `deadlines`: each shown card expires at the same moment.
/// - `change`: all this is so for every change of a mailbox, be it an arrival, an expunge, a seen mark or a moment.
pub fn a_chat_that_is_not_suspect_stays()
    ensures stays { (m n : Mailbox) (turn : Turn) (key : ChatKey) → m.me ≡ n.me → IsTurn m n turn
        → is_suspect m n turn key ≡ false → Stays m n key }
    ensures name { (m n : Mailbox) (turn : Turn) (key : ChatKey) → IsTurn m n turn → is_suspect m n turn key ≡ false
        → NameStays m n key }
    ensures page { (m n : Mailbox) (turn : Turn) (key : ChatKey) → m.me ≡ n.me → IsTurn m n turn
        → is_suspect m n turn key ≡ false → page m key ≡ page n key }
    ensures list { (m n : Mailbox) (turn : Turn) (key : ChatKey) → m.me ≡ n.me → IsTurn m n turn
        → is_suspect m n turn key ≡ false → list_row m key ≡ list_row n key }
    ensures cards { (m n : Mailbox) (turn : Turn) (key : ChatKey) → m.me ≡ n.me → IsTurn m n turn
        → is_suspect m n turn key ≡ false → chat_cards m key ≡ chat_cards n key }
    ensures deadlines { (m n : Mailbox) (turn : Turn) (key : ChatKey) → m.me ≡ n.me → IsTurn m n turn
        → is_suspect m n turn key ≡ false
        → AllByRecursion (λ t. (if is_some (row m t) then expiry m.me t else None) ≡ (if is_some (row n t) then expiry n.me t else None)) (chat_mails m key) }
    ensures change { (m : Mailbox) (change : Change) (key : ChatKey) → IsMailbox m
        → is_suspect m (after m change) (turn m change) key ≡ false
        → Stays m (after m change) key × NameStays m (after m change) key }
{}

/// A card that is not suspect stays as it is, so that a program that keeps something of each card need not look at it.
///
/// A card is suspect where it is in another chat than before, where a mail that came, left or was marked is it or names it,
/// and where its row is shown and has expired.
///
/// - `stays`: any other card has the same mail, is in the same chat and has the same row.
/// - `change`: so it is for every change of a mailbox.
pub fn a_card_that_is_not_suspect_stays()
    ensures stays { (m n : Mailbox) (turn : Turn) (id : Bytes) → m.me ≡ n.me → IsTurn m n turn
        → is_suspect_card m n turn id ≡ false → CardStays m n id }
    ensures change { (m : Mailbox) (change : Change) (id : Bytes) → IsMailbox m
        → is_suspect_card m (after m change) (turn m change) id ≡ false → CardStays m (after m change) id }
{}

/// The chats that the suspect cards are in, before or after, and that of a renamed contact are the suspect chats.
///
/// - `card`: each chat that a suspect card is in, before or after, is suspect.
/// - `chat`: a suspect chat is renamed, or such a card is in it, before or after.
pub fn a_suspect_chat_has_a_suspect_card()
    ensures card { (m n : Mailbox) (turn : Turn) (key : ChatKey) (id : Bytes) → is_suspect_card m n turn id ≡ true
        → (is_chat key (chat m id) || is_chat key (chat n id)) ≡ true → is_suspect m n turn key ≡ true }
    ensures chat { (m n : Mailbox) (turn : Turn) (key : ChatKey) → is_suspect m n turn key ≡ true
        → (is_renamed m n turn key ≡ true) ⊎ ((id : Bytes) × (is_suspect_card m n turn id ≡ true) × ((is_chat key (chat m id) || is_chat key (chat n id)) ≡ true)) }
{}

/// Every chat that a change touches is suspect. So a program that looks at the suspect chats has all that show something of a
/// changed mail, and all whose cards or page differ.
pub fn a_touched_chat_is_suspect()
    ensures { (m n : Mailbox) (turn : Turn) (key : ChatKey) → m.me ≡ n.me → IsTurn m n turn → IsTouched m n key
        → is_suspect m n turn key ≡ true }
{}

/// A suspect chat that is there before or after is touched. So the suspect chats that are there are exactly the touched ones,
/// and a program that tells them tells no chat in vain.
///
/// - `moved`: where a card came into a chat or left it, the cards of the chat differ.
/// - `turned`: where a mail that came, left or was marked is in a chat after the turn, or names a card of it, a card of that
///   chat changed or is named by a mail that did.
/// - `renamed`: where such a mail changes the name of the one other of a chat, the page differs.
/// - `due`: where a shown row has expired, the page differs.
/// - `touched`: by any of these the chat is touched.
/// - `exact`: so it is for every change that a mailbox allows, and no other chat is touched.
pub fn a_suspect_chat_is_touched()
    ensures moved { (m n : Mailbox) (key : ChatKey) → is_moved (cites m) (cites n) key ≡ true
        → chat_mails m key ≢ chat_mails n key }
    ensures turned { (m n : Mailbox) (turn : Turn) (key : ChatKey) → IsMailbox m → IsMailbox n → IsTurn m n turn
        → is_turned m n turn key ≡ true → list_any (is_concerned m n) (chat_mails n key) ≡ true }
    ensures renamed { (m n : Mailbox) (turn : Turn) (key : ChatKey) → IsMailbox m → IsMailbox n
        → is_renamed m n turn key ≡ true → (has_chat m key || has_chat n key) ≡ true → page m key ≢ page n key }
    ensures due { (m n : Mailbox) (turn : Turn) (key : ChatKey) → m.me ≡ n.me → IsTurn m n turn
        → has_due m n.now key ≡ true → page m key ≢ page n key }
    ensures touched { (m n : Mailbox) (turn : Turn) (key : ChatKey) → m.me ≡ n.me → IsMailbox m → IsMailbox n
        → IsTurn m n turn → is_suspect m n turn key ≡ true → (has_chat m key || has_chat n key) ≡ true
        → IsTouched m n key }
    ensures exact { (m : Mailbox) (change : Change) (key : ChatKey) → IsMailbox m → IsValidChange change
        → full m change ≡ false → IsTouched m (after m change) key
        ↔ ((is_suspect m (after m change) (turn m change) key ≡ true) × ((has_chat m key || has_chat (after m change) key) ≡ true)) }
{}

/// What a program is told of moves, the deadlines that it keeps, and the uids of a turn tell which chats are suspect.
///
/// - `add`: where a card came, the moves of the cards after it, as `Links::add` gives them, tell which chats a card came into
///   or left.
/// - `remove`: where cards left, so do the moves of the cards before, as `Links::remove` gives them.
/// - `between`: where one card leaves and then another one comes, a chat that a card came into or left in all is one that a
///   card came into or left by one of both.
/// - `due`: where no deadline that is left is reached, and those of the cards of a chat are all left, no shown row of the chat
///   has expired.
/// - `uid`: each content mail is found by its uid, so that the deadline under a uid is that of its mail.
/// - `mails`: each mail of a turn is the one with its uid, before or after.
pub fn moves_and_deadlines_tell_the_suspects()
    ensures add { (c : Cites) (before after : List Cites) (key : ChatKey) → after ≡ insert_by cites_cmp c before
        → list_any (is_end key) (moves after before after) ≡ is_moved before after key }
    ensures remove { (p : Cites → Bool) (before after : List Cites) (key : ChatKey) → after ≡ filter p before
        → list_any (is_end key) (moves before before after) ≡ is_moved before after key }
    ensures between { (before between after : List Cites) (key : ChatKey) → is_moved before after key ≡ true
        → (is_moved before between key || is_moved between after key) ≡ true }
    ensures due { (m : Mailbox) (key : ChatKey) (moment : ℕ) (left : ℕ → Option ℕ)
        → ((uid : ℕ) → IfSome (left uid) (λ end. moment < end))
        → AllByRecursion (λ t. left t.placed.uid ≡ (if is_some (row m t) then expiry m.me t else None)) (chat_mails m key)
        → has_due m moment key ≡ false }
    ensures uid { (m : Mailbox) → IsMailbox m
        → AllByRecursion (λ t. find (λ u. u.placed.uid == t.placed.uid) (contents m) ≡ Some t) (contents m) }
    ensures mails { (m n : Mailbox) (turn : Turn) → IsMailbox m → IsMailbox n
        → AllByRecursion (λ t. (mail_at m t.placed.uid ≡ Some t) ⊎ (mail_at n t.placed.uid ≡ Some t)) (turned m n turn) }
{}

/// To fold touched chats anew costs no more than a repair may cost, in reads of kept cards.
///
/// Of different chats, each card is read once, and for each card once each present card that names it.
///
/// - `reads`: where each of these chats is among `held`, these are no more than the cards of the chats of `held`, before or
///   after, and the pairs of such a card and a card that names it.
/// - `cost`: so where each is touched, and `held` has all touched chats, four times as many, and 16 more, are within the cost
///   of a repair.
pub fn refolds_fit_the_cost()
    ensures reads { (m n : Mailbox) (keys held : List ChatKey) → IsDistinct key_eq keys → AreHeld held keys
        → refold_reads n keys ≤ length (cards_in m n held) + pairs_of m n (by_uid (cards_in m n held) (citing_unsettled m n)) }
    ensures cost { (m n : Mailbox) (keys held : List ChatKey) → IsDistinct key_eq keys → AllByRecursion (IsTouched m n) keys
        → HoldsTouched m n held → 4 * refold_reads n keys + 16 ≤ repair_cost m n held }
{}

/// To repair what is kept after a change, card by card, takes no more than the change may cost, in reads of kept cards.
///
/// - `key`: a key is among those of the touched chats just where its chat is suspect and is there, before or after.
/// - `once`: each is there once.
/// - `held`: for every change that a mailbox allows each of them is touched, and these are all.
/// - `settling`: to settle different suspect cards reads no more than twice the cards of the touched chats, and the pairs of
///   such a card and a card that names it.
/// - `folding`: different ones of these chats have no more cards than are counted.
/// - `draining`: nor are there more rows that fall due, of different uids.
/// - `change`: all of these together, and 16 more, are within what the change may cost.
pub fn a_repair_fits_the_cost()
    ensures key { (m n : Mailbox) (turn : Turn) (key : ChatKey) → list_any (key_eq key) (touched_keys m n turn)
        ≡ (is_suspect m n turn key && (has_chat m key || has_chat n key)) }
    ensures once { (m n : Mailbox) (turn : Turn) → IsDistinct key_eq (touched_keys m n turn) }
    ensures held { (m : Mailbox) (change : Change) → IsMailbox m → IsValidChange change → full m change ≡ false
        → let n = after m change in let held = touched_keys m n (turn m change) in AllByRecursion (IsTouched m n) held × HoldsTouched m n held }
    ensures settling { (m n : Mailbox) (turn : Turn) (ids : List Bytes) (held : List ChatKey) → m.me ≡ n.me → IsMailbox m
        → IsMailbox n → IsTurn m n turn → IsDistinct bytes_eq ids → AllByRecursion (λ id. is_suspect_card m n turn id ≡ true) ids
        → HoldsTouched m n held → sum_by (settle_reads m n) ids
        ≤ 2 * length (cards_in m n held) + pairs_of m n (by_uid (cards_in m n held) (citing_unsettled m n)) }
    ensures folding { (m n : Mailbox) (keys held : List ChatKey) → IsDistinct key_eq keys → AreHeld held keys
        → sum_by (λ key. length (chat_mails n key)) keys ≤ length (cards_in m n held) }
    ensures draining { (m n : Mailbox) (turn : Turn) (uids : List ℕ) (held : List ChatKey) → m.me ≡ n.me → IsMailbox m
        → IsMailbox n → IsTurn m n turn → IsDistinct nat_eq uids
        → AllByRecursion (λ uid. uid_falls_due m n.now uid ≡ true) uids
        → HoldsTouched m n held → length uids ≤ length (cards_in m n held) }
    ensures change { (m : Mailbox) (change : Change) (ids : List Bytes) (keys : List ChatKey) (uids : List ℕ) → IsMailbox m
        → IsValidChange change → full m change ≡ false → let n = after m change in
        IsDistinct bytes_eq ids → AllByRecursion (λ id. is_suspect_card m n (turn m change) id ≡ true) ids
        → IsDistinct key_eq keys → AreHeld (touched_keys m n (turn m change)) keys → IsDistinct nat_eq uids
        → AllByRecursion (λ uid. uid_falls_due m n.now uid ≡ true) uids
        → sum_by (settle_reads m n) ids + sum_by (λ key. length (chat_mails n key)) keys + length uids + 16 ≤ change_cost m change }
{}

/// What is kept beside a mailbox may be built anew after changes as well as before them: that reads kept cards no more often
/// than it did before, and as often as the changes may cost.
///
/// - `change`: so it is of a change that a mailbox allows.
/// - `changes`: and of several, one after the other.
pub fn building_later_fits_the_cost()
    ensures change { (m : Mailbox) (change : Change) → IsMailbox m → IsValidChange change → full m change ≡ false
        → build_reads (after m change) ≤ build_reads m + change_cost m change }
    ensures changes { (m : Mailbox) (changes : List Change) → IsMailbox m → AreAllowed m changes
        → build_reads (after_all m changes) ≤ build_reads m + change_costs m changes }
{}

/// What a change leaves is known before it is made, so that a program may repair first and change the mailbox last.
///
/// - `entry`: what has a uid after the change: the card, when it arrived and when it was seen.
/// - `spot`: where the present mail with an id is after the turn.
/// - `now`: the moment after the turn.
pub fn a_change_is_told_ahead()
    ensures entry { (m : Mailbox) (change : Change) (uid : ℕ) → IsMailbox m
        → entry_ahead m change uid ≡ entry_at (after m change) uid }
    ensures spot { (m n : Mailbox) (turn : Turn) (id : Bytes) → IsTurn m n turn → spot_of n id ≡ spot_ahead m turn id }
    ensures now { (m n : Mailbox) (turn : Turn) → IsTurn m n turn → n.now ≡ now_ahead m.now turn }
{}
