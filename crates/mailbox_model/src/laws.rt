//! Laws of the definition of a mailbox and its pages. Each is the contract of a function that does nothing: its
//! clauses speak of every mailbox and every change.
ghost use Rattle.std.specs.Prelude.{◌≡◌, ◌↔◌, ◌⊎◌, ◌<◌, ◌≤◌, ℕ, pos, false, true, Some, None, List, [], ◌∷◌, ◌++◌, length, map, find, filter_map, option_and_then, option_map, is_some, if◌then◌else◌, filter, not, sum_by, IfSome, max};
ghost use Rattle.std.specs.List.{AllByRecursion, count_by, list_all, list_any, IsDistinct, range_with_len};
ghost use Rattle.std.specs.List.Sorted.{IsStrictlySortedBy, IsPermutation};
ghost use Rattle.std.specs.Ordering.{eq_by_cmp};
ghost use Rattle.std.specs.Result.{result_ok};
ghost use Rattle.std.specs.Str.{bytes_eq};
ghost use Rattle.jiff_core.specs.declared.civil.date.Date.{Date};
ghost use Rattle.jiff_core.specs.Date.{epoch_day, IsYmd};
ghost use Rattle.card_type.specs.declared.card.Card.{Card};
ghost use Rattle.card_type.specs.Keys.{key_eq};
ghost use Rattle.card_type.specs.Kinds.{has_some};
ghost use Rattle.card_type.specs.declared.key.ChatKey.{ChatKey};
ghost use Rattle.mailbox_model.specs.declared.change.Change.{Change};
ghost use Rattle.mailbox_model.specs.declared.links.Cites.{Cites};
ghost use Rattle.mailbox_model.specs.declared.turn.Turn.TheVariants.{Nothing};
ghost use Rattle.mailbox_model.specs.Lists.{Bytes};
ghost use Rattle.mailbox_model.specs.Mailbox.{Mailbox, Entry, entry_of, item_of, empty_mailbox, card_at, after, after_all, full, max_entries, max_total_weight, IsMailbox, IsValidChange, AreAllowed};
ghost use Rattle.mailbox_model.specs.Present.{Placed, Mail, mail_of, mail_at, mail_cmp, mails, has_id, same_id, same_uid, present, present_cards, contents};
ghost use Rattle.mailbox_model.specs.Turns.{turn, with_mail, IsTurn};
ghost use Rattle.mailbox_model.specs.Chats.{people, cites, chat, chat_among, chat_from, chat_mails, is_id_among, parent_among, DistinctIds, KeepRule};
ghost use Rattle.mailbox_model.specs.Rows.{acting, acts_on, naming, expiry, is_expired, reaction_of, reactions_by, row, same_part, same_reactor, shown_by};
ghost use Rattle.mailbox_model.specs.Rosters.{roster};
ghost use Rattle.mailbox_model.specs.Names.{name};
ghost use Rattle.mailbox_model.specs.Pages.{keys, page};
ghost use Rattle.mailbox_model.specs.Frames.{IsCardAlike, IsChatAlike, NameStays, Stays};
ghost use Rattle.mailbox_model.specs.ChatList.{list_page, list_row, list_cmp};
ghost use Rattle.mailbox_model.specs.States.{chat_cards, fresh_among, last_spot};
ghost use Rattle.mailbox_model.specs.Times.{civil_date};
ghost use Rattle.mailbox_model.specs.Answers.{Question, answer};

/// Each change keeps the rules of a mailbox.
///
/// - `empty`: the empty mailbox of any address keeps them.
/// - `after`: a change that is valid and not full leads from a mailbox that keeps them to one that does.
/// - `all`: so do changes one after the other, each of which is valid, and not full where it comes.
pub fn changes_keep_the_rules()
    ensures empty { (me : Bytes) → IsMailbox (empty_mailbox me) }
    ensures after { (m : Mailbox) (change : Change) → IsMailbox m → IsValidChange change → full m change ≡ false
        → IsMailbox (after m change) }
    ensures all { (m : Mailbox) (changes : List Change) → IsMailbox m → AreAllowed m changes
        → IsMailbox (after_all m changes) }
{}

/// The present cards are the first of each id in mail order.
///
/// - `all`: the mails are the cards of the entries, each once, in another order.
/// - `order`: that is mail order, in which each comes strictly before all that follow it.
/// - `first`: what is present of an id is the first of the mails with that id, and nothing where there is none.
/// - `once`: no two that are present have one id.
/// - `present`: what is present is in mail order as well.
/// - `dates`: no effective date is to come.
pub fn present_is_in_order()
    ensures all { (m : Mailbox) → IsPermutation (filter_map mail_of m.entries) (mails m) }
    ensures order { (m : Mailbox) → IsMailbox m → IsStrictlySortedBy mail_cmp (mails m) }
    ensures first { (m : Mailbox) (id : Bytes) → find (has_id id) (present m) ≡ find (has_id id) (mails m) }
    ensures once { (m : Mailbox) → IsDistinct same_id (present m) }
    ensures present { (m : Mailbox) → IsMailbox m → IsStrictlySortedBy mail_cmp (present m) }
    ensures dates { (m : Mailbox) → IsMailbox m → AllByRecursion (λ t. t.placed.date ≤ m.now) (present m) }
{}

/// An item and its card make the entry again, and where it holds a fault, the item alone does.
pub fn items_and_cards_make_entries()
    ensures { (entry : Entry) → entry_of (item_of entry) (result_ok entry.read) ≡ Some entry }
{}

/// A uid names one mail.
///
/// - `entry`: each present mail is that of the entry with its uid.
/// - `once`: no two that are present have one uid.
/// - `ever`: whatever changes come, a uid that names a card never names another one.
pub fn uids_name_one_mail()
    ensures entry { (m : Mailbox) → IsMailbox m → AllByRecursion (λ t. mail_at m t.placed.uid ≡ Some t) (present m) }
    ensures once { (m : Mailbox) → IsMailbox m → IsDistinct same_uid (present m) }
    ensures ever { (m : Mailbox) (changes : List Change) (uid : ℕ) (before after : Card) → IsMailbox m
        → card_at m uid ≡ Some before → card_at (after_all m changes) uid ≡ Some after → after ≡ before }
{}

/// A mail stands in one place among mails in mail order, into which it comes or which it leaves.
///
/// - `last`: put in among those that precede it, it comes last.
/// - `order`, `once`: those up to it are in mail order, and no two of them have one id, where all are so.
/// - `left`: the others are in mail order where all are.
/// - `spot`: and then none of the others is at its spot.
/// - `id`: where no two have one id, none of the others has its id.
pub fn a_mail_comes_into_its_place()
    ensures last { (before after : List Mail) (t : Mail) → IsStrictlySortedBy mail_cmp (before ++ t ∷ after)
        → with_mail t before ≡ before ++ t ∷ [] }
    ensures order { (before after : List Mail) (t : Mail) → IsStrictlySortedBy mail_cmp (before ++ t ∷ after)
        → IsStrictlySortedBy mail_cmp (with_mail t before) }
    ensures once { (before after : List Mail) (t : Mail) → IsStrictlySortedBy mail_cmp (before ++ t ∷ after)
        → IsDistinct same_id (before ++ t ∷ after) → IsDistinct same_id (with_mail t before) }
    ensures left { (t : Mail) (ts : List Mail) → IsStrictlySortedBy mail_cmp (with_mail t ts)
        → IsStrictlySortedBy mail_cmp ts }
    ensures spot { (t : Mail) (ts : List Mail) → IsStrictlySortedBy mail_cmp (with_mail t ts)
        → list_any (eq_by_cmp mail_cmp t) ts ≡ false }
    ensures id { (t : Mail) (ts : List Mail) → IsDistinct same_id (with_mail t ts)
        → list_any (same_id t) ts ≡ false }
{}

/// The turn of a change says how it moves the present cards and the moment.
///
/// - `moves`: an arrival comes in, replaces a later card with its id or gives way to an earlier one, and so on for what
///   leaves and what is seen.
/// - `nothing`: the turn is Nothing exactly where the present cards, their seen moments and the moment stay.
pub fn changes_move_the_present()
    ensures moves { (m : Mailbox) (change : Change) → IsMailbox m → IsTurn m (after m change) (turn m change) }
    ensures nothing { (m : Mailbox) (change : Change) → IsMailbox m
        → (turn m change ≡ Nothing) ↔ ((present (after m change) ≡ present m) × ((after m change).now ≡ m.now)) }
{}

/// A mailbox has no more than so much.
///
/// - `contents`: no more than 65,536 contents.
/// - `updates`: fewer than 2^32 updates on any of them, since each weighs something.
/// - `people`: fewer than 2^32 mentions of any address in From, To and Cc of the present cards, since each weighs something.
/// - `brought`: fewer than 2^32 updates in all present cards.
pub fn a_mailbox_is_bounded()
    ensures contents { (m : Mailbox) → IsMailbox m → length (contents m) ≤ max_entries }
    ensures updates { (m : Mailbox) (t : Mail) → IsMailbox m
        → length (shown_by m.me t (acting m t.placed.card)).updates ≤ max_total_weight }
    ensures people { (m : Mailbox) (addr : Bytes) → IsMailbox m
        → sum_by (λ p. count_by (bytes_eq addr) (people p.card)) (present_cards m) ≤ max_total_weight }
    ensures brought { (m : Mailbox) → IsMailbox m
        → sum_by (λ p. length p.card.updates) (present_cards m) ≤ max_total_weight }
{}

/// The chats, which a fold over the cards in mail order gives, are those of the rule.
///
/// - `rule`: the chat of each card is the one that follows from it and from the chat of its parent, where its parent is
///   the first of its candidates that is the id of an earlier card.
/// - `only`: any family of chats that keeps the rule is this one.
/// - `any_rule`, `any_only`: the same of any list of cites, not of a mailbox alone, where no id is there twice.
/// - `once`: in a mailbox no id is.
pub fn chats_keep_the_rule()
    ensures rule { (m : Mailbox) (earlier : List Cites) (t : Cites) (later : List Cites)
        → cites m ≡ earlier ++ t ∷ later
        → chat m t.spot.id ≡ Some (chat_from t (option_and_then (chat m) (parent_among earlier t))) }
    ensures only { (m : Mailbox) (chat_of : Bytes → ChatKey) → KeepRule chat_of [] (cites m)
        → (id : Bytes) → chat m id ≡ (if is_id_among (cites m) id then Some (chat_of id) else None) }
    ensures any_rule { (earlier : List Cites) (t : Cites) (later : List Cites) → DistinctIds (earlier ++ t ∷ later)
        → chat_among (earlier ++ t ∷ later) t.spot.id
        ≡ Some (chat_from t (option_and_then (chat_among (earlier ++ t ∷ later)) (parent_among earlier t))) }
    ensures any_only { (ts : List Cites) (chat_of : Bytes → ChatKey) → KeepRule chat_of [] ts
        → (id : Bytes) → chat_among ts id ≡ (if is_id_among ts id then Some (chat_of id) else None) }
    ensures once { (m : Mailbox) → DistinctIds (cites m) }
{}

/// A row follows from the cards that name its mail.
///
/// - `named`: of any cards only those that name a card act on it.
/// - `serials`: the serials of its updates are 1, 2, 3 and so on.
/// - `parts`: no two of its updates are one place in one mail.
/// - `reactors`, `reactions`: no two of its reactions are of one sender, and each says something.
/// - `last_reaction`: where one reacts after all others in mail order, that takes the place of an earlier reaction of the
///   same sender, or takes it back where it says nothing, and no other reaction changes.
/// - `time`: as time goes on, a card expires only where its deadline is reached.
pub fn a_row_follows_from_what_names_it()
    ensures named { (me : Bytes) (t : Card) (cards : List Placed) → acts_on me t (naming t.id cards) ≡ acts_on me t cards }
    ensures serials { (m : Mailbox) (t : Mail) → let rows = (shown_by m.me t (acting m t.placed.card)).updates in
        map (λ row. row.serial) rows ≡ range_with_len 1 (length rows) }
    ensures parts { (m : Mailbox) (t : Mail) → IsMailbox m
        → IsDistinct same_part (shown_by m.me t (acting m t.placed.card)).updates }
    ensures reactors { (m : Mailbox) (t : Mail) → IsDistinct same_reactor (shown_by m.me t (acting m t.placed.card)).reactions }
    ensures reactions { (m : Mailbox) (t : Mail)
        → list_all (λ reaction. has_some reaction.1) (shown_by m.me t (acting m t.placed.card)).reactions ≡ true }
    ensures last_reaction { (es : List Placed) (e : Placed) → reactions_by (es ++ e ∷ [])
        ≡ filter (λ reaction. not (bytes_eq e.card.from reaction.0)) (reactions_by es)
        ++ (if has_some (reaction_of e.card) then (e.card.from, reaction_of e.card) ∷ [] else []) }
    ensures time { (me : Bytes) (now later : ℕ) (t : Mail) → now ≤ later
        → IfSome (expiry me t) (λ end. (end ≤ now) ⊎ (later < end)) → is_expired me now t ≡ is_expired me later t }
{}

/// A chat that is there has a name, and each of its members once.
pub fn chats_have_names_and_members()
    ensures name { (m : Mailbox) (key : ChatKey) → has_some (name m key) ≡ true }
    ensures members { (m : Mailbox) (key : ChatKey) → has_some (chat_mails m key) ≡ true
        → IsDistinct bytes_eq (roster m key).members }
{}

/// The list has one row for each chat that has a card.
///
/// - `rows`: its rows are those of the keys, each once, in another order.
/// - `once`: no key is there twice.
/// - `chats`: a key has a row exactly where a card is in its chat.
/// - `pages`: and a key has a page exactly where it has a row.
/// - `order`: each row comes strictly before all that follow it, by the date of the last shown row and then by key.
pub fn list_has_each_chat()
    ensures rows { (m : Mailbox) → IsPermutation (map (list_row m) (keys m)) (list_page m).rows }
    ensures once { (m : Mailbox) → IsDistinct key_eq (keys m) }
    ensures chats { (m : Mailbox) (key : ChatKey)
        → list_any (λ row. key_eq key row.key) (list_page m).rows ≡ has_some (chat_mails m key) }
    ensures pages { (m : Mailbox) (key : ChatKey)
        → is_some (page m key) ≡ list_any (λ row. key_eq key row.key) (list_page m).rows }
    ensures order { (m : Mailbox) → IsStrictlySortedBy list_cmp (list_page m).rows }
{}

/// The page of a chat, and its row in the list, follow from few things.
///
/// - `card`: where two mailboxes have alike the own address, who acts on a card and whether it is expired, it has one row
///   in both. A withdrawn card is not asked whether it is expired.
/// - `chat`: where they have alike the own address, the cards of a chat, these two of each card, and for a chat with one
///   other the name of that contact, the chat has one page in both.
/// - `page`: it has where the row of each card is the same.
/// - `list`: so it is with its row in the list.
/// - `last`, `fresh`: the time and the number of fresh rows there follow from the spots and the marks of its cards.
pub fn a_page_follows_from_its_chat()
    ensures card { (m n : Mailbox) → m.me ≡ n.me → (t : Mail) → IsCardAlike m n t → row m t ≡ row n t }
    ensures chat { (m n : Mailbox) (key : ChatKey) → IsChatAlike m n key → page m key ≡ page n key }
    ensures page { (m n : Mailbox) (key : ChatKey) → Stays m n key → NameStays m n key → page m key ≡ page n key }
    ensures list { (m n : Mailbox) (key : ChatKey) → Stays m n key → NameStays m n key → list_row m key ≡ list_row n key }
    ensures last { (m : Mailbox) (key : ChatKey)
        → (list_row m key).time ≡ option_map (λ spot. spot.date) (last_spot (chat_cards m key)) }
    ensures fresh { (m : Mailbox) (key : ChatKey) → (list_row m key).fresh ≡ fresh_among (chat_cards m key) }
{}

/// The date that is printed of a moment is that of its day: the date of the calendar that is so many days after
/// 1970-01-01.
pub fn a_day_has_one_date()
    ensures { (date : Date) (days : ℕ) → epoch_day date ≡ pos days
        → IsYmd (pos (civil_date days).year) (pos (civil_date days).month) (pos (civil_date days).day) date }
{}

/// One mailbox has one text: where the own addresses, the moments and the entries are equal, each question is answered by
/// equal bytes, or none for both. The next uid is not looked at.
pub fn equal_mailboxes_print_alike()
    ensures { (m n : Mailbox) → m.me ≡ n.me → m.now ≡ n.now → m.entries ≡ n.entries
        → (question : Question) → answer m question ≡ answer n question }
{}
