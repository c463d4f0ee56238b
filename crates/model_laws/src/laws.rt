//! Laws of the definition that a user can read. Each is the contract of a function that does nothing: its clauses speak
//! of every mailbox and every change.
ghost use Rattle.std.specs.Prelude.{◌≡◌, ℕ, false, Some, None, List, [], ◌∷◌, ◌++◌, find, IfSome, option_map, drop, codes};
ghost use Rattle.std.specs.Fmt.{decimal};
ghost use Rattle.std.specs.Ordering.{is_lt};
ghost use Rattle.std.specs.Str.{bytes_eq};
ghost use Rattle.card_type.specs.declared.card.Card.{Card};
ghost use Rattle.card_type.specs.Effects.{effect_of, has_person};
ghost use Rattle.card_type.specs.declared.key.ChatKey.{ChatKey};
ghost use Rattle.mailbox_model.specs.declared.change.Change.{Change};
ghost use Rattle.mailbox_model.specs.declared.change.Change.TheVariants.{Arrive, ArriveFault, Expunge, Seen, At};
ghost use Rattle.mailbox_model.specs.declared.change.Fault.{Fault};
ghost use Rattle.mailbox_model.specs.declared.row.Row.{Row};
ghost use Rattle.mailbox_model.specs.Lists.{Bytes};
ghost use Rattle.mailbox_model.specs.Mailbox.{Mailbox, empty_mailbox, card_at, after, after_all, IsMailbox};
ghost use Rattle.mailbox_model.specs.Present.{Mail, mail_cmp, has_id, present};
ghost use Rattle.mailbox_model.specs.Turns.{arriving};
ghost use Rattle.mailbox_model.specs.Rows.{row};
ghost use Rattle.mailbox_model.specs.ChatList.{list_page};
ghost use Rattle.mailbox_model.specs.Pages.{page};
ghost use Rattle.mailbox_model.specs.Printed.{row_text};
ghost use Rattle.mailbox_model.specs.Answers.{Question, answer};
ghost use Rattle.mailbox_model.specs.Answers.Question.{AllChats, AllContacts, AllUpdates, InfoUpdates};
ghost use Rattle.model_laws.specs.Arrivals.{BringNone};
ghost use Rattle.model_laws.specs.Questions.{is_of_list};
ghost use Rattle.model_laws.specs.Clocks.{NoneFallsDue};
ghost use Rattle.model_laws.specs.Marks.{unmarked, uncounted};
ghost use Rattle.model_laws.specs.Numbers.{unnumbered, unnumbered_row};
ghost use Rattle.model_laws.specs.SameCards.{HaveSameCards, BringSameCards};
ghost use Rattle.model_laws.specs.Strangers.{IsReceiptOfOwn, but_readers, but_added};

/// Every answer follows from the present mails: where two mailboxes have alike the own address, the moment, the present
/// mails and the mails that could not be read, each question is answered by equal bytes, or none for both.
pub fn answers_follow_from_the_present()
    ensures { (m n : Mailbox) → m.me ≡ n.me → m.now ≡ n.now → present m ≡ present n
        → (list_page m).faults ≡ (list_page n).faults
        → (question : Question) → answer m question ≡ answer n question }
{}

/// A further copy of a mail changes no answer.
///
/// - `again`: where a card is in the mailbox, under whatever uid and present or not, and arrives again.
/// - `later`: and where any mail arrives that has the id of a present one and comes no earlier in mail order.
pub fn copies_change_nothing()
    ensures later { (m : Mailbox) (card : Card) (t : Mail) → find (has_id card.id) (present m) ≡ Some t
        → is_lt (mail_cmp (arriving m card) t) ≡ false
        → (question : Question) → answer (after m (Arrive card)) question ≡ answer m question }
    ensures again { (m : Mailbox) (card : Card) (uid : ℕ) → IsMailbox m → card_at m uid ≡ Some card
        → (question : Question) → answer (after m (Arrive card)) question ≡ answer m question }
{}

/// An expunge leaves no trace of its mail: after an arrival, then changes that bring no mail, and then the expunge of its
/// uid every answer is the one that those changes alone lead to. Where there are none between, it is the one before.
///
/// - `card`: so it is with a mail that has a card.
/// - `fault`: and with one that has none.
pub fn expunge_undoes_arrival()
    ensures card { (m : Mailbox) (card : Card) (changes : List Change) → IsMailbox m → BringNone changes
        → (question : Question)
        → answer (after (after_all (after m (Arrive card)) changes) (Expunge m.next_uid)) question
        ≡ answer (after_all m changes) question }
    ensures fault { (m : Mailbox) (fault : Fault) (changes : List Change) → IsMailbox m → BringNone changes
        → (question : Question)
        → answer (after (after_all (after m (ArriveFault fault)) changes) (Expunge m.next_uid)) question
        ≡ answer (after_all m changes) question }
{}

/// What the card of a stranger does to a mail: where its From is not the sender, and is in none of From, To and Cc.
///
/// - `effect`: nothing, but that it is a reader of an own mail where it is a receipt for it.
/// - `received`: where it arrives under a new id, the row of a mail from another one stays as it is.
/// - `sent`: and that of an own mail stays as it is but for its readers.
/// - `edits`: whoever is not the sender, stranger or not, changes nothing of a row but its readers, its reactions
///   and its updates.
pub fn strangers_change_little()
    ensures effect { (e t : Card) (me : Bytes) → has_person t e.from ≡ false → IfSome (effect_of e t me) (IsReceiptOfOwn e t me) }
    ensures received { (m : Mailbox) (e : Card) (t : Mail) → find (has_id e.id) (present m) ≡ None
        → has_person t.placed.card e.from ≡ false → bytes_eq t.placed.card.from m.me ≡ false
        → row (after m (Arrive e)) t ≡ row m t }
    ensures sent { (m : Mailbox) (e : Card) (t : Mail) → find (has_id e.id) (present m) ≡ None
        → has_person t.placed.card e.from ≡ false
        → option_map but_readers (row (after m (Arrive e)) t) ≡ option_map but_readers (row m t) }
    ensures edits { (m : Mailbox) (e : Card) (t : Mail) → find (has_id e.id) (present m) ≡ None
        → bytes_eq e.from t.placed.card.from ≡ false
        → option_map but_added (row (after m (Arrive e)) t) ≡ option_map but_added (row m t) }
{}

/// A mail that cannot be read is a line of the list of chats, and nothing else.
///
/// - `others`: its arrival changes no answer but the list.
/// - `chats`, `line`: there the chats stay as they are, and one line more names its number and why it has no card.
pub fn unreadable_mails_are_lines()
    ensures others { (m : Mailbox) (fault : Fault) (question : Question) → is_of_list question ≡ false
        → answer (after m (ArriveFault fault)) question ≡ answer m question }
    ensures chats { (m : Mailbox) (fault : Fault) → (list_page (after m (ArriveFault fault))).rows ≡ (list_page m).rows }
    ensures line { (m : Mailbox) (fault : Fault) → (list_page (after m (ArriveFault fault))).faults
        ≡ (list_page m).faults ++ record { uid = m.next_uid; fault = fault } ∷ [] }
{}

/// A mark as seen changes nothing but marks, at the moment at which it is made.
///
/// - `chats`: the page of each chat stays as it is but for the marks of its rows.
/// - `list`: the list stays as it is but for the numbers of fresh rows.
/// - `contacts`, `updates`, `infos`: the contacts and the updates of each app stay as they are.
/// - `again`: a second mark changes no answer at all, however the clock went on since the first.
pub fn marks_change_marks_alone()
    ensures chats { (m : Mailbox) (uid : ℕ) (key : ChatKey)
        → option_map unmarked (page (after m (Seen uid)) key) ≡ option_map unmarked (page m key) }
    ensures list { (m : Mailbox) (uid : ℕ) → uncounted (list_page (after m (Seen uid))) ≡ uncounted (list_page m) }
    ensures contacts { (m : Mailbox) (uid : ℕ) → answer (after m (Seen uid)) AllContacts ≡ answer m AllContacts }
    ensures updates { (m : Mailbox) (uid : ℕ) (id : Bytes)
        → answer (after m (Seen uid)) (AllUpdates id) ≡ answer m (AllUpdates id) }
    ensures infos { (m : Mailbox) (uid : ℕ) (id : Bytes)
        → answer (after m (Seen uid)) (InfoUpdates id) ≡ answer m (InfoUpdates id) }
    ensures again { (m : Mailbox) (uid moment : ℕ) (question : Question)
        → answer (after_all m (Seen uid ∷ At moment ∷ Seen uid ∷ [])) question
        ≡ answer (after_all m (Seen uid ∷ At moment ∷ [])) question }
{}

/// As the clock goes on, no answer changes unless a deadline falls due.
pub fn only_deadlines_change_with_time()
    ensures { (m : Mailbox) (moment : ℕ) → NoneFallsDue m moment
        → (question : Question) → answer (after m (At moment)) question ≡ answer m question }
{}

/// The order of arrival is seen in nothing but the numbers of the mails: where two mailboxes of one address and one moment
/// have the same cards, seen at the same moments, no two cards with one id, and each dated no later than it arrived.
///
/// - `brought`: such are two mailboxes into which changes bring the same cards in any two orders, with the clock going on
///   between them as it may, if they come to one moment.
/// - `list`: the lists of chats are equal byte by byte, where the mails that could not be read are alike.
/// - `contacts`, `updates`, `infos`: so are the contacts, and the updates of each app, all or those that have an info.
/// - `chats`: and each page is equal but for the numbers of its mails.
/// - `numbers`: these are printed after the `#` of a row, and nowhere else: what follows them is that of a row whose number
///   is 0, which begins with `#0`.
pub fn order_of_arrival_is_not_seen()
    ensures brought { (me : Bytes) (first second : List Change) → BringSameCards me first second
        → HaveSameCards (after_all (empty_mailbox me) first) (after_all (empty_mailbox me) second) }
    ensures list { (m n : Mailbox) → HaveSameCards m n
        → (list_page m).faults ≡ (list_page n).faults → answer m AllChats ≡ answer n AllChats }
    ensures contacts { (m n : Mailbox) → HaveSameCards m n
        → answer m AllContacts ≡ answer n AllContacts }
    ensures updates { (m n : Mailbox) → HaveSameCards m n
        → (id : Bytes) → answer m (AllUpdates id) ≡ answer n (AllUpdates id) }
    ensures infos { (m n : Mailbox) → HaveSameCards m n
        → (id : Bytes) → answer m (InfoUpdates id) ≡ answer n (InfoUpdates id) }
    ensures chats { (m n : Mailbox) → HaveSameCards m n
        → (key : ChatKey) → option_map unnumbered (page m key) ≡ option_map unnumbered (page n key) }
    ensures numbers { (r : Row) → row_text r ≡ codes "#" ++ decimal r.uid ++ drop 2 (row_text (unnumbered_row r)) }
{}
