//! What is kept gives the names and the page of contacts of the mailbox. Its function does nothing: its clauses speak of
//! all cards in mail order.
ghost use Rattle.std.specs.Prelude.{◌≡◌, ◌+◌, ◌-◌, ◌^◌, ◌<◌, List, not, ◌&&◌, nat_lt, map};
ghost use Rattle.std.specs.Cmp.Lexicographic.{slice_cmp};
ghost use Rattle.std.specs.List.{AllByRecursion, sum_by};
ghost use Rattle.std.specs.List.Sorted.{IsStrictlySortedBy};
ghost use Rattle.std.specs.Ordering.{nat_cmp};
ghost use Rattle.std.specs.Str.{bytes_eq};
ghost use Rattle.card_type.specs.Effects.{is_among};
ghost use Rattle.card_type.specs.Records.{capped};
ghost use Rattle.mailbox_model.specs.declared.contact.ContactRow.{ContactRow};
ghost use Rattle.mailbox_model.specs.Contacts.{given_name, contacts_by};
ghost use Rattle.mailbox_model.specs.Lists.{Bytes};
ghost use Rattle.mailbox_model.specs.Present.{Placed, Mail, spot, mail_cmp};
ghost use Rattle.mailbox_model.specs.Turns.{with_mail};
ghost use Rattle.contacts.specs.Kept.{Kept, StandsFor, mentions_at, names_at, names_with, names_without, last_name, shown_name, times_in};

/// What is kept of cards in mail order gives the contacts of those cards.
///
/// - `name`: the last name of an address is the last nonempty one under which it wrote.
/// - `page`: rows that keep the clauses of `Contacts::page` are the contacts of the rule.
/// - `add`: after `Contacts::add` of a mail that comes in it stands for that too, where each count is below 2^64 - 1.
/// - `remove`: after `Contacts::remove` of a mail that leaves it stands for the others.
pub fn contacts_follow_from_cards()
    ensures name { (kept : Kept) (cards : List Placed) (addr : Bytes) → StandsFor kept cards
        → last_name (names_at kept.names addr) ≡ given_name (map (λ p. p.card) cards) addr }
    ensures page { (kept : Kept) (cards : List Placed) (me : Bytes) (rows : List ContactRow) → StandsFor kept cards
        → IsStrictlySortedBy (slice_cmp nat_cmp) (map (λ row. row.addr) rows)
        → ((addr : Bytes) → is_among (map (λ row. row.addr) rows) addr ≡ (nat_lt 0 (mentions_at kept.mentions addr) && not (bytes_eq me addr)))
        → AllByRecursion (λ row. row.name ≡ shown_name kept row.addr) rows
        → rows ≡ contacts_by me (map (λ p. p.card) cards) }
    ensures add { (before after : Kept) (t : Mail) (ts : List Mail) → IsStrictlySortedBy mail_cmp (with_mail t ts)
        → ((addr : Bytes) → sum_by (λ p. times_in p.card addr) (map (λ u. u.placed) (with_mail t ts)) < 2 ^ 64 - 1)
        → StandsFor before (map (λ u. u.placed) ts)
        → ((addr : Bytes) → capped (mentions_at after.mentions addr) ≡ capped (mentions_at before.mentions addr + times_in t.placed.card addr))
        → ((addr : Bytes) → names_at after.names addr ≡ names_with (spot t.placed) t.placed.card addr (names_at before.names addr))
        → StandsFor after (map (λ u. u.placed) (with_mail t ts)) }
    ensures remove { (before after : Kept) (t : Mail) (ts : List Mail) → IsStrictlySortedBy mail_cmp (with_mail t ts)
        → StandsFor before (map (λ u. u.placed) (with_mail t ts))
        → ((addr : Bytes) → mentions_at after.mentions addr ≡ mentions_at before.mentions addr - times_in t.placed.card addr)
        → ((addr : Bytes) → names_at after.names addr ≡ names_without (spot t.placed) t.placed.card addr (names_at before.names addr))
        → StandsFor after (map (λ u. u.placed) ts) }
{}
