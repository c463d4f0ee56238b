//! What listeners hold. The function does nothing: its clauses speak of all mailboxes and changes.
ghost use Rattle.std.specs.Prelude.{◌≡◌, ℕ, Bool, Some, List, [], ◌++◌, map, take};
ghost use Rattle.std.specs.List.{common_prefix_len};
ghost use Rattle.mailbox_model.specs.declared.change.Change.{Change};
ghost use Rattle.mailbox_model.specs.declared.row.UpdateRow.{UpdateRow};
ghost use Rattle.mailbox_model.specs.Lists.{Bytes};
ghost use Rattle.mailbox_model.specs.Mailbox.{Mailbox, after_all, IsMailbox};
ghost use Rattle.mailbox_model.specs.Pages.{updates};
ghost use Rattle.app_listener.specs.Hearing.{back_to, is_origin, origin, up_to, wanted_over};

/// Who holds the wanted updates of an app over a serial, and hears of it after further changes of the mailbox, holds the
/// wanted updates over that serial again, once the rows over `back_to` are dropped and the new ones appended.
///
/// - `first`: so it is at first, where nothing was heard of and nothing is held.
/// - `again`: and so it is where the updates of a mailbox were heard of, and some changes later those that are shown then.
/// - `same`: the first updates that have the origins that were heard of are the same updates.
pub fn listeners_hold_what_they_want()
    ensures first { (wanted : UpdateRow → Bool) (from : ℕ) (now : List UpdateRow)
        → wanted_over wanted (back_to from [] now) now ≡ wanted_over wanted from now }
    ensures again { (m : Mailbox) (changes : List Change) (id : Bytes) (wanted : UpdateRow → Bool) (from : ℕ) (before now : List UpdateRow)
        → IsMailbox m → IsMailbox (after_all m changes) → updates m id ≡ Some before → updates (after_all m changes) id ≡ Some now
        → let serial = back_to from (map origin before) now in
        up_to serial (wanted_over wanted from before) ++ wanted_over wanted serial now ≡ wanted_over wanted from now }
    ensures same { (m : Mailbox) (changes : List Change) (id : Bytes) (before now : List UpdateRow)
        → IsMailbox m → IsMailbox (after_all m changes) → updates m id ≡ Some before → updates (after_all m changes) id ≡ Some now
        → let count = common_prefix_len is_origin (map origin before) now in take count before ≡ take count now }
{}
