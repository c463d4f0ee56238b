//! A law of the pages that are printed.
ghost use Rattle.std.specs.Prelude.{IfSome};
ghost use Rattle.card_type.specs.declared.key.ChatKey.{ChatKey};
ghost use Rattle.mailbox_model.specs.ChatList.{list_page};
ghost use Rattle.mailbox_model.specs.Mailbox.{Mailbox, IsMailbox};
ghost use Rattle.mailbox_model.specs.Pages.{page};
ghost use Rattle.chat_print.specs.Moments.{ChatHasMoments, ListHasMoments};

/// The pages of a mailbox can be printed: their dates are moments.
pub fn pages_have_moments()
    ensures list { (m : Mailbox) → IsMailbox m → ListHasMoments (list_page m) }
    ensures chat { (m : Mailbox) (key : ChatKey) → IsMailbox m → IfSome (page m key) ChatHasMoments }
{}
