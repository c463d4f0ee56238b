//! Whose mailbox is kept.
ghost use Rattle.std.specs.Prelude.{◌≡◌, IfErr, IfOk};
ghost use Rattle.keeper.specs.Opening.{IsNotOwn};

use crate::fault::KeepFault;
use box_state::Mailbox;
use kit::Addr;

/// The mailbox, where it is that of this address. `OtherMe` comes exactly where it is that of another one. Takes memory.
pub fn own_mailbox(me: &Addr, mailbox: Mailbox) -> Result<Mailbox, KeepFault>
    ensures same { IfOk result (λ own. own ≡ mailbox) }
    ensures own { IfOk result (λ own. own.mailbox.me ≡ me.now) }
    ensures other { IfErr result (IsNotOwn me.now mailbox.mailbox) }
{
    if mailbox.me() == me {
        Ok(mailbox)
    } else {
        Err(KeepFault::OtherMe(mailbox.me().copy()?))
    }
}
