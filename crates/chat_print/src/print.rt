//! Printing: the text of a page is made whole, and then put in one piece.
ghost use Rattle.std.specs.Prelude.{◌≡◌, ◌≤◌, OnOk, IsErrOf};
ghost use Rattle.std.specs.Io.KnownBytes.{Appends};
ghost use Rattle.outside.specs.Bytes.{AppendsPrefix};
ghost use Rattle.outside.specs.Causes.{Rose};
ghost use Rattle.outside.specs.declared.faults.PrintFault.TheVariants.{Write, Memory as OutOfMemory};
ghost use Rattle.mailbox_model.specs.Printed as printed;
ghost use Rattle.chat_print.specs.Moments.{ChatHasMoments, ListHasMoments};

use crate::chat::chat_text;
use crate::contacts::contacts_text;
use crate::list::list_text;
use crate::updates::updates_text;
use mailbox_model::{ChatPage, ContactRow, ListPage, UpdateRow};
use outside::{PrintFault, Sink};
use std::alloc::Global;

/// Prints the list of chats, and then the mails that have no card. Where rows have dates, these are moments.
///
/// The text is made whole and then put in one piece. `Memory` comes when memory runs out, and then nothing was put, and
/// `Write` only at a fault of the sink, and then a prefix of the text may have been put.
pub fn print_list<K: Sink>(alloc: Global, page: &ListPage, out: &mut K) -> Result<(), PrintFault>
    requires { ListHasMoments page.now }
    ensures ok { OnOk result (Appends (K.held out.old) (K.held out.new) (printed.list_text page.now)) }
    ensures memory { IsErrOf result OutOfMemory → out.new ≡ out.old }
    ensures write { IsErrOf result Write → AppendsPrefix (K.held out.old) (K.held out.new) (printed.list_text page.now) }
    ensures cause { IsErrOf result Write → Rose (K.faults out.old) (K.faults out.new) }
    ensures later { K.faults out.old ≤ K.faults out.new }
{
    let text = list_text(alloc, page)?;
    Ok(out.put(text.as_bytes())?)
}

/// Prints the page of a chat, whose dates are moments.
///
/// The text is made whole and then put in one piece. `Memory` comes when memory runs out, and then nothing was put, and
/// `Write` only at a fault of the sink, and then a prefix of the text may have been put.
pub fn print_chat<K: Sink>(alloc: Global, page: &ChatPage, out: &mut K) -> Result<(), PrintFault>
    requires { ChatHasMoments page.now }
    ensures ok { OnOk result (Appends (K.held out.old) (K.held out.new) (printed.chat_text page.now)) }
    ensures memory { IsErrOf result OutOfMemory → out.new ≡ out.old }
    ensures write { IsErrOf result Write → AppendsPrefix (K.held out.old) (K.held out.new) (printed.chat_text page.now) }
    ensures cause { IsErrOf result Write → Rose (K.faults out.old) (K.faults out.new) }
    ensures later { K.faults out.old ≤ K.faults out.new }
{
    let text = chat_text(alloc, page)?;
    Ok(out.put(text.as_bytes())?)
}

/// Prints the contacts.
///
/// The text is made whole and then put in one piece. `Memory` comes when memory runs out, and then nothing was put, and
/// `Write` only at a fault of the sink, and then a prefix of the text may have been put.
pub fn print_contacts<K: Sink>(
    alloc: Global,
    rows: &[ContactRow],
    out: &mut K,
) -> Result<(), PrintFault>
    ensures ok { OnOk result (Appends (K.held out.old) (K.held out.new) (printed.contacts_text rows.now)) }
    ensures memory { IsErrOf result OutOfMemory → out.new ≡ out.old }
    ensures write { IsErrOf result Write → AppendsPrefix (K.held out.old) (K.held out.new) (printed.contacts_text rows.now) }
    ensures cause { IsErrOf result Write → Rose (K.faults out.old) (K.faults out.new) }
    ensures later { K.faults out.old ≤ K.faults out.new }
{
    let text = contacts_text(alloc, rows)?;
    Ok(out.put(text.as_bytes())?)
}

/// Prints updates of an app, which has `max` of them.
///
/// The text is made whole and then put in one piece. `Memory` comes when memory runs out, and then nothing was put, and
/// `Write` only at a fault of the sink, and then a prefix of the text may have been put.
pub fn print_updates<K: Sink>(
    alloc: Global,
    rows: &[UpdateRow],
    max: u32,
    out: &mut K,
) -> Result<(), PrintFault>
    ensures ok { OnOk result (Appends (K.held out.old) (K.held out.new) (printed.updates_text max rows.now)) }
    ensures memory { IsErrOf result OutOfMemory → out.new ≡ out.old }
    ensures write { IsErrOf result Write → AppendsPrefix (K.held out.old) (K.held out.new) (printed.updates_text max rows.now) }
    ensures cause { IsErrOf result Write → Rose (K.faults out.old) (K.faults out.new) }
    ensures later { K.faults out.old ≤ K.faults out.new }
{
    let text = updates_text(alloc, max, rows)?;
    Ok(out.put(text.as_bytes())?)
}
