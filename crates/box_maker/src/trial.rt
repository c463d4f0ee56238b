//! The trial mailbox as a whole.
ghost use Rattle.std.specs.Prelude.{◌≡◌, ◌≤◌, IfOk, IsErrOf, OnOk};
ghost use Rattle.std.specs.Io.KnownBytes.{Appends};
ghost use Rattle.outside.specs.Bytes.{AppendsPrefix};
ghost use Rattle.outside.specs.Causes.{Rose};
ghost use Rattle.outside.specs.declared.faults.PrintFault.TheVariants.{Write, Memory as OutOfMemory};
ghost use Rattle.box_maker.specs.Boxes.{trial_box};

use crate::draws::draw_mail;
use crate::mail::push_mail;
use kit::{Addr, Memory};
use outside::{PrintFault, Sink};
use rand_core::SeedableRng;
use rand_pcg::Lcg64Xsh32;
use std::alloc::Global;

/// The trial mailbox with this number, of `n` mails to `me` and others: an mbox in which each mail stands between the
/// separator `From -` and an empty line. It has no byte where `n` is 0. What is drawn for its mails goes by the number and
/// `n` alone. Takes memory; `Err` only when it runs out.
pub fn box_bytes(alloc: Global, number: u64, n: u32, me: &Addr) -> Result<Vec<u8>, Memory>
    ensures { IfOk result (λ bytes. bytes.items ≡ trial_box number n me.now) }
{
    let me = me.as_str();
    let mut generator = Lcg64Xsh32::seed_from_u64(number);
    let mut text = String::new(alloc);
    for made in 0..n {
        let draws = draw_mail(&mut generator, n);
        push_mail(&mut text, me, made + 1, draws)?;
    }
    Ok(text.into_bytes())
}

/// Puts the trial mailbox with this number, of `n` mails to `me` and others: the bytes that `box_bytes` gives.
///
/// They are made whole and then put in one piece. `Memory` comes when memory runs out, and then nothing was put, and
/// `Write` only at a fault of the sink, and then a prefix of them may have been put.
pub fn make_box<K: Sink>(
    alloc: Global,
    number: u64,
    n: u32,
    me: &Addr,
    out: &mut K,
) -> Result<(), PrintFault>
    ensures ok { OnOk result (Appends (K.held out.old) (K.held out.new) (trial_box number n me.now)) }
    ensures memory { IsErrOf result OutOfMemory → out.new ≡ out.old }
    ensures write { IsErrOf result Write → AppendsPrefix (K.held out.old) (K.held out.new) (trial_box number n me.now) }
    ensures cause { IsErrOf result Write → Rose (K.faults out.old) (K.faults out.new) }
    ensures later { K.faults out.old ≤ K.faults out.new }
{
    let bytes = box_bytes(alloc, number, n, me)?;
    Ok(out.put(&bytes)?)
}
