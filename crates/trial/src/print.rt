//! Printing the summary of a trial.
ghost use Rattle.std.specs.Prelude.{◌≡◌, ◌≤◌, ◌+◌, ◌≢◌, IfErr, IsErrOf, OnOk};
ghost use Rattle.std.specs.Io.KnownBytes.{Appends};
ghost use Rattle.outside.specs.Bytes.{AppendsPrefix};
ghost use Rattle.outside.specs.Causes.{Rose};
ghost use Rattle.outside.specs.declared.faults.PrintFault.TheVariants as print;
ghost use Rattle.trial.specs.Costs.{trial_cost};
ghost use Rattle.trial.specs.Faults.{Puts};
ghost use Rattle.trial.specs.Summaries.{summary_text, trial_text};
ghost use Rattle.trial.specs.declared.fault.TrialFault.TheVariants as fault;

use crate::fault::TrialFault;
use crate::made::made_engine;
use crate::summary::{Summary, summary_of, summary_text};
use kit::{Addr, Steps};
use outside::{PrintFault, Sink};
use std::alloc::Global;
use std::sync::ledger::Ledger;

/// Makes the trial mailbox with this number for an own address, and prints its summary: one line with how many mails it has,
/// how many chats the list has, how many rows their pages show, and how many of those are received and unseen.
///
/// The mailbox has 2,000 mails, which arrive at 2024-02-01 00:00 UTC. It is made and read in memory, and no device is used
/// but the sink.
///
/// `Full` comes exactly where the mailbox has no place for one of the mails. `Write` comes only at a fault of the sink, and
/// `Memory` when memory runs out.
///
/// - `puts`: the whole line was put, in one piece, or at `Write` a prefix of it.
/// - `nothing`: at every other refusal nothing was put.
/// - `cost`: whatever the answer, kept cards are read no more often than the changes may, which are the moment and the
///   arrivals, and the questions, which are the list and the page of each chat in it.
pub fn print_trial<K: Sink, L: Ledger>(
    alloc: Global,
    me: Addr,
    number: u64,
    out: &mut K,
    steps: &mut Steps<L>,
) -> Result<(), TrialFault>
    ensures puts { Puts (trial_text me number) (K.held out.old) (K.held out.new) result }
    ensures cause { IsErrOf result TrialFault.Write → Rose (K.faults out.old) (K.faults out.new) }
    ensures nothing { IfErr result (λ why. why ≢ fault.Write → out.new ≡ out.old) }
    ensures later { K.faults out.old ≤ K.faults out.new }
    ensures cost { steps.new ≤ steps.old + trial_cost me number }
{
    let engine = made_engine(alloc, me, number, steps)?;
    let summary = summary_of(&engine, steps)?;
    Ok(print_summary(alloc, number, summary, out)?)
}

/// Prints the line of a summary: it is made whole and then put in one piece.
fn print_summary<K: Sink>(
    alloc: Global,
    number: u64,
    summary: Summary,
    out: &mut K,
) -> Result<(), PrintFault>
    ensures ok { OnOk result (Appends (K.held out.old) (K.held out.new) (summary_text number summary)) }
    ensures memory { IsErrOf result print.Memory → out.new ≡ out.old }
    ensures write { IsErrOf result print.Write → AppendsPrefix (K.held out.old) (K.held out.new) (summary_text number summary) }
    ensures cause { IsErrOf result print.Write → Rose (K.faults out.old) (K.faults out.new) }
    ensures later { K.faults out.old ≤ K.faults out.new }
{
    let text = summary_text(alloc, number, summary)?;
    Ok(out.put(text.as_bytes())?)
}
