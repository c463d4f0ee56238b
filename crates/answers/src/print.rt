//! Printing the answer to a question.
ghost use Rattle.std.specs.Prelude.{◌≡◌, ◌≤◌, ◌≢◌, ◌+◌, IfErr, IsErrOf};
ghost use Rattle.outside.specs.Causes.{Rose};
ghost use Rattle.answers.specs.Answers.{answer_of, Puts};
ghost use Rattle.answers.specs.Costs.{answer_cost};
ghost use Rattle.answers.specs.declared.fault.AnswerFault.TheVariants as fault;
ghost use Rattle.answers.specs.declared.question.Question.TheVariants as question;

use crate::fault::AnswerFault;
use crate::question::Question;
use crate::wanted::Wanted;
use app_listener::Listener;
use card_type::ChatKey;
use chat_print::{pages_have_moments, print_chat, print_contacts, print_list, print_updates};
use engine::Engine;
use kit::{Id, Steps, Text};
use outside::Sink;
use std::alloc::Global;
use std::sync::ledger::Ledger;

/// Prints the answer to a question, in one piece, or says why there is none.
///
/// `NoChat` comes exactly where no chat in the list has a key with the text that is asked for, and `NoApp` exactly where no
/// app is shown that has the id. `Write` comes only at a fault of the sink. `Memory` comes when memory runs out, or where
/// the engine is stale.
///
/// - `puts`: the whole answer was put, or at `Write` a prefix of it; where there is none, the reason is the one that the
///   mailbox gives.
/// - `nothing`: at every other refusal nothing was put.
/// - `cost`: it reads kept cards no more often than the cost of the answer says.
pub fn print_answer<K: Sink, L: Ledger>(
    alloc: Global,
    engine: &Engine,
    question: &Question,
    out: &mut K,
    steps: &mut Steps<L>,
) -> Result<(), AnswerFault>
    ensures puts { Puts (answer_of engine.now.mailbox question.now) (K.held out.old) (K.held out.new) result }
    ensures cause { IsErrOf result AnswerFault.Write → Rose (K.faults out.old) (K.faults out.new) }
    ensures nothing { IfErr result (λ why. why ≢ fault.Write → out.new ≡ out.old) }
    ensures later { K.faults out.old ≤ K.faults out.new }
    ensures cost { steps.new ≤ steps.old + answer_cost engine.now.mailbox question.now }
{
    match question {
        Question::List => print_the_list(alloc, engine, out, steps),
        Question::Contacts => print_the_contacts(alloc, engine, out),
        Question::Chat(text) => print_the_chat(alloc, engine, text, out, steps),
        Question::Updates { id, info } => {
            print_the_updates(alloc, engine, id, *info, out, steps)
        }
    }
}

/// Prints the list of chats.
fn print_the_list<K: Sink, L: Ledger>(
    alloc: Global,
    engine: &Engine,
    out: &mut K,
    steps: &mut Steps<L>,
) -> Result<(), AnswerFault>
    ensures puts { Puts (answer_of engine.now.mailbox question.List) (K.held out.old) (K.held out.new) result }
    ensures cause { IsErrOf result AnswerFault.Write → Rose (K.faults out.old) (K.faults out.new) }
    ensures nothing { IfErr result (λ why. why ≢ fault.Write → out.new ≡ out.old) }
    ensures later { K.faults out.old ≤ K.faults out.new }
    ensures cost { steps.new ≤ steps.old + answer_cost engine.now.mailbox question.List }
{
    engine.keeps_rules();
    pages_have_moments();
    let page = engine.list(steps)?;
    Ok(print_list(alloc, &page, out)?)
}

/// Prints the contacts.
fn print_the_contacts<K: Sink>(
    alloc: Global,
    engine: &Engine,
    out: &mut K,
) -> Result<(), AnswerFault>
    ensures puts { Puts (answer_of engine.now.mailbox question.Contacts) (K.held out.old) (K.held out.new) result }
    ensures cause { IsErrOf result AnswerFault.Write → Rose (K.faults out.old) (K.faults out.new) }
    ensures nothing { IfErr result (λ why. why ≢ fault.Write → out.new ≡ out.old) }
    ensures later { K.faults out.old ≤ K.faults out.new }
{
    let rows = engine.contacts()?;
    Ok(print_contacts(alloc, &rows, out)?)
}

/// Prints the page of the chat whose key has this text.
fn print_the_chat<K: Sink, L: Ledger>(
    alloc: Global,
    engine: &Engine,
    text: &Text,
    out: &mut K,
    steps: &mut Steps<L>,
) -> Result<(), AnswerFault>
    ensures puts { Puts (answer_of engine.now.mailbox (question.Chat text.now)) (K.held out.old) (K.held out.new) result }
    ensures cause { IsErrOf result AnswerFault.Write → Rose (K.faults out.old) (K.faults out.new) }
    ensures nothing { IfErr result (λ why. why ≢ fault.Write → out.new ≡ out.old) }
    ensures later { K.faults out.old ≤ K.faults out.new }
    ensures cost { steps.new ≤ steps.old + answer_cost engine.now.mailbox (question.Chat text.now) }
{
    engine.keeps_rules();
    pages_have_moments();
    let Some(key) = ChatKey::read(alloc, text.bytes())? else {
        return Err(AnswerFault::NoChat);
    };
    let page = engine.chat(&key, steps)?;
    Ok(print_chat(alloc, &page, out)?)
}

/// Prints the updates of the app with this id: all, or only those that have an info.
fn print_the_updates<K: Sink, L: Ledger>(
    alloc: Global,
    engine: &Engine,
    id: &Text,
    info: bool,
    out: &mut K,
    steps: &mut Steps<L>,
) -> Result<(), AnswerFault>
    ensures puts { Puts (answer_of engine.now.mailbox (question.Updates id.now info)) (K.held out.old) (K.held out.new) result }
    ensures cause { IsErrOf result AnswerFault.Write → Rose (K.faults out.old) (K.faults out.new) }
    ensures nothing { IfErr result (λ why. why ≢ fault.Write → out.new ≡ out.old) }
    ensures later { K.faults out.old ≤ K.faults out.new }
    ensures cost { steps.new ≤ steps.old + answer_cost engine.now.mailbox (question.Updates id.now info) }
{
    let Some(id) = Id::read(alloc, id.bytes())? else {
        return Err(AnswerFault::NoApp);
    };
    let mut listener = Listener::new(alloc, id, 0, Wanted { info });
    let heard = listener.hear(engine, steps)?;
    Ok(print_updates(alloc, heard.rows.as_slice(), heard.max, out)?)
}
