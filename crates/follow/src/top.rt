//! The whole run.
ghost use Rattle.std.specs.Prelude.{◌≡◌, ◌≢◌, ◌≤◌, ◌<◌, ◌⊎◌, Ok, None, Some, false, IfErr, IfSome, IsErrOf, is_none, is_some, length, not, ◌&&◌};
ghost use Rattle.std.specs.Io.KnownBytes.{Appends};
ghost use Rattle.outside.specs.Causes.{Rose};
ghost use Rattle.outside.specs.Lent.{IfLent};
ghost use Rattle.outside.specs.Moments.{LeavesOnly};
ghost use Rattle.kit.specs.Moments.{last_moment};
ghost use Rattle.mailbox_model.specs.Lists.{Bytes};
ghost use Rattle.follower.specs.Spending.{RoseWithin, counts};
ghost use Rattle.follow.specs.Replies.{Puts};
ghost use Rattle.follow.specs.Grammar.{IsNoRequest};
ghost use Rattle.follow.specs.Outcome.{Agrees, AsksClock, CauseOf, ClockGives, ComesWhere, EndsBare, Finds, Found, Gave, IfLentAnd, KeepsAll, Kept, KeptFor, LastIf, LentGave, LentTells, MayStand, MayStandIf, OnLast, PutsLine, PutsOutcome, PutsWhole, TakesUpTo, Tells, TellsSteps, asked_cost, cost_of, follows, given_in, given_of, mbox_budget, needs_clock, outcome, result as result_of, steps_budget};
ghost use Rattle.follow.specs.Statuses.{line_of, status_in, status_of};
ghost use Rattle.follow.specs.Words.{request};
ghost use Rattle.follow.specs.declared.status.Refusal.TheVariants as refusal;

use crate::following::follow_files;
use crate::status::{OUT_OF_MEMORY, Refusal, Status};
use crate::words::{Command, Request};
use answers::{Question, print_answer};
use kit::{Addr, Memory, Steps, Text};
use outside::{Clock, NoSource, Shelf, Sink, Source};
use std::alloc::Global;
use std::mem;
use std::sync::ledger::Ledger;
use trial::print_trial;

/// Follows the files and prints the answer to a question, or says why there is none.
fn reply_to<M: Source, S: Source, H: Shelf, C: Clock, K: Sink, L: Ledger>(
    alloc: Global,
    me: Addr,
    at: Option<u64>,
    question: &Question,
    given: bool,
    mbox: &mut M,
    steps_file: &mut S,
    shelf: &mut H,
    clock: &mut C,
    out: &mut K,
    steps: &mut Steps<L>,
) -> Result<(), Refusal>
    requires { IfSome at (λ moment. moment ≤ last_moment) }
    ensures puts { (found : Found) → Tells (M.left mbox.old) (TellsSteps given (S.left steps_file.old)) (H.seen shelf.old)
        (ClockGives (not given && is_none at) (C.next clock.old)) found
        → Puts (result_of question.now (given_of me at found)) (K.held out.old) (K.held out.new) result }
    ensures crash { (found : Found) → Tells (M.left mbox.old) (TellsSteps given (S.left steps_file.old)) (H.seen shelf.old)
        (ClockGives (not given && is_none at) (C.next clock.old)) found
        → LeavesOnly H.moment H.left_since shelf.old shelf.new (MayStand (given_of me at found) (H.may_leave shelf.old)) }
    ensures lasting { (found : Found) → Tells (M.left mbox.old) (TellsSteps given (S.left steps_file.old)) (H.seen shelf.old)
        (ClockGives (not given && is_none at) (C.next clock.old)) found
        → OnLast (status_in result) (KeepsAll (given_of me at found) (H.may_leave shelf.new)) }
    ensures cost { (found : Found) → Tells (M.left mbox.old) (TellsSteps given (S.left steps_file.old)) (H.seen shelf.old)
        (ClockGives (not given && is_none at) (C.next clock.old)) found
        → RoseWithin (counts steps.old (H.written shelf.old)) (asked_cost question.now (given_of me at found)) (counts steps.new (H.written shelf.new)) }
    ensures no_usage { IfErr result (λ why. why ≢ refusal.Usage) }
    ensures write { IsErrOf result Refusal.Write → Rose (K.faults out.old) (K.faults out.new) }
    ensures nothing { IfErr result (λ why. why ≢ refusal.Write → out.new ≡ out.old) }
    ensures cause { IfErr result (CauseOf (Rose (M.faults mbox.old) (M.faults mbox.new)) (Rose (S.faults steps_file.old) (S.faults steps_file.new))
        (Rose (H.faults shelf.old) (H.faults shelf.new)) (Gave (M.left mbox.old) (M.left mbox.new)) (Gave (S.left steps_file.old) (S.left steps_file.new)) (Kept me (H.seen shelf.old))) }
    ensures mbox_took { TakesUpTo (M.left mbox.old) (M.left mbox.new) mbox_budget }
    ensures steps_took { TakesUpTo (S.left steps_file.old) (S.left steps_file.new) steps_budget }
    ensures clock { AsksClock C.asked (not given && is_none at) clock.old clock.new (IsErrOf result Refusal.Memory) }
{
    match follow_files(alloc, &me, at, given, mbox, steps_file, shelf, clock, steps) {
        Ok(follower) => {
            let printed = print_answer(alloc, follower.engine(), question, out, steps);
            // A run ends with its answer, and all its memory goes back with the process: to give it back value by value takes
            // a tenth of the whole time of a large mailbox.
            mem::forget(follower);
            Ok(printed?)
        }
        Err(fault) => Err(Refusal::of_fault(fault, me)),
    }
}

/// The reply to the words, as a status: `Ok`, or why no answer was put whole.
fn reply<M: Source, S: Source, H: Shelf, C: Clock, K: Sink, L: Ledger>(
    alloc: Global,
    words: &[Text],
    given: bool,
    mbox: &mut M,
    steps_file: &mut S,
    shelf: &mut H,
    clock: &mut C,
    out: &mut K,
    steps: &mut Steps<L>,
) -> Result<(), Refusal>
    ensures usage { IsErrOf result Refusal.Usage → request words.now ≡ None }
    ensures none { request words.now ≡ None → IsErrOf result Refusal.Usage ⊎ IsErrOf result Refusal.Memory }
    ensures bare { follows (request words.now) ≡ false → EndsBare (status_in result) }
    ensures untouched { follows (request words.now) ≡ false → (mbox.new ≡ mbox.old) × (steps_file.new ≡ steps_file.old) × (shelf.new ≡ shelf.old) }
    ensures puts { (found : Found) → Finds (request words.now) given (M.left mbox.old) (TellsSteps given (S.left steps_file.old)) (H.seen shelf.old)
        (C.next clock.old) found
        → Puts (outcome words.now found) (K.held out.old) (K.held out.new) result }
    ensures crash { (found : Found) → Finds (request words.now) given (M.left mbox.old) (TellsSteps given (S.left steps_file.old)) (H.seen shelf.old)
        (C.next clock.old) found
        → LeavesOnly H.moment H.left_since shelf.old shelf.new (MayStandIf (given_in (request words.now) found) (H.may_leave shelf.old)) }
    ensures lasting { (found : Found) → Finds (request words.now) given (M.left mbox.old) (TellsSteps given (S.left steps_file.old)) (H.seen shelf.old)
        (C.next clock.old) found
        → LastIf (given_in (request words.now) found) (status_in result) (H.may_leave shelf.new) }
    ensures cost { (found : Found) → Finds (request words.now) given (M.left mbox.old) (TellsSteps given (S.left steps_file.old)) (H.seen shelf.old)
        (C.next clock.old) found
        → RoseWithin (counts steps.old (H.written shelf.old)) (cost_of (request words.now) found) (counts steps.new (H.written shelf.new)) }
    ensures write { IsErrOf result Refusal.Write → Rose (K.faults out.old) (K.faults out.new) }
    ensures nothing { IfErr result (λ why. why ≢ refusal.Write → out.new ≡ out.old) }
    ensures cause { IfErr result (CauseOf (Rose (M.faults mbox.old) (M.faults mbox.new)) (Rose (S.faults steps_file.old) (S.faults steps_file.new))
        (Rose (H.faults shelf.old) (H.faults shelf.new)) (Gave (M.left mbox.old) (M.left mbox.new)) (Gave (S.left steps_file.old) (S.left steps_file.new)) (KeptFor (request words.now) (H.seen shelf.old))) }
    ensures mbox_took { TakesUpTo (M.left mbox.old) (M.left mbox.new) mbox_budget }
    ensures steps_took { TakesUpTo (S.left steps_file.old) (S.left steps_file.new) steps_budget }
    ensures clock { AsksClock C.asked (needs_clock (request words.now) given) clock.old clock.new (IsErrOf result Refusal.Memory) }
{
    let Some(request) = Request::read(alloc, words)? else {
        return Err(Refusal::Usage);
    };
    let Request { me, at, command } = request;
    match command {
        Command::Ask(question) => reply_to(
            alloc, me, at, &question, given, mbox, steps_file, shelf, clock, out, steps,
        ),
        Command::Trial(number) => Ok(print_trial(alloc, me, number, out, steps)?),
    }
}

/// Puts the line of a refusal, and says how the run ends.
///
/// - `line`: the line of a refusal with that status was put, or a prefix of it where the sink's count rose. It is the
///   refusal that was given, or that memory ran out for its line.
fn refuse<K: Sink>(alloc: Global, why: &Refusal, out: &mut K) -> Status
    ensures status { (result ≡ status_of why.now) ⊎ (result ≡ Status.Memory) }
    ensures line { (said : Refusal) × (result ≡ status_of said) × ((said ≡ why.now) ⊎ (said ≡ refusal.Memory))
        × PutsWhole (K.held out.old) (K.held out.new) (line_of said) (Rose (K.faults out.old) (K.faults out.new)) }
{
    // The status is the same where the line can't be put.
    match why.line(alloc) {
        Ok(line) => {
            let _ = out.put(line.as_bytes());
            why.status()
        }
        Err(Memory) => {
            let _ = out.put(OUT_OF_MEMORY.as_bytes());
            Status::Memory
        }
    }
}

/// The run, with a flag that says whether a steps file is given.
fn run_given<M: Source, S: Source, H: Shelf, C: Clock, K: Sink, L: Ledger>(
    alloc: Global,
    words: &[Text],
    given: bool,
    mbox: &mut M,
    steps_file: &mut S,
    shelf: &mut H,
    clock: &mut C,
    out: &mut K,
    steps: &mut Steps<L>,
) -> Status
    ensures usage { ComesWhere Status.Usage (request words.now ≡ None) result }
    ensures bare { follows (request words.now) ≡ false → EndsBare result }
    ensures untouched { follows (request words.now) ≡ false → (mbox.new ≡ mbox.old) × (steps_file.new ≡ steps_file.old) × (shelf.new ≡ shelf.old) }
    ensures write { result ≡ Status.Write → Rose (K.faults out.old) (K.faults out.new) }
    ensures status { (found : Found) → Finds (request words.now) given (M.left mbox.old) (TellsSteps given (S.left steps_file.old)) (H.seen shelf.old)
        (C.next clock.old) found
        → Agrees (outcome words.now found) result }
    ensures answer { (found : Found) → Finds (request words.now) given (M.left mbox.old) (TellsSteps given (S.left steps_file.old)) (H.seen shelf.old)
        (C.next clock.old) found
        → PutsOutcome (K.held out.old) (K.held out.new) (Rose (K.faults out.old) (K.faults out.new)) (outcome words.now found) result }
    ensures crash { (found : Found) → Finds (request words.now) given (M.left mbox.old) (TellsSteps given (S.left steps_file.old)) (H.seen shelf.old)
        (C.next clock.old) found
        → LeavesOnly H.moment H.left_since shelf.old shelf.new (MayStandIf (given_in (request words.now) found) (H.may_leave shelf.old)) }
    ensures lasting { (found : Found) → Finds (request words.now) given (M.left mbox.old) (TellsSteps given (S.left steps_file.old)) (H.seen shelf.old)
        (C.next clock.old) found
        → LastIf (given_in (request words.now) found) result (H.may_leave shelf.new) }
    ensures cost { (found : Found) → Finds (request words.now) given (M.left mbox.old) (TellsSteps given (S.left steps_file.old)) (H.seen shelf.old)
        (C.next clock.old) found
        → RoseWithin (counts steps.old (H.written shelf.old)) (cost_of (request words.now) found) (counts steps.new (H.written shelf.new)) }
    ensures line { PutsLine (K.held out.old) (K.held out.new) (CauseOf (Rose (M.faults mbox.old) (M.faults mbox.new))
        (Rose (S.faults steps_file.old) (S.faults steps_file.new)) (Rose (H.faults shelf.old) (H.faults shelf.new))
        (Gave (M.left mbox.old) (M.left mbox.new)) (Gave (S.left steps_file.old) (S.left steps_file.new))
        (KeptFor (request words.now) (H.seen shelf.old))) (Rose (K.faults out.old) (K.faults out.new)) result }
    ensures mbox_took { TakesUpTo (M.left mbox.old) (M.left mbox.new) mbox_budget }
    ensures steps_took { TakesUpTo (S.left steps_file.old) (S.left steps_file.new) steps_budget }
    ensures clock { AsksClock C.asked (needs_clock (request words.now) given) clock.old clock.new (result ≡ Status.Memory) }
{
    match reply(
        alloc, words, given, mbox, steps_file, shelf, clock, out, steps,
    ) {
        Ok(()) => Status::Ok,
        // The sink took a prefix of the answer, after which no line comes.
        Err(why) if why == Refusal::Write => Status::Write,
        Err(why) => refuse(alloc, &why, out),
    }
}

/// Runs the words of a command line over the devices, and puts the answer, or the line that says why there is none.
///
/// It opens what the shelf keeps and goes on from there, and commits whenever 256 changes are pending and at the end, before
/// it prints. Where nothing is kept it follows the mailbox from its beginning. Without a steps file a moment comes, in seconds since 1970-01-01 00:00:00
/// UTC, and then each mail of the mbox arrives: the moment of the option `--at`, or the clock's, which is asked once, and
/// only there. With a steps file its lines are made in order, and then the moment of `--at` comes, where that is given. Of
/// the mailbox that this gives the list, a chat, the contacts or the updates of an app are printed.
///
/// The command `trial` makes its mailbox in memory, and prints its summary: no device is used but the sink, and nothing is kept.
///
/// - `Usage` comes exactly where the words are written as no request.
/// - `Read` comes only at a fault of the mbox or the steps file in this call, `Endless` only where 2^36 bytes of the mbox
///   or 2^32 bytes of the steps file were taken, `Disk` only at a fault of the shelf, and `Write` only at a fault of the sink. `Memory` may come at any point.
/// - `Steps` comes exactly at the first ended line of the steps file that is no step, or takes the next mail where there
///   is none; `Full` exactly at an arrival for which the mailbox has no place, or after 2^62 changes, also in a trial.
/// - `Damaged` comes exactly where what is kept is damaged, `OtherMe` exactly where it is the mailbox of another address, and
///   `Short` exactly where an input ends before the place up to which it was followed. `OtherFiles` comes exactly where none
///   is short, and the first bytes of an input are not those that were followed: its kept trace is not theirs.
/// - `NoChat` comes exactly where KEY is the text of no key in the list, and `NoApp` exactly where ID is the id of no
///   shown app.
pub fn run<M: Source, S: Source, H: Shelf, C: Clock, K: Sink, L: Ledger>(
    alloc: Global,
    words: &[Text],
    mbox: &mut M,
    steps_file: Option<&mut S>,
    shelf: &mut H,
    clock: &mut C,
    out: &mut K,
    steps: &mut Steps<L>,
) -> Status
    // When each status comes.
    ensures usage { ComesWhere Status.Usage (IsNoRequest words.now) result }
    ensures bare { follows (request words.now) ≡ false → EndsBare result }
    ensures write { result ≡ Status.Write → Rose (K.faults out.old) (K.faults out.new) }
    // Where the bytes of the inputs are known, what the shelf keeps, and the moment of a clock that is asked, any status but
    // Read, Endless, Disk and Memory is that of the outcome; and Write comes only where that is an answer.
    ensures status { (found : Found) → Finds (request words.now) (is_some steps_file.entry) (M.left mbox.old) (LentTells S.left steps_file.entry) (H.seen shelf.old)
        (C.next clock.old) found
        → Agrees (outcome words.now found) result }

    // What is put: the answer, or the very line of the refusal; and whatever is known, a line with that status and its cause.
    ensures answer { (found : Found) → Finds (request words.now) (is_some steps_file.entry) (M.left mbox.old) (LentTells S.left steps_file.entry) (H.seen shelf.old)
        (C.next clock.old) found
        → PutsOutcome (K.held out.old) (K.held out.new) (Rose (K.faults out.old) (K.faults out.new)) (outcome words.now found) result }
    ensures line { PutsLine (K.held out.old) (K.held out.new) (CauseOf (Rose (M.faults mbox.old) (M.faults mbox.new))
        (IfLentAnd steps_file.entry steps_file.exit (λ before after. Rose (S.faults before) (S.faults after)))
        (Rose (H.faults shelf.old) (H.faults shelf.new)) (Gave (M.left mbox.old) (M.left mbox.new))
        (LentGave S.left steps_file.entry steps_file.exit) (KeptFor (request words.now) (H.seen shelf.old)))
        (Rose (K.faults out.old) (K.faults out.new)) result }

    // What is kept: at any moment a crash leaves the state of a crash outcome at the start, or that after the first changes, of
    // whole commits of 256 or all; and once the last commit is made, or a change or an input refuses to go on, what is kept then.
    ensures crash { (found : Found) → Finds (request words.now) (is_some steps_file.entry) (M.left mbox.old) (LentTells S.left steps_file.entry) (H.seen shelf.old)
        (C.next clock.old) found
        → LeavesOnly H.moment H.left_since shelf.old shelf.new (MayStandIf (given_in (request words.now) found) (H.may_leave shelf.old)) }
    ensures lasting { (found : Found) → Finds (request words.now) (is_some steps_file.entry) (M.left mbox.old) (LentTells S.left steps_file.entry) (H.seen shelf.old)
        (C.next clock.old) found
        → LastIf (given_in (request words.now) found) result (H.may_leave shelf.new) }

    // Where nothing fails and the inputs end, the answer comes, unless memory runs out.
    ensures complete { (found : Found) (text : Bytes) → Finds (request words.now) (is_some steps_file.entry) (M.left mbox.old) (LentTells S.left steps_file.entry) (H.seen shelf.old)
        (C.next clock.old) found
        → outcome words.now found ≡ Ok text
        → length found.mbox < mbox_budget → IfSome found.steps (λ steps. length steps < steps_budget)
        → ¬ Rose (M.faults mbox.old) (M.faults mbox.new) → ¬ Rose (K.faults out.old) (K.faults out.new) → ¬ Rose (H.faults shelf.old) (H.faults shelf.new)
        → ¬ IfLentAnd steps_file.entry steps_file.exit (λ before after. Rose (S.faults before) (S.faults after))
        → (result ≡ Status.Ok × Appends (K.held out.old) (K.held out.new) text) ⊎ (result ≡ Status.Memory) }

    // What is counted: opening reads no more kept cards than the load of what stands, nor than that of the chosen slot and the
    // cost of each change after it, a checkpoint no more than there are, a change no more than it may cost, and the answer
    // what its question may; and a commit writes no more bytes than an image where a checkpoint falls due, and else a group.
    ensures cost { (found : Found) → Finds (request words.now) (is_some steps_file.entry) (M.left mbox.old) (LentTells S.left steps_file.entry) (H.seen shelf.old)
        (C.next clock.old) found
        → RoseWithin (counts steps.old (H.written shelf.old)) (cost_of (request words.now) found) (counts steps.new (H.written shelf.new)) }

    // What is asked of the devices.
    ensures untouched { follows (request words.now) ≡ false → mbox.new ≡ mbox.old }
    ensures steps_untouched { follows (request words.now) ≡ false → IfLent steps_file.entry steps_file.exit (λ before after. after ≡ before) }
    ensures mbox_took { TakesUpTo (M.left mbox.old) (M.left mbox.new) mbox_budget }
    ensures steps_took { IfLent steps_file.entry steps_file.exit (λ before after. TakesUpTo (S.left before) (S.left after) steps_budget) }
    ensures shelf_untouched { follows (request words.now) ≡ false → shelf.new ≡ shelf.old }
    ensures clock { AsksClock C.asked (needs_clock (request words.now) (is_some steps_file.entry)) clock.old clock.new (result ≡ Status.Memory) }
{
    match steps_file {
        Some(steps_file) => run_given(
            alloc, words, true, mbox, steps_file, shelf, clock, out, steps,
        ),
        None => run_given(
            alloc,
            words,
            false,
            mbox,
            &mut NoSource,
            shelf,
            clock,
            out,
            steps,
        ),
    }
}
