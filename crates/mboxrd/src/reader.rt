//! The reader of an mbox.
ghost use Rattle.std.specs.Prelude.{◌≡◌, ◌≢◌, ◌<◌, ◌≤◌, ◌+◌, ◌++◌, ℕ, List, [], take, drop, length, min, IfOk, OnOk, OnErr, IsErrOf, MatchResult, true, false};
ghost use Rattle.std.specs.Io.KnownBytes.{IsAtEnd};
ghost use Rattle.outside.specs.Causes.{Rose};
ghost use Rattle.source_buffer.specs.Buffered.{Drops};
ghost use Rattle.source_buffer.specs.Known.{IfKnown};
ghost use Rattle.mboxrd.specs.Mails.{mails_from};
ghost use Rattle.kit.specs.Chains.{StandsFor, chain, no_cut, value_of};
ghost use Rattle.mboxrd.specs.Reading.{IsAt, IsTraced, Takes, position};
ghost use Rattle.mboxrd.specs.Traced.{Goes, GoesBy};
ghost use Rattle.mboxrd.specs.declared.taken.Taken.TheVariants as taken;
ghost use Rattle.mboxrd.specs.Answers.{max_mail_len, AtMostOneMail, HoldsRest, Decides, IsNext};
ghost use Rattle.mboxrd.specs.ToSeparator.{SameMails, OneMail};

use crate::fault::BoxFault;
use crate::line_state::{LineState, Preceding};
use crate::separator::read_to_separator;
use crate::taken::Taken;
use kit::{Memory, Trace};
use outside::Source;
use source_buffer::{Buffer, Prefix};
use std::alloc::Global;
use std::marker::Model;

/// The most bytes that a mail may have: 64 MiB.
const MAX_MAIL_LEN: usize = 67_108_864;

/// Reads the mails of an mbox from a source, one after the other (RFC 4155, appendix A, in the variant that
/// is called mboxrd).
///
/// A separator line begins with `From `, and is the first line, or the first after a skip, or follows an
/// empty line. A mail is the lines after a separator line up to the next one or the end, without the empty
/// line that closes it. A line of one or more `>` and then `From ` is quoted: the mail has it with one `>`
/// less.
///
/// Each call takes the source, which must be the same for all calls. After a call that failed none but
/// [`MboxReader::place`] may follow.
#[derive(Drop)]
pub struct MboxReader {
    buffer: Buffer,
    // The `From ` of a separator line was read. It comes before what the buffer holds.
    at_separator: bool,
    place: u64,
    refused: bool,
    // Of the bytes up to the place.
    trace: Trace,
}

impl Model for MboxReader {
    ghost use Rattle.std.specs.Prelude.{◌≤◌, length};
    ghost use Rattle.mboxrd.specs.Reading.{Reading};
    ghost use Rattle.mboxrd.specs.Held.{with_from};

    ghost Value = { Reading };

    ghost view = { λ reader. record {
      held = with_from reader.at_separator reader.buffer.held;
      place = reader.place;
      taken = reader.buffer.taken;
      budget = reader.buffer.budget;
      at_separator = reader.at_separator;
      refused = reader.refused;
      trace = reader.trace;
    } };

    ghost invariant = { λ reader. length (with_from reader.at_separator reader.buffer.held) ≤ reader.buffer.taken };
}

impl MboxReader {
    /// A reader at offset 0. It takes up to `chunk_len` bytes of its source at once, from 1 to 1,048,576, and no
    /// more than `budget` bytes in all. Takes memory for one chunk; `Err` only when it runs out.
    pub fn new(alloc: Global, chunk_len: usize, budget: u64) -> Result<MboxReader, Memory>
        requires some { 1 ≤ chunk_len }
        requires limit { chunk_len ≤ 1048576 }
        ensures value { IfOk result (λ reader. reader ≡ record {
          held = [];
          place = 0;
          taken = 0;
          budget = budget;
          at_separator = false;
          refused = false;
          trace = no_cut;
        }) }
        ensures traced { IfOk result (λ reader. (file : List ℕ) → IsTraced file reader) }
    {
        let buffer = Buffer::new(alloc, chunk_len, budget)?;
        Ok(MboxReader {
            buffer,
            at_separator: false,
            place: 0,
            refused: false,
            trace: Trace::new(),
        })
    }

    /// The offset where the last mail ended, given or too long, after the empty line that closes it: a number
    /// of bytes from the start of the source. Before the first mail it is where the last skip ended, or 0. Takes
    /// no memory.
    pub fn place(&self) -> u64
        ensures { result ≡ self.now.place }
    {
        self.place
    }

    /// The chain of the bytes up to `place` ([`kit::Trace`]): after a skip and before the first mail that of the bytes that
    /// were passed over. Takes no memory.
    pub fn trace(&self) -> [u8; 32]
        ensures value { result ≡ value_of self.now.trace }
        ensures chain { (file : List ℕ) → StandsFor self.now.trace (take self.now.place file) → result ≡ chain (take self.now.place file) }
    {
        self.trace.value()
    }

    /// Passes over up to `count` bytes, and says how many: fewer only at the end. The next line may then be a
    /// separator line, as at the start of an mbox. It may be called only before the first
    /// [`MboxReader::next`], and not after a call that failed. Takes no memory.
    ///
    /// `Read` comes only where the source failed in this call, and `Endless` only where exactly the budget
    /// was taken in this reader's life and one more byte was needed.
    pub fn skip<S: Source>(&mut self, source: &mut S, count: u64) -> Result<u64, BoxFault>
        requires first { self.old.at_separator ≡ false }
        requires usable { self.old.refused ≡ false }
        ensures later { S.faults source.old ≤ S.faults source.new }
        ensures read { IsErrOf result BoxFault.Read → Rose (S.faults source.old) (S.faults source.new) }
        ensures endless { IsErrOf result BoxFault.Endless → self.new.taken ≡ self.new.budget }
        ensures memory { IsErrOf result BoxFault.Memory → ⊥ }
        // These bytes were taken of the source, and at Err they and what was held were too few.
        ensures took { (bytes : List ℕ) × Takes (S.left source.old) (S.left source.new) self.old self.new bytes
            × (MatchResult result
            (λ dropped. Drops self.old.trace self.new.trace self.old.held bytes dropped self.new.held)
            (λ _. length (self.old.held ++ bytes) < count)) }
        ensures count { IfOk result (λ dropped. dropped ≤ count) }
        ensures end { IfOk result (λ dropped. dropped < count → IsAtEnd (S.left source.new) × (self.new.held ≡ [])) }
        ensures moved { IfOk result (λ dropped. position self.new ≡ position self.old + dropped) }
        ensures place { OnOk result (self.new.place ≡ position self.new) }
        ensures first { OnOk result (self.new.at_separator ≡ false) }
        ensures usable { OnOk result (self.new.refused ≡ false) }
        ensures refused { OnErr result (self.new.refused ≡ true) }
        // What is held, followed by what the source has left, is the file from the reader's position on.
        ensures position { OnOk result (IfKnown (S.left source.old) (S.left source.new) (λ before after.
            (file : List ℕ) → IsAt file before self.old → IsAt file after self.new)) }
        // Where the trace stands for the bytes up to the place, it does so then.
        ensures traced { OnOk result (IfKnown (S.left source.old) (S.left source.new) (λ before after.
            (file : List ℕ) → IsAt file before self.old → IsTraced file self.old → IsTraced file self.new)) }
    {
        // The reader was at no separator line, and is at none after the skip.
        self.refused = true;
        let dropped = self.buffer.skip(source, count, &mut self.trace)?;
        self.refused = false;
        self.place = self.buffer.position();
        Ok(dropped)
    }

    // Goes to the next separator line, if it is at none, or to the end, and says whether there is one.
    fn reach<S: Source>(&mut self, alloc: Global, source: &mut S) -> Result<bool, BoxFault>
        ensures later { S.faults source.old ≤ S.faults source.new }
        ensures read { IsErrOf result BoxFault.Read → Rose (S.faults source.old) (S.faults source.new) }
        ensures endless { IsErrOf result BoxFault.Endless → self.new.taken ≡ self.new.budget }
        ensures took { (bytes : List ℕ) × Takes (S.left source.old) (S.left source.new) self.old self.new bytes
            × (MatchResult result
            (λ found. SameMails self.old bytes self.new × HoldsRest self.old bytes self.new × (found ≡ true → Goes self.old bytes self.new))
            (λ why. why ≡ BoxFault.Endless → AtMostOneMail self.old bytes)) }
        ensures before { length self.old.held ≤ self.old.taken }
        ensures fewer { length self.new.held ≤ self.new.taken }
        ensures found { IfOk result (λ found. found ≡ self.new.at_separator) }
        ensures end { IfOk result (λ found. found ≡ false → IsAtEnd (S.left source.new) × (self.new.held ≡ [])) }
        ensures place { self.new.place ≡ self.old.place }
        ensures trace { IfOk result (λ found. found ≡ false → self.new.trace ≡ self.old.trace) }
        ensures usable { OnOk result (self.old.refused ≡ false → self.new.refused ≡ false) }
        ensures refused { OnErr result (self.new.refused ≡ true) }
    {
        if self.at_separator {
            return Ok(true);
        }
        let mut nothing = Prefix::new(alloc, 0);
        let mut trace = self.trace.copy();
        self.refused = true;
        let found = read_to_separator(
            &mut self.buffer,
            source,
            LineState::Start(Preceding::Nothing),
            &mut nothing,
            &mut trace,
        )?;
        self.at_separator = found;
        self.refused = false;
        if !found {
            // The place stays, and so does its trace.
            return Ok(false);
        }
        self.trace = trace;
        Ok(true)
    }

    // Reads the mail whose separator line it is at, and gives its bytes: of one that is too long only the first, one
    // more than a mail may have.
    fn read_mail<S: Source>(&mut self, alloc: Global, source: &mut S) -> Result<Vec<u8>, BoxFault>
        requires { self.old.at_separator ≡ true }
        ensures later { S.faults source.old ≤ S.faults source.new }
        ensures read { IsErrOf result BoxFault.Read → Rose (S.faults source.old) (S.faults source.new) }
        ensures endless { IsErrOf result BoxFault.Endless → self.new.taken ≡ self.new.budget }
        ensures took { (bytes : List ℕ) × Takes (S.left source.old) (S.left source.new) self.old self.new bytes
            × (MatchResult result
            (λ kept. (mail : List ℕ) × (kept.items ≡ take (max_mail_len + 1) mail)
            × OneMail self.old bytes mail self.new × HoldsRest self.old bytes self.new × Goes self.old bytes self.new)
            (λ why. why ≡ BoxFault.Endless → AtMostOneMail self.old bytes)) }
        ensures fewer { length self.new.held ≤ self.new.taken }
        ensures end { OnOk result (self.new.at_separator ≡ false → IsAtEnd (S.left source.new) × (self.new.held ≡ [])) }
        ensures place { OnOk result (self.new.place ≡ position self.new) }
        ensures usable { OnOk result (self.new.refused ≡ false) }
        ensures refused { OnErr result (self.new.refused ≡ true) }
    {
        self.refused = true;
        self.at_separator = false;
        let mut mail = Prefix::new(alloc, MAX_MAIL_LEN + 1);
        self.trace.add(b"From ");
        let found = read_to_separator(
            &mut self.buffer,
            source,
            LineState::Separator,
            &mut mail,
            &mut self.trace,
        )?;
        self.at_separator = found;
        // The mail ends before the `From ` that was read.
        self.place = self.buffer.position() - if found { 5 } else { 0 };
        self.refused = false;
        Ok(mail.into_bytes())
    }

    /// The next mail, `TooLong` where it has more than 67,108,864 bytes, or `End` where there is none. The
    /// reader is then at the separator line that follows, or at the end. It may not be called after a call
    /// that failed. Takes memory for the mail, and for no more than 67,108,865 bytes of a longer one.
    ///
    /// `Read` comes only where the source failed in this call, and `Endless` only where exactly the budget
    /// was taken in this reader's life and one more byte was needed.
    pub fn next<S: Source>(&mut self, alloc: Global, source: &mut S) -> Result<Taken, BoxFault>
        requires usable { self.old.refused ≡ false }
        ensures later { S.faults source.old ≤ S.faults source.new }
        ensures read { IsErrOf result BoxFault.Read → Rose (S.faults source.old) (S.faults source.new) }
        ensures endless { IsErrOf result BoxFault.Endless → self.new.taken ≡ self.new.budget }
        // These bytes were taken of the source. They and what was held decide the answer, and at Endless at most one
        // mail begins in them, so its end is not known.
        ensures took { (bytes : List ℕ) × Takes (S.left source.old) (S.left source.new) self.old self.new bytes
            × (MatchResult result
            (λ answer. Decides self.old bytes answer self.new × HoldsRest self.old bytes self.new × GoesBy answer self.old bytes self.new)
            (λ why. why ≡ BoxFault.Endless → AtMostOneMail self.old bytes)) }
        ensures end { OnOk result (self.new.at_separator ≡ false → IsAtEnd (S.left source.new) × (self.new.held ≡ [])) }
        ensures usable { OnOk result (self.new.refused ≡ false) }
        ensures refused { OnErr result (self.new.refused ≡ true) }
        // Whatever the source tells, a mail comes only after bytes that it gave.
        ensures given { IfOk result (λ answer. answer ≢ taken.End → 1 ≤ self.new.taken) }
        // At a mail the place is where the next one begins, and at the end it stays.
        ensures placed { IfOk result (λ answer. answer ≢ taken.End → self.new.place ≡ position self.new) }
        ensures stays { IfOk result (λ answer. answer ≡ taken.End → (self.new.place ≡ self.old.place) × (self.new.trace ≡ self.old.trace)) }
        // Where the source's bytes are known, the answer is the first of the mails from the old position on, `place` is
        // its end, and the others are those from the new position on.
        ensures answer { IfOk result (λ answer. IfKnown (S.left source.old) (S.left source.new) (λ before after.
            IsNext (mails_from (position self.old) (self.old.held ++ before)) answer self.old self.new
            (mails_from (position self.new) (self.new.held ++ after)))) }
        // What is held, followed by what the source has left, is the file from the reader's position on.
        ensures position { OnOk result (IfKnown (S.left source.old) (S.left source.new) (λ before after.
            (file : List ℕ) → IsAt file before self.old → IsAt file after self.new)) }
        // Where the trace stands for the bytes up to the place, it does so then.
        ensures traced { IfOk result (λ answer. IfKnown (S.left source.old) (S.left source.new) (λ before after.
            (file : List ℕ) → IsAt file before self.old → IsTraced file self.old
            → StandsFor self.new.trace (take self.new.place file) × (answer ≢ taken.End → IsTraced file self.new))) }
    {
        let found = self.reach(alloc, source)?;
        if !found {
            return Ok(Taken::End);
        }
        let bytes = self.read_mail(alloc, source)?;
        if bytes.len() > MAX_MAIL_LEN {
            return Ok(Taken::TooLong);
        }
        Ok(Taken::Mail(bytes))
    }
}
