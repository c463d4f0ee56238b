//! What a reader does with the next bytes of a line.
ghost use Rattle.std.specs.Prelude.{◌≡◌, ◌<◌, ◌≤◌, ◌&&◌, ◌==◌, ℕ, List, [], ◌∷◌, length, take, IfOk, OnOk, Some, None, true};
ghost use Rattle.source_buffer.specs.Kept.{Keeps};
ghost use Rattle.mboxrd.specs.Traced.{HoldsBack, held_back, holds_any};
ghost use Rattle.mboxrd.specs.LineStates.{StepsTo, IsLineState, EndsWith, state_after, separator_may_follow, withheld_line};
ghost use Rattle.mboxrd.specs.declared.line_state.LineState.{LineState};
ghost use Rattle.mboxrd.specs.declared.line_state.LineState.TheVariants as state;
ghost use Rattle.mboxrd.specs.declared.line_state.Preceding.TheVariants as before;

use crate::line_state::{LineState, Preceding};
use kit::Memory;
use memchr::memchr;
use source_buffer::Prefix;

const FROM: [u8; 5] = *b"From ";

/// How many bytes were read, and the state after them: none where they end the `From ` of a separator line.
#[derive(Clone, Copy)]
pub struct Step {
    pub read: usize,
    pub next: Option<LineState>,
}

// A separator line follows an empty line, or is the first.
fn separator_may_follow(preceding: Preceding) -> bool
    ensures { result ≡ separator_may_follow preceding }
{
    match preceding {
        Preceding::Text => false,
        Preceding::Nothing | Preceding::EmptyLf | Preceding::EmptyCrLf => true,
    }
}

// The empty line that is withheld, if one comes before.
fn withheld_line(preceding: Preceding) -> &'static [u8]
    ensures { result.now ≡ withheld_line preceding }
{
    match preceding {
        Preceding::Text | Preceding::Nothing => b"",
        Preceding::EmptyLf => b"\n",
        Preceding::EmptyCrLf => b"\r\n",
    }
}

// Whether the byte may begin a separator line.
fn may_begin_separator(preceding: Preceding, b: u8) -> bool
    ensures { result ≡ (b == 70 && separator_may_follow preceding) }
{
    b == b'F' && separator_may_follow(preceding)
}

// The first byte of a line.
fn at_start(preceding: Preceding, b: u8, mail: &mut Prefix) -> Result<LineState, Memory>
    ensures steps { IfOk result (λ next. (added : List ℕ) × Keeps mail.old mail.new added × StepsTo (state.Start preceding) (b ∷ []) added (Some next)) }
    ensures back { IfOk result (λ next. HoldsBack (state.Start preceding) (b ∷ []) (Some next)) }
{
    if may_begin_separator(preceding, b) {
        return Ok(LineState::From(preceding, 1));
    }
    mail.keep(withheld_line(preceding))?;
    match b {
        b'\n' => Ok(LineState::Start(Preceding::EmptyLf)),
        b'\r' => Ok(LineState::Cr),
        b'>' => Ok(LineState::Quote(0)),
        _ => {
            mail.keep(&[b])?;
            Ok(LineState::Inside)
        }
    }
}

// The state after a byte of a line that the mail has as it is.
fn state_after(b: u8) -> LineState
    ensures after { result ≡ state_after b }
    ensures back { (before : LineState) (read : List ℕ) → HoldsBack before read (Some result) }
{
    if b == b'\n' {
        LineState::Start(Preceding::Text)
    } else {
        LineState::Inside
    }
}

// The next byte after the first `k` bytes of `From `.
fn at_from(
    preceding: Preceding,
    k: usize,
    b: u8,
    mail: &mut Prefix,
) -> Result<Option<LineState>, Memory>
    requires { IsLineState (state.From preceding k) }
    ensures steps { IfOk result (λ next. (added : List ℕ) × Keeps mail.old mail.new added × StepsTo (state.From preceding k) (b ∷ []) added next) }
    ensures back { IfOk result (λ next. HoldsBack (state.From preceding k) (b ∷ []) next) }
{
    if b == FROM[k] {
        return Ok(if k == 4 {
            None
        } else {
            Some(LineState::From(preceding, k + 1))
        });
    }
    mail.keep(withheld_line(preceding))?;
    mail.keep(&FROM[..k])?;
    mail.keep(&[b])?;
    Ok(Some(state_after(b)))
}

// The next byte after one or more `>` and the first `k` bytes of `From `.
fn at_quote(k: usize, b: u8, mail: &mut Prefix) -> Result<LineState, Memory>
    requires { IsLineState (state.Quote k) }
    ensures steps { IfOk result (λ next. (added : List ℕ) × Keeps mail.old mail.new added × StepsTo (state.Quote k) (b ∷ []) added (Some next)) }
    ensures back { IfOk result (λ next. HoldsBack (state.Quote k) (b ∷ []) (Some next)) }
{
    if b == FROM[k] {
        if k == 4 {
            // The last `>` is the one that the mail does not have.
            mail.keep(&FROM)?;
            return Ok(LineState::Inside);
        }
        return Ok(LineState::Quote(k + 1));
    }
    mail.keep(b">")?;
    if k == 0 && b == b'>' {
        return Ok(LineState::Quote(0));
    }
    mail.keep(&FROM[..k])?;
    mail.keep(&[b])?;
    Ok(state_after(b))
}

// The next byte after a CR at the start of a line.
fn at_cr(b: u8, mail: &mut Prefix) -> Result<LineState, Memory>
    ensures steps { IfOk result (λ next. (added : List ℕ) × Keeps mail.old mail.new added × StepsTo state.Cr (b ∷ []) added (Some next)) }
    ensures back { IfOk result (λ next. HoldsBack state.Cr (b ∷ []) (Some next)) }
{
    if b == b'\n' {
        return Ok(LineState::Start(Preceding::EmptyCrLf));
    }
    mail.keep(b"\r")?;
    mail.keep(&[b])?;
    Ok(LineState::Inside)
}

// Whether the mail has a line after one of text as it is, since it begins with this byte. An empty line may be withheld,
// and a quoted one loses a `>`. `F` begins no separator line there, since none follows one of text.
fn begins_text(b: u8) -> bool
    ensures { result ≡ true → StepsTo (state.Start before.Text) (b ∷ []) (b ∷ []) (Some state.Inside) }
{
    !matches!(b, b'>' | b'\n' | b'\r')
}

// From within a line, what the mail has as it is: up to the end of a line after which an empty or a quoted one may
// follow, or all that is held.
fn unchanged(held: &[u8]) -> Step
    requires { 0 < length held.now }
    ensures some { 0 < result.read }
    ensures within { result.read ≤ length held.now }
    ensures steps { StepsTo state.Inside (take result.read held.now) (take result.read held.now) result.next }
    ensures back { HoldsBack state.Inside (take result.read held.now) result.next }
{
    let mut read = 0;
    while let Some(end) = memchr(b'\n', &held[read..]) {
        let line_end = read + end + 1;
        if line_end == held.len() || !begins_text(held[line_end]) {
            return Step {
                read: line_end,
                next: Some(LineState::Start(Preceding::Text)),
            };
        }
        read = line_end + 1;
    }
    Step {
        read: held.len(),
        next: Some(LineState::Inside),
    }
}

// Adds to the mail at once all that it has as it is: a step for each line would take most of a reader's time.
fn inside(held: &[u8], mail: &mut Prefix) -> Result<Step, Memory>
    requires { 0 < length held.now }
    ensures some { IfOk result (λ step. 0 < step.read) }
    ensures within { IfOk result (λ step. step.read ≤ length held.now) }
    ensures steps { IfOk result (λ step. (added : List ℕ) × Keeps mail.old mail.new added × StepsTo state.Inside (take step.read held.now) added step.next) }
    ensures back { IfOk result (λ step. HoldsBack state.Inside (take step.read held.now) step.next) }
{
    let step = unchanged(held);
    mail.keep(&held[..step.read])?;
    Ok(step)
}

// The same of a separator line, which is not of the mail.
fn in_separator(held: &[u8]) -> Step
    requires { 0 < length held.now }
    ensures some { 0 < result.read }
    ensures within { result.read ≤ length held.now }
    ensures steps { StepsTo state.Separator (take result.read held.now) [] result.next }
    ensures back { HoldsBack state.Separator (take result.read held.now) result.next }
{
    match memchr(b'\n', held) {
        Some(end) => Step {
            read: end + 1,
            next: Some(LineState::Start(Preceding::Text)),
        },
        None => Step {
            read: held.len(),
            next: Some(LineState::Separator),
        },
    }
}

impl Step {
    fn of_byte(next: Option<LineState>) -> Step
        ensures read { result.read ≡ 1 }
        ensures next { result.next ≡ next }
    {
        Step { read: 1, next }
    }
}

/// Reads the next byte of what is held, or all up to the end of a separator line, or as many lines as the mail has as
/// they are. Takes memory for what is added to the mail.
pub fn read_on(state: LineState, held: &[u8], mail: &mut Prefix) -> Result<Step, Memory>
    requires state { IsLineState state }
    requires some { 0 < length held.now }
    ensures some { IfOk result (λ step. 0 < step.read) }
    ensures within { IfOk result (λ step. step.read ≤ length held.now) }
    ensures steps { IfOk result (λ step. (added : List ℕ) × Keeps mail.old mail.new added × StepsTo state (take step.read held.now) added step.next) }
    ensures back { IfOk result (λ step. HoldsBack state (take step.read held.now) step.next) }
{
    let b = held[0];
    match state {
        LineState::Separator => Ok(in_separator(held)),
        LineState::Inside => inside(held, mail),
        LineState::Start(preceding) => Ok(Step::of_byte(Some(at_start(preceding, b, mail)?))),
        LineState::From(preceding, k) => Ok(Step::of_byte(at_from(preceding, k, b, mail)?)),
        LineState::Quote(k) => Ok(Step::of_byte(Some(at_quote(k, b, mail)?))),
        LineState::Cr => Ok(Step::of_byte(Some(at_cr(b, mail)?))),
    }
}

/// Adds to the mail, at the end of the mbox, what the state withholds of the last line. An empty line stays withheld,
/// since it closes the mail.
pub fn finish(state: LineState, mail: &mut Prefix) -> Result<(), Memory>
    requires { IsLineState state }
    ensures { OnOk result ((added : List ℕ) × Keeps mail.old mail.new added × EndsWith state added) }
{
    match state {
        LineState::Separator | LineState::Start(_) | LineState::Inside => Ok(()),
        LineState::From(preceding, k) => {
            mail.keep(withheld_line(preceding))?;
            mail.keep(&FROM[..k])?;
            Ok(())
        }
        LineState::Quote(k) => {
            mail.keep(b">")?;
            mail.keep(&FROM[..k])?;
            Ok(())
        }
        LineState::Cr => {
            mail.keep(b"\r")?;
            Ok(())
        }
    }
}

/// What was passed last and may be of a separator line.
pub fn held_back(state: LineState) -> &'static [u8]
    requires { IsLineState state }
    ensures { result.now ≡ held_back state }
{
    match state {
        LineState::From(_, k) => &FROM[..k],
        _ => b"",
    }
}

/// Whether anything may be of a separator line after a step, or is of one.
pub fn holds_any(next: Option<LineState>) -> bool
    ensures { result ≡ holds_any next }
{
    matches!(next, None | Some(LineState::From(_, _)))
}
