//! Images, read.
ghost use Rattle.std.specs.Prelude.{◌≡◌, ◌≤◌, [], IfOk, true};
ghost use Rattle.mailbox_model.specs.Mailbox.{IsMailbox};
ghost use Rattle.box_state.specs.declared.ready.Ready.TheVariants.{Unready};
ghost use Rattle.card_record.specs.Reading.{Moves, run_at};
ghost use Rattle.state_image.specs.Images.{begins_as, both_traces_at, image_of, image_with, count_at, counts_at, lines_at, position_at, next_uid_at, head_at, head_of, body_at, mailbox_by, traces_at, GivesImage, IsImage, IsPosition};

use crate::entries::read_entries;
use crate::fault::ImageFault;
use crate::offset::{fault_in, rest_from};
use crate::position::{MAX_COUNT, Position};
use box_state::Mailbox;
use card_record::{Field, ReadFault, Rest, read_moment};
use kit::Addr;
use std::alloc::Global;

/// The name of an image, which tells its version: with traces, as it is written, and without.
pub const NAME: &[u8] = b"CHATSIM2";

const OLD_NAME: &[u8] = b"CHATSIM1";

/// How far the changes have come, without traces.
#[derive(Clone, Copy)]
struct Counts {
    count: u64,
    mbox: u64,
    steps: u64,
    lines: u64,
}

/// What an image has before the items.
#[derive(Drop)]
pub struct Head {
    me: Addr,
    position: Position,
    moment: u64,
    next_uid: u32,
}

/// Takes the number of changes.
fn read_count(rest: &mut Rest<'_>) -> Result<u64, ReadFault>
    ensures { Moves (λ n. n) result (count_at rest.old) rest.new }
{
    let left = rest.len();
    let count = rest.b64()?;
    if count < 1 || MAX_COUNT < count {
        return Err(ReadFault::Malformed(left));
    }
    Ok(count)
}

/// Takes a number of lines, of which there are no more than bytes.
fn read_lines(steps: u64, rest: &mut Rest<'_>) -> Result<u64, ReadFault>
    ensures { Moves (λ n. n) result (lines_at steps rest.old) rest.new }
{
    let left = rest.len();
    let lines = rest.b64()?;
    if steps < lines {
        return Err(ReadFault::Malformed(left));
    }
    Ok(lines)
}

/// Takes the numbers of a position.
#[tactic(auto, unfolding(crate::specs::Images::counts_at))]
fn read_counts(rest: &mut Rest<'_>) -> Result<Counts, ReadFault>
    ensures { Moves (λ c. c) result (counts_at rest.old) rest.new }
{
    let count = read_count(rest)?;
    let mbox = rest.b64()?;
    let steps = rest.b64()?;
    let lines = read_lines(steps, rest)?;
    Ok(Counts {
        count,
        mbox,
        steps,
        lines,
    })
}

/// Takes a trace.
fn read_trace(rest: &mut Rest<'_>) -> Result<[u8; 32], ReadFault>
    ensures { Moves (λ trace. trace) result (run_at 32 rest.old) rest.new }
{
    let run = rest.run(32)?;
    let mut trace = [0u8; 32];
    trace.copy_from_slice(run);
    Ok(trace)
}

/// Takes the traces of both inputs.
#[tactic(auto, unfolding(crate::specs::Images::both_traces_at))]
fn read_both(rest: &mut Rest<'_>) -> Result<([u8; 32], [u8; 32]), ReadFault>
    ensures { Moves (λ traces. traces) result (both_traces_at rest.old) rest.new }
{
    let mbox = read_trace(rest)?;
    let steps = read_trace(rest)?;
    Ok((mbox, steps))
}

/// Takes the traces of both inputs where the version has them; else each is 32 zero bytes. Takes no memory.
pub fn read_traces(traced: bool, rest: &mut Rest<'_>) -> Result<([u8; 32], [u8; 32]), ReadFault>
    ensures { Moves (λ traces. traces) result (traces_at traced rest.old) rest.new }
{
    if traced {
        read_both(rest)
    } else {
        Ok(([0; 32], [0; 32]))
    }
}

/// Takes a position.
#[tactic(auto, unfolding(crate::specs::Images::position_at))]
fn read_position(traced: bool, rest: &mut Rest<'_>) -> Result<Position, ReadFault>
    ensures { Moves (λ p. p) result (position_at traced rest.old) rest.new }
{
    let counts = read_counts(rest)?;
    let (mbox_trace, steps_trace) = read_traces(traced, rest)?;
    Ok(Position {
        count: counts.count,
        mbox: counts.mbox,
        steps: counts.steps,
        lines: counts.lines,
        mbox_trace,
        steps_trace,
    })
}

/// Takes the next uid.
fn read_next_uid(rest: &mut Rest<'_>) -> Result<u32, ReadFault>
    ensures uid { Moves (λ n. n) result (next_uid_at rest.old) rest.new }
    ensures some { IfOk result (λ n. 1 ≤ n) }
{
    let left = rest.len();
    let next_uid = rest.b32()?;
    if next_uid < 1 {
        return Err(ReadFault::Malformed(left));
    }
    Ok(next_uid)
}

/// Takes all before the items.
#[tactic(auto, unfolding(crate::specs::Images::head_at))]
fn read_head(alloc: Global, traced: bool, rest: &mut Rest<'_>) -> Result<Head, ReadFault>
    ensures head { Moves (λ head. head) result (head_at traced rest.old) rest.new }
    ensures rules { IfOk result (λ head. IsMailbox (mailbox_by head [])) }
{
    let me = <Addr as Field>::read(alloc, rest)?;
    let position = read_position(traced, rest)?;
    let moment = read_moment(rest)?;
    let next_uid = read_next_uid(rest)?;
    Ok(Head {
        me,
        position,
        moment,
        next_uid,
    })
}

/// Takes all after the name.
#[tactic(auto, unfolding(crate::specs::Images::body_at))]
fn read_body(
    alloc: Global,
    traced: bool,
    rest: &mut Rest<'_>,
) -> Result<(Mailbox, Position), ReadFault>
    ensures body { Moves (λ read. (head_of read.0.mailbox read.1, read.0.mailbox.entries)) result (body_at traced rest.old) rest.new }
    ensures ready { IfOk result (λ read. read.0.ready ≡ Unready) }
{
    let Head {
        me,
        position,
        moment,
        next_uid,
    } = read_head(alloc, traced, rest)?;
    let mut mailbox = Mailbox::without_mails(alloc, me, moment, next_uid);
    read_entries(alloc, &mut mailbox, rest)?;
    if rest.len() > 0 {
        return Err(ReadFault::Malformed(rest.len()));
    }
    Ok((mailbox, position))
}

/// The mailbox and the position whose image of this version the bytes are, which begin with its name.
fn read_in(alloc: Global, traced: bool, bytes: &[u8]) -> Result<(Mailbox, Position), ImageFault>
    requires named { begins_as traced bytes.now ≡ true }
    ensures gives { GivesImage result (image_with traced bytes.now) }
    ensures ready { IfOk result (λ read. read.0.ready ≡ Unready) }
    ensures spelled { IfOk result (λ read. IsImage bytes.now read.0.mailbox read.1) }
    ensures position { IfOk result (λ read. IsPosition read.1) }
{
    let mut rest = rest_from(bytes, NAME.len());
    match read_body(alloc, traced, &mut rest) {
        Ok(read) => Ok(read),
        Err(fault) => Err(fault_in(bytes.len(), fault)),
    }
}

/// The mailbox and the position whose image the bytes are, in either version: one without traces gives 32 zero bytes for
/// each. `Version` exactly where they begin with neither name; `Malformed` exactly where they begin with one, and a field
/// is short or breaks its rule or something follows the last item, with the offset where the first such field begins, or
/// what follows. The mailbox is ready for no arrival. Takes memory.
pub fn read_image(alloc: Global, bytes: &[u8]) -> Result<(Mailbox, Position), ImageFault>
    ensures gives { GivesImage result (image_of bytes.now) }
    ensures ready { IfOk result (λ read. read.0.ready ≡ Unready) }
    ensures spelled { IfOk result (λ read. IsImage bytes.now read.0.mailbox read.1) }
    ensures position { IfOk result (λ read. IsPosition read.1) }
{
    if bytes.starts_with(NAME) {
        return read_in(alloc, true, bytes);
    }
    if bytes.starts_with(OLD_NAME) {
        return read_in(alloc, false, bytes);
    }
    Err(ImageFault::Version)
}
