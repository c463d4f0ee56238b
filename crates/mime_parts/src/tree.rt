//! The tree of the parts of a mail.
ghost use Rattle.std.specs.Prelude.{◌≡◌, ◌≤◌, ◌+◌, ◌++◌, All, IfOk, OnOk, length, map, reverse, vec_len};
ghost use Rattle.mime_parts.specs.Trees.{IsNodeWithin, opened, tree};
ghost use Rattle.mime_parts.specs.Walks.{IsWithin, work_at};

use crate::multipart::{Span, spans};
use crate::part::{MAX_DEPTH, PartNode, boundary_of, is_digest, kind_of, node_of};
use kit::Memory;
use mail_headers::{Header, read_header};
use mime_fields::ContentType;
use std::alloc::Global;

/// No tree has more nodes.
const MAX_NODES: usize = 1000;

/// The parts of a mail (RFC 2046, section 5.1).
#[derive(Debug, Drop)]
pub struct PartTree {
    /// The nodes in preorder, 1 to 1,000: the mail itself, and after each multipart that was opened the nodes in it.
    pub nodes: Vec<PartNode>,
}

/// A part that is still to be read.
#[derive(Clone, Copy, Debug, PartialEq, Eq)]
struct Work {
    /// How many levels may lie below it.
    levels: u32,
    /// Whether it is in a digest.
    digest: bool,
    /// Where its header and its content are.
    span: Span,
}

/// Where the parts in a part are, if it is opened: where so many levels may lie below it, and no more than 1,000 nodes
/// are known with them.
fn opened(
    alloc: Global,
    body: &[u8],
    levels: u32,
    kind: &ContentType,
    content: Span,
    known: usize,
) -> Result<Vec<Span>, Memory>
    requires inside { IsWithin (length body.now) content }
    requires few { known ≤ 1000 }
    ensures items { IfOk result (λ found. found.items ≡ opened body.now levels kind.now content known) }
    ensures few { IfOk result (λ found. known + vec_len found ≤ 1000) }
    ensures within { IfOk result (λ found. All (IsWithin (length body.now)) found.items) }
{
    if levels == 0 {
        return Ok(Vec::new(alloc));
    }
    let Some(boundary) = boundary_of(kind) else {
        return Ok(Vec::new(alloc));
    };
    let found = spans(
        alloc,
        boundary,
        &body[content.start..content.end],
        content.start,
    )?;
    if found.len() > MAX_NODES - known {
        return Ok(Vec::new(alloc));
    }
    Ok(found)
}

/// Puts parts on top of the work, the first at the very top.
fn push_work(
    work: &mut Vec<Work>,
    levels: u32,
    digest: bool,
    mut parts: Vec<Span>,
) -> Result<(), Memory>
    ensures len { OnOk result (vec_len work.new ≡ vec_len work.old + vec_len parts) }
    ensures items { OnOk result (work.new.items ≡ work.old.items ++ reverse (map (work_at levels digest) parts.items)) }
{
    while let Some(span) = parts.pop() {
        work.push(Work {
            levels,
            digest,
            span,
        })?;
    }
    Ok(())
}

/// What a walk has read, and what it is still to read.
#[derive(Drop)]
struct Walk {
    nodes: Vec<PartNode>,
    /// The next one is the last.
    work: Vec<Work>,
}

impl Walk {
    ghost use Rattle.std.specs.Prelude.{◌≡◌, ◌≤◌, ◌<◌, ◌+◌, ◌++◌, All, OnOk, length, reverse, vec_len};
    ghost use Rattle.mime_parts.specs.Trees.{IsNodeWithin, grown, part, part_at};
    ghost use Rattle.mime_parts.specs.Walks.{IsWithin, coming, walked};

    /// Takes up a part of this header, whose content has the span of `next`.
    fn enter(
        &mut self,
        alloc: Global,
        body: &[u8],
        header: &Header,
        next: Work,
    ) -> Result<(), Memory>
        requires inside { IsWithin (length body.now) next.span }
        requires few { vec_len self.now.nodes + vec_len self.now.work < 1000 }
        requires nodes { All (IsNodeWithin (length body.now)) self.now.nodes.items }
        requires work { All (λ w. IsWithin (length body.now) w.span) self.now.work.items }
        ensures few { OnOk result (vec_len self.new.nodes + vec_len self.new.work ≤ 1000) }
        ensures more { OnOk result (vec_len self.new.nodes ≡ vec_len self.old.nodes + 1) }
        ensures nodes { OnOk result (All (IsNodeWithin (length body.now)) self.new.nodes.items) }
        ensures work { OnOk result (All (λ w. IsWithin (length body.now) w.span) self.new.work.items) }
        ensures coming { let read = grown body.now next.levels next.digest (part header.now next.span) (vec_len self.old.nodes + vec_len self.old.work + 1) in
            OnOk result (coming body.now self.new.nodes.items self.new.work.items
            ≡ self.old.nodes.items ++ (read.nodes ++ walked body.now (reverse self.old.work.items) read.known)) }
    {
        let kind = kind_of(alloc, next.digest, header)?;
        let known = self.nodes.len() + self.work.len() + 1;
        let parts = opened(alloc, body, next.levels, &kind, next.span, known)?;
        let leaf = parts.is_empty();
        push_work(
            &mut self.work,
            next.levels.saturating_sub(1),
            is_digest(&kind),
            parts,
        )?;
        let node = node_of(alloc, header, kind, next.levels, next.span, leaf)?;
        self.nodes.push(node)?;
        Ok(())
    }

    /// Reads the header of a part, and takes it up.
    fn read(&mut self, alloc: Global, body: &[u8], next: Work) -> Result<(), Memory>
        requires inside { IsWithin (length body.now) next.span }
        requires few { vec_len self.now.nodes + vec_len self.now.work < 1000 }
        requires nodes { All (IsNodeWithin (length body.now)) self.now.nodes.items }
        requires work { All (λ w. IsWithin (length body.now) w.span) self.now.work.items }
        ensures few { OnOk result (vec_len self.new.nodes + vec_len self.new.work ≤ 1000) }
        ensures more { OnOk result (vec_len self.new.nodes ≡ vec_len self.old.nodes + 1) }
        ensures nodes { OnOk result (All (IsNodeWithin (length body.now)) self.new.nodes.items) }
        ensures work { OnOk result (All (λ w. IsWithin (length body.now) w.span) self.new.work.items) }
        ensures coming { let read = grown body.now next.levels next.digest (part_at body.now next.span) (vec_len self.old.nodes + vec_len self.old.work + 1) in
            OnOk result (coming body.now self.new.nodes.items self.new.work.items
            ≡ self.old.nodes.items ++ (read.nodes ++ walked body.now (reverse self.old.work.items) read.known)) }
    {
        let Work {
            levels,
            digest,
            span: Span { start, end },
        } = next;
        let header = read_header(alloc, &body[start..end])?;
        let span = Span {
            start: start + header.body_at(),
            end,
        };
        self.enter(
            alloc,
            body,
            &header,
            Work {
                levels,
                digest,
                span,
            },
        )
    }
}

/// The parts of a mail of this header, and of the body after it (RFC 2046, section 5.1). Any bytes are a body. Takes time
/// for a pass over the body for each level that is opened, and memory; `Err` only when it runs out.
///
/// A part of type multipart is opened where it has a boundary that is not empty, unless it is encrypted (RFC 1847,
/// section 2.2). Its parts are what is between its delimiter lines: `--boundary`, with nothing but spaces and tabs after
/// it, and up to the closing line, `--boundary--` with the same after it, or else the end. The line end before each
/// belongs to it. A part is not opened where it has no delimiter line, is at depth 16, or where the nodes known so far
/// and its parts are more than 1,000; the nodes known are those of all multiparts that were opened before, in preorder.
pub fn parts(alloc: Global, header: &Header, body: &[u8]) -> Result<PartTree, Memory>
    ensures nodes { IfOk result (λ read. read.nodes.items ≡ tree header.now body.now) }
    ensures few { IfOk result (λ read. (1 ≤ vec_len read.nodes) × (vec_len read.nodes ≤ 1000)) }
    ensures within { IfOk result (λ read. All (IsNodeWithin (length body.now)) read.nodes.items) }
{
    let mut walk = Walk {
        nodes: Vec::new(alloc),
        work: Vec::new(alloc),
    };
    let root = Work {
        levels: MAX_DEPTH,
        digest: false,
        span: Span {
            start: 0,
            end: body.len(),
        },
    };
    walk.enter(alloc, body, header, root)?;
    while let Some(next) = walk.work.pop() {
        walk.read(alloc, body, next)?;
    }
    Ok(PartTree { nodes: walk.nodes })
}
