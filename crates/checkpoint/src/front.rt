//! The front of a place: its gate, and the number and the length of its slot.
ghost use Rattle.std.specs.Prelude.{◌≡◌, ◌≤◌, ◌+◌, List, ℕ, length, take, drop, IfOk};
ghost use Rattle.std.specs.Int.{w64, from_be_bytes};
ghost use Rattle.outside.specs.Causes.{HasCause};
ghost use Rattle.outside.specs.Places.{content};
ghost use Rattle.outside.specs.Moments.{WhereKnown, ChangesNoRead};
ghost use Rattle.checkpoint.specs.Slots.{is_closed};
ghost use Rattle.checkpoint.specs.Parts.{IsFront, stated_in, chosen_stated};

use outside::{Failed, Place, Shelf};

/// How many bytes a slot has before its image.
pub const HEAD: usize = 17;

/// The number of an open slot and the length of its image, which its place has.
#[derive(Clone, Copy)]
pub struct Stated {
    pub number: u64,
    pub length: u64,
}

/// What the first bytes of a place say of it.
#[derive(Clone, Copy)]
pub struct Front {
    /// It has a gate, and the gate is closed.
    pub closed: bool,
    /// Its slot, where that is open.
    pub slot: Option<Stated>,
}

fn number_at(head: &[u8], at: usize) -> u64
    requires { at + 8 ≤ length head.now }
    ensures { result ≡ from_be_bytes w64 (take 8 (drop at head.now)) }
{
    let bytes = &head[at..at + 8];
    u64::from_be_bytes([
        bytes[0], bytes[1], bytes[2], bytes[3], bytes[4], bytes[5], bytes[6], bytes[7],
    ])
}

/// The slot of a place with so many bytes, of which these are the first.
fn stated_by(size: u64, head: &[u8]) -> Option<Stated>
    ensures { result ≡ stated_in size head.now }
{
    if head.len() < HEAD || head[0] != 1 {
        return None;
    }
    let number = number_at(head, 1);
    let length = number_at(head, 9);
    match length.checked_add(HEAD as u64) {
        Some(end) if end <= size => Some(Stated { number, length }),
        _ => None,
    }
}

/// Whether there is a gate that is closed.
fn closed_by(head: &[u8]) -> bool
    ensures { result ≡ is_closed head.now }
{
    match head.first() {
        Some(gate) => *gate != 1,
        None => false,
    }
}

/// Looks at the size and the first bytes of a place.
pub fn look<H: Shelf>(shelf: &mut H, place: Place) -> Result<Front, Failed>
    ensures front { IfOk result (λ front. WhereKnown (H.seen shelf.old) (λ places. IsFront front (content places place))) }
    ensures nothing { ChangesNoRead H.seen H.may_leave H.moment H.left_since shelf.old shelf.new }
    ensures written { H.written shelf.new ≡ H.written shelf.old }
    ensures cause { HasCause (H.faults shelf.old) (H.faults shelf.new) result }
{
    let size = shelf.size(place)?;
    let mut head = [0u8; HEAD];
    let count = shelf.read(place, 0, &mut head)?;
    let head = &head[..count];
    Ok(Front {
        closed: closed_by(head),
        slot: stated_by(size, head),
    })
}

/// The chosen one of the slots in A and in B.
pub fn chosen_of(a: Option<Stated>, b: Option<Stated>) -> Option<(Place, Stated)>
    ensures { result ≡ chosen_stated a b }
{
    match (a, b) {
        (None, None) => None,
        (Some(a), None) => Some((Place::A, a)),
        (None, Some(b)) => Some((Place::B, b)),
        (Some(a), Some(b)) => Some(if a.number < b.number {
            (Place::B, b)
        } else {
            (Place::A, a)
        }),
    }
}
