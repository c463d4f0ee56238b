//! Escapes: `=` and two hexadecimal digits.
ghost use Rattle.std.specs.Prelude.{◌≡◌, ◌++◌, ℕ, List, IfOk, OnOk};
ghost use Rattle.transfer_code.specs.Escapes.{Unescapes, digit_of, escape_in, unescaped};

use kit::Memory;
use std::alloc::Global;

/// The value of a hexadecimal digit of either case.
fn digit_of(b: u8) -> Option<u8>
    ensures { result ≡ digit_of b }
{
    match b {
        b'0'..=b'9' => Some(b - b'0'),
        b'A'..=b'F' => Some(b - b'A' + 10),
        b'a'..=b'f' => Some(b - b'a' + 10),
        _ => None,
    }
}

/// The byte of the escape that the bytes begin with.
fn escape_in(bytes: &[u8]) -> Option<u8>
    ensures { result ≡ escape_in bytes.now }
{
    match bytes {
        [b'=', high, low, ..] => {
            let high = digit_of(*high)?;
            let low = digit_of(*low)?;
            Some(16 * high + low)
        }
        _ => None,
    }
}

/// Adds bytes, each escape as its byte.
pub fn push_unescaped(out: &mut Vec<u8>, bytes: &[u8]) -> Result<(), Memory>
    ensures { OnOk result (out.new.items ≡ out.old.items ++ unescaped bytes.now) }
{
    let mut i = 0;
    while i < bytes.len() {
        if let Some(byte) = escape_in(&bytes[i..]) {
            out.push(byte)?;
            i += 3;
        } else {
            out.push(bytes[i])?;
            i += 1;
        }
    }
    Ok(())
}

/// The bytes, each escape as its byte: `=` and two hexadecimal digits of either case, as in an encoded word (RFC 2047,
/// section 4.2). A `=` that no two such digits follow is itself. Takes memory; `Err` only when it runs out.
pub fn unescaped(alloc: Global, bytes: &[u8]) -> Result<Vec<u8>, Memory>
    ensures value { IfOk result (λ out. out.items ≡ unescaped bytes.now) }
    // The same by cases on the bytes that are left: they decode to these bytes and to no others.
    ensures decodes { IfOk result (λ out. Unescapes bytes.now out.items) }
    ensures alone { IfOk result (λ out. (other : List ℕ) → Unescapes bytes.now other → other ≡ out.items) }
{
    let mut out = Vec::new(alloc);
    push_unescaped(&mut out, bytes)?;
    Ok(out)
}
