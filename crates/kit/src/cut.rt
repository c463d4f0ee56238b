//! Cutting bytes in two.
ghost use Rattle.std.specs.Prelude.{◌≡◌, ◌≢◌, ◌++◌, ◌==◌, ◌<◌, ℕ, List, IfNone, IfSome, length, option_map, position};
ghost use Rattle.std.specs.List.{before_first};
ghost use Rattle.std.specs.Option.{option_copied};
ghost use Rattle.kit.specs.Cuts.{split_once, strip_prefix};

fn position_of(bytes: &[u8], wanted: u8) -> Option<usize>
    ensures value { result ≡ position (λ b. b == wanted) bytes.now }
    ensures bound { IfSome result (λ at. at < length bytes.now) }
{
    bytes.iter().position(|b| *b == wanted)
}

/// What precedes the first byte that is the one wanted, and what follows it: `None` exactly where no byte
/// is. Takes no memory.
pub fn split_once(bytes: &[u8], wanted: u8) -> Option<(&[u8], &[u8])>
    ensures parts { option_map (λ p. (p.0.now, p.1.now)) result ≡ split_once bytes.now wanted }
    ensures shorter { IfSome result (λ p. length p.1.now < length bytes.now) }
{
    let at = position_of(bytes, wanted)?;
    Some((&bytes[..at], &bytes[at + 1..]))
}

/// What precedes the first byte that is the one wanted, or all bytes where none is. Takes no memory.
pub fn before_first(bytes: &[u8], wanted: u8) -> &[u8]
    ensures { result.now ≡ before_first (λ b. b == wanted) bytes.now }
{
    match position_of(bytes, wanted) {
        Some(at) => &bytes[..at],
        None => bytes,
    }
}

/// What follows a prefix: `None` exactly where the bytes do not begin with it. The slice's own
/// `strip_prefix`, with the clauses that readers of a prefix want. Takes no memory.
pub fn strip_prefix<'a>(bytes: &'a [u8], prefix: &[u8]) -> Option<&'a [u8]>
    ensures value { option_copied result ≡ strip_prefix bytes.now prefix.now }
    ensures some { IfSome result (λ rest. bytes.now ≡ prefix.now ++ rest.now) }
    ensures none { IfNone result ((rest : List ℕ) → bytes.now ≢ prefix.now ++ rest) }
{
    bytes.strip_prefix(prefix)
}
