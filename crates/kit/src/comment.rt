//! Quoted-pairs and comments in the body of a field.
ghost use Rattle.std.specs.Prelude.{◌≡◌, ◌<◌, ◌^◌};
ghost use Rattle.kit.specs.Comments.{begins_quoted_pair, depth_after};

/// Whether the next byte is the second of a quoted-pair (RFC 5322, section 3.2.1): after a backslash it is, unless
/// `escaped` says that the backslash is itself the second of one. Takes no memory.
pub fn begins_quoted_pair(escaped: bool, byte: u8) -> bool
    ensures { result ≡ begins_quoted_pair escaped byte }
{
    !escaped && byte == b'\\'
}

/// How many comments are open after a byte, if `depth` are open before it (RFC 5322, section 3.2.2). `escaped` says
/// whether the byte is the second of a quoted-pair, which neither opens nor closes one. Takes no memory.
pub fn depth_after(depth: usize, escaped: bool, byte: u8) -> usize
    // No body has so many bytes.
    requires { depth < 2 ^ 63 }
    ensures { result ≡ depth_after depth escaped byte }
{
    match byte {
        b'(' if !escaped => depth + 1,
        b')' if !escaped => depth.saturating_sub(1),
        _ => depth,
    }
}
