//! White space inside a line.
ghost use Rattle.std.specs.Prelude.{◌≡◌};
ghost use Rattle.kit.specs.White.{is_blank, is_white, trim, trim_end, trim_start};

/// Whether a byte is a space or a tab (RFC 5234, appendix B.1). Takes no memory.
pub fn is_white(b: u8) -> bool
    ensures { result ≡ is_white b }
{
    b == b' ' || b == b'\t'
}

/// Whether the bytes are all white space, or none. Takes no memory.
pub fn is_blank(bytes: &[u8]) -> bool
    ensures { result ≡ is_blank bytes.now }
{
    bytes.iter().all(|b| is_white(*b))
}

fn trim_start(mut bytes: &[u8]) -> &[u8]
    ensures { result.now ≡ trim_start bytes.now }
{
    while let [b' ' | b'\t', rest @ ..] = bytes {
        bytes = rest;
    }
    bytes
}

/// The bytes without the spaces and tabs at their end. Takes no memory.
pub fn trim_end(mut bytes: &[u8]) -> &[u8]
    ensures { result.now ≡ trim_end bytes.now }
{
    while let [rest @ .., b' ' | b'\t'] = bytes {
        bytes = rest;
    }
    bytes
}

/// The bytes without the spaces and tabs at either end. Takes no memory.
pub fn trim(bytes: &[u8]) -> &[u8]
    ensures { result.now ≡ trim bytes.now }
{
    trim_end(trim_start(bytes))
}
