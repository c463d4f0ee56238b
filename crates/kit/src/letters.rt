//! The case of ASCII letters.
ghost use Rattle.std.specs.Prelude.{◌≡◌};
ghost use Rattle.kit.specs.Letters.{lowered, same_name};

/// Makes each ASCII capital letter its small one, in place; every other byte stays. Takes no memory.
pub fn lower(bytes: &mut [u8])
    ensures { bytes.new ≡ lowered bytes.old }
{
    bytes.make_ascii_lowercase();
}

/// Whether two names are alike but for the case of ASCII letters, as the names of header fields and
/// of media types are compared (RFC 5234, section 2.3; RFC 2045, section 5.1). Takes no memory.
pub fn same_name(a: &[u8], b: &[u8]) -> bool
    ensures { result ≡ same_name a.now b.now }
{
    a.eq_ignore_ascii_case(b)
}
