//! Offsets in bytes, for what is known by the number of bytes that were left.
ghost use Rattle.std.specs.Prelude.{◌≡◌, ◌≤◌, drop, length};
ghost use Rattle.state_image.specs.Changes.{fault_in};

use crate::fault::ImageFault;
use card_record::{ReadFault, Rest};

/// The bytes from an offset on.
pub fn rest_from(bytes: &[u8], offset: usize) -> Rest<'_>
    requires { offset ≤ length bytes.now }
    ensures { result ≡ drop offset bytes.now }
{
    Rest::new(&bytes[offset..])
}

/// A fault, told by its offset in so many bytes.
pub fn fault_in(size: usize, fault: ReadFault) -> ImageFault
    ensures { result ≡ fault_in size fault }
{
    match fault {
        ReadFault::Malformed(left) => ImageFault::Malformed(size.saturating_sub(left)),
        ReadFault::Memory => ImageFault::Memory,
    }
}
