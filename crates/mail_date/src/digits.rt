//! Numbers in decimal digits, up to a last one.
ghost use Rattle.std.specs.Prelude.{◌≡◌, ◌≤◌, IfSome};
ghost use Rattle.mail_date.specs.Digits.{number_to};

use kit::number;

/// The number that 1 or 2 digits write, if it is no greater than `last`.
pub fn number_to(last: u64, digits: &[u8]) -> Option<u64>
    ensures value { result ≡ number_to last digits.now }
    ensures bound { IfSome result (λ n. n ≤ last) }
{
    number(1, 2, digits).filter(|n| *n <= last)
}
