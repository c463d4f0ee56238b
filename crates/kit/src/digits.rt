//! Numbers in decimal digits.
ghost use Rattle.std.specs.Prelude.{◌≡◌, ◌≤◌, ◌<◌, ◌^◌, IfSome};
ghost use Rattle.kit.specs.Numbers.{number};

/// The number that these digits write, where there are at least `least` of them and at most `most`,
/// leading zeros included. `None` where there are fewer or more, or where another byte is among them.
/// Takes no memory.
#[tactic(auto, using(crate::proofs::DigitLemmas::digit_more, crate::proofs::DigitLemmas::power_le))]
pub fn number(least: usize, most: usize, digits: &[u8]) -> Option<u64>
    // Any number of 19 digits fits.
    requires { most ≤ 19 }
    ensures value { result ≡ number least most digits.now }
    ensures bound { IfSome result (λ n. n < 10 ^ most) }
{
    if digits.len() < least || digits.len() > most {
        return None;
    }
    let mut number = 0;
    for digit in digits {
        if !digit.is_ascii_digit() {
            return None;
        }
        number = 10 * number + u64::from(digit - b'0');
    }
    Some(number)
}
