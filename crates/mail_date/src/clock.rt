//! The time of a day.
ghost use Rattle.std.specs.Prelude.{◌≡◌, ◌<◌, IfSome};
ghost use Rattle.mail_date.specs.Clock.{second_at, second_of_day};

use crate::digits::number_to;
use kit::split_once;

/// The second of the day, from 0 to 86,399.
fn second_at(hour: &[u8], minute: &[u8], second: &[u8]) -> Option<u64>
    ensures value { result ≡ second_at hour.now minute.now second.now }
    ensures bound { IfSome result (λ second. second < 86400) }
{
    let hour = number_to(23, hour)?;
    let minute = number_to(59, minute)?;
    let second = number_to(60, second)?;
    Some(3600 * hour + 60 * minute + second.min(59))
}

/// The second of the day that a word of the form h:m:s or h:m names.
pub fn second_of_day(clock: &[u8]) -> Option<u64>
    ensures value { result ≡ second_of_day clock.now }
    ensures bound { IfSome result (λ second. second < 86400) }
{
    let (hour, rest) = split_once(clock, b':')?;
    let (minute, second) = split_once(rest, b':').unwrap_or((rest, b"0"));
    second_at(hour, minute, second)
}
