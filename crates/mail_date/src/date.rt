//! The moment of a body.
ghost use Rattle.std.specs.Prelude.{◌≡◌, ◌<◌, ◌≤◌, ◌+ℤ◌, ◌-ℤ◌, ◌*ℤ◌, IfSome, pos};
ghost use Rattle.jiff_core.specs.Calendar.{IsEpochDay, IsWithin};
ghost use Rattle.kit.specs.Moments.{last_moment};
ghost use Rattle.mail_date.specs.Moment.{as_moment, moment, next_offset};
ghost use Rattle.mail_date.specs.Words.{words as words_of};

use crate::clock::second_of_day;
use crate::days::{day_of, natural};
use crate::words::Words;
use crate::zones::zone_offset;
use kit::{LAST_MOMENT, SECONDS_PER_DAY};

fn as_moment(seconds: i64) -> Option<u64>
    ensures value { result ≡ as_moment seconds }
    ensures bound { IfSome result (λ moment. moment ≤ last_moment) }
{
    natural(seconds).filter(|moment| *moment <= LAST_MOMENT)
}

/// The seconds since 1970-01-01 00:00:00 UTC at a second of a day, where the clock is ahead of UTC.
fn seconds_at(days: i32, second: u64, ahead: i64) -> i64
    requires days { IsEpochDay days }
    requires second { second < 86400 }
    requires ahead { IsWithin 359940 ahead }
    ensures { result ≡ ((pos 86400 *ℤ days) +ℤ pos second) -ℤ ahead }
{
    SECONDS_PER_DAY as i64 * i64::from(days) + second as i64 - ahead
}

/// By how many seconds the zone that the next word names is ahead of UTC, and 0 where no word is left.
fn next_offset(words: &mut Words) -> i64
    ensures value { result ≡ next_offset (words_of words.old.rest.now) }
    ensures bound { IsWithin 359940 result }
{
    words.next().map_or(0, zone_offset)
}

/// The moment that the body of a Date field names, in seconds since 1970-01-01 00:00:00 UTC (RFC 5322,
/// sections 3.3 and 4.3). `None` exactly where the body is no date, or its moment lies outside the years
/// 1970 to 9999: so the moment is at most 253,402,300,799. The weekday need not be that of the day, and
/// a zone that is missing or unknown counts as UTC. Takes no memory.
#[tactic(auto, unfolding(crate::specs::Moment::moment))]
pub fn moment(body: &[u8]) -> Option<u64>
    ensures value { result ≡ moment body.now }
    ensures bound { IfSome result (λ moment. moment ≤ last_moment) }
{
    let mut words = Words::of(body);
    let day = words.next_but_weekday()?;
    let month = words.next()?;
    let year = words.next()?;
    let clock = words.next()?;
    let days = day_of(day, month, year)?;
    let second = second_of_day(clock)?;
    as_moment(seconds_at(days, second, next_offset(&mut words)))
}
