//! Days as numbers.
ghost use Rattle.std.specs.Prelude.{◌≡◌, ◌<◌, ◌≤◌, IfSome};
ghost use Rattle.jiff_core.specs.Calendar.{IsEpochDay};
ghost use Rattle.mail_date.specs.Days.{day_number, day_of, natural, short_year, year_of};

use crate::names::{MONTHS, index_in};
use jiff_core::civil::Date;
use kit::number;

/// The number of a day of a year up to 9999 and of a month from 1 to 12: 0 is 1970-01-01, and the days
/// before it are negative. `None` where the month does not have that day. Takes no memory.
pub fn day_number(year: u64, month: u64, day: u64) -> Option<i32>
    requires year { year < 10000 }
    requires first_month { 1 ≤ month }
    requires last_month { month ≤ 12 }
    requires day { day < 100 }
    ensures value { result ≡ day_number year month day }
    ensures bound { IfSome result IsEpochDay }
{
    match Date::new(year as i16, month as i8, day as i8) {
        Ok(date) => Some(date.to_unix_epoch_day()),
        Err(_) => None,
    }
}

/// The number, or `None` where it is negative. Takes no memory.
pub fn natural(number: i64) -> Option<u64>
    ensures { result ≡ natural number }
{
    u64::try_from(number).ok()
}

/// The year that 2 or 3 digits mean: it is counted from 1900, or from 2000 where they are 2 digits
/// below 50 (RFC 5322, section 4.3).
fn short_year(word: &[u8]) -> Option<u64>
    ensures value { result ≡ short_year word.now }
    ensures bound { IfSome result (λ year. year < 10000) }
{
    let year = number(2, 3, word)?;
    if word.len() == 2 && year < 50 {
        return Some(2000 + year);
    }
    Some(1900 + year)
}

/// The year that 2 to 4 digits mean.
fn year_of(word: &[u8]) -> Option<u64>
    ensures value { result ≡ year_of word.now }
    ensures bound { IfSome result (λ year. year < 10000) }
{
    number(4, 4, word).or_else(|| short_year(word))
}

/// The number of the day that these words name.
pub fn day_of(day: &[u8], month: &[u8], year: &[u8]) -> Option<i32>
    ensures value { result ≡ day_of day.now month.now year.now }
    ensures bound { IfSome result IsEpochDay }
{
    let day = number(1, 2, day)?;
    let month = index_in(&MONTHS, month)?;
    let year = year_of(year)?;
    day_number(year, month as u64 + 1, day)
}
