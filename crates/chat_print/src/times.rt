//! The printed time of a moment.
ghost use Rattle.std.specs.Prelude.{◌≡◌, ◌++◌, ◌*◌, ◌<◌, ◌≤◌, OnOk, pos, string_bytes};
ghost use Rattle.jiff_core.specs.Date.{epoch_day, IsYmd};
ghost use Rattle.kit.specs.Moments.{last_moment};
ghost use Rattle.mailbox_model.specs.Times.{civil_date, date_text, clock_text, four_digits, time_text, two_digits};

use jiff_core::civil::Date;
use kit::{Memory, SECONDS_PER_DAY};

/// Appends a moment, in seconds since 1970-01-01 00:00:00 UTC and of a year up to 9999, in the form
/// `YYYY-MM-DD HH:MM` in UTC, without its seconds. Takes memory where the text has no room for 16 more
/// bytes; `Err` only when it runs out: some of the bytes may then have been appended.
pub fn push_time(text: &mut String, moment: u64) -> Result<(), Memory>
    requires { moment ≤ last_moment }
    ensures ok { OnOk result (string_bytes text.new ≡ string_bytes text.old ++ time_text moment) }
{
    push_date(text, moment / SECONDS_PER_DAY)?;
    text.push(' ')?;
    push_clock(text, moment % SECONDS_PER_DAY)
}

fn push_date(text: &mut String, days: u64) -> Result<(), Memory>
    requires { days * 86400 ≤ last_moment }
    ensures { OnOk result (string_bytes text.new
        ≡ string_bytes text.old ++ date_text (civil_date days)) }
{
    let date = date_after(days);
    push_four(text, u64::from(date.year.unsigned_abs()))?;
    text.push('-')?;
    push_two(text, u64::from(date.month))?;
    text.push('-')?;
    push_two(text, u64::from(date.day))
}

// The date so many days after 1970-01-01.
fn date_after(days: u64) -> Date
    requires { days * 86400 ≤ last_moment }
    ensures number { epoch_day result ≡ pos days }
    ensures parts { let date = civil_date days in
        IsYmd (pos date.year) (pos date.month) (pos date.day) result }
{
    Date::from_unix_epoch_day(days as i64).unwrap()
}

fn push_clock(text: &mut String, second: u64) -> Result<(), Memory>
    requires { second < 86400 }
    ensures { OnOk result (string_bytes text.new ≡ string_bytes text.old ++ clock_text second) }
{
    push_two(text, second / 3600)?;
    text.push(':')?;
    push_two(text, second % 3600 / 60)
}

fn push_four(text: &mut String, number: u64) -> Result<(), Memory>
    requires { number < 10000 }
    ensures { OnOk result (string_bytes text.new ≡ string_bytes text.old ++ four_digits number) }
{
    push_two(text, number / 100)?;
    push_two(text, number % 100)
}

fn push_two(text: &mut String, number: u64) -> Result<(), Memory>
    requires { number < 100 }
    ensures { OnOk result (string_bytes text.new ≡ string_bytes text.old ++ two_digits number) }
{
    text.push(char::from(b'0' + (number / 10) as u8))?;
    text.push(char::from(b'0' + (number % 10) as u8))?;
    Ok(())
}
