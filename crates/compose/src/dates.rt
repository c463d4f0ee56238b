//! The field Date.
ghost use Rattle.std.specs.Prelude.{◌≡◌, ◌<◌, ◌≤◌, ◌*◌, ◌/◌, ◌-◌, ◌++◌, ◌∷◌, [], OnOk, codes, pos};
ghost use Rattle.jiff_core.specs.declared.civil.date.Date.{Date as CivilDate};
ghost use Rattle.jiff_core.specs.Date.{epoch_day, IsYmd};
ghost use Rattle.kit.specs.Moments.{last_moment};
ghost use Rattle.mail_date.specs.Names.{months, weekdays};
ghost use Rattle.mailbox_model.specs.Times.{civil_date, four_digits, two_digits};
ghost use Rattle.compose.specs.Dates.{clock_text, date_text, name_at, weekday_text};
ghost use Rattle.compose.specs.Fields.{ended, field_lines};

use jiff_core::civil::Date;
use kit::{Memory, SECONDS_PER_DAY};

const WEEKDAYS: [[u8; 3]; 7] = [
    *b"Mon", *b"Tue", *b"Wed", *b"Thu", *b"Fri", *b"Sat", *b"Sun",
];

const MONTHS: [[u8; 3]; 12] = [
    *b"Jan", *b"Feb", *b"Mar", *b"Apr", *b"May", *b"Jun", *b"Jul", *b"Aug", *b"Sep", *b"Oct",
    *b"Nov", *b"Dec",
];

fn push_two(out: &mut Vec<u8>, number: u64) -> Result<(), Memory>
    requires { number < 100 }
    ensures { OnOk result (out.new.items ≡ out.old.items ++ two_digits number) }
{
    out.push(b'0' + (number / 10) as u8)?;
    out.push(b'0' + (number % 10) as u8)?;
    Ok(())
}

fn push_four(out: &mut Vec<u8>, number: u64) -> Result<(), Memory>
    requires { number < 10000 }
    ensures { OnOk result (out.new.items ≡ out.old.items ++ four_digits number) }
{
    push_two(out, number / 100)?;
    push_two(out, number % 100)
}

fn push_clock(out: &mut Vec<u8>, second: u64) -> Result<(), Memory>
    requires { second < 86400 }
    ensures { OnOk result (out.new.items ≡ out.old.items ++ clock_text second) }
{
    push_two(out, second / 3600)?;
    out.push(b':')?;
    push_two(out, second % 3600 / 60)?;
    out.push(b':')?;
    push_two(out, second % 60)
}

fn push_weekday(out: &mut Vec<u8>, index: usize) -> Result<(), Memory>
    requires { index < 7 }
    ensures { OnOk result (out.new.items ≡ out.old.items ++ name_at weekdays index) }
{
    out.extend_from_slice(&WEEKDAYS[index])?;
    Ok(())
}

fn push_month(out: &mut Vec<u8>, index: usize) -> Result<(), Memory>
    requires { index < 12 }
    ensures { OnOk result (out.new.items ≡ out.old.items ++ name_at months index) }
{
    out.extend_from_slice(&MONTHS[index])?;
    Ok(())
}

// The date so many days after 1970-01-01.
fn date_after(days: u64) -> Date
    requires { days * 86400 ≤ last_moment }
    ensures number { epoch_day result ≡ pos days }
    ensures parts { let date = civil_date days in
        IsYmd (pos date.year) (pos date.month) (pos date.day) result }
{
    Date::from_unix_epoch_day(days as i64).unwrap()
}

/// A moment is in a day of the calendar.
pub fn is_in_a_day(moment: u64)
    requires { moment ≤ last_moment }
    ensures { (day : CivilDate) × (epoch_day day ≡ pos (moment / 86400)) }
{
    let _day = date_after(moment / SECONDS_PER_DAY);
}

// `DD Mon YYYY`
fn push_day(out: &mut Vec<u8>, days: u64) -> Result<(), Memory>
    requires { days * 86400 ≤ last_moment }
    ensures { let date = civil_date days in
        OnOk result (out.new.items ≡ out.old.items ++ (two_digits date.day ++ (32 ∷ (name_at months (date.month - 1) ++ (32 ∷ four_digits date.year))))) }
{
    let date = date_after(days);
    push_two(out, u64::from(date.day))?;
    out.push(b' ')?;
    push_month(out, usize::from(date.month) - 1)?;
    out.push(b' ')?;
    push_four(out, u64::from(date.year.unsigned_abs()))
}

/// Appends the field Date.
pub fn push_date(out: &mut Vec<u8>, moment: u64) -> Result<(), Memory>
    requires { moment ≤ last_moment }
    ensures { OnOk result (out.new.items ≡ out.old.items ++ ended (field_lines (codes "Date") (date_text moment ∷ []))) }
{
    out.extend_from_slice(b"Date: ")?;
    push_weekday(out, ((moment / SECONDS_PER_DAY + 3) % 7) as usize)?;
    out.extend_from_slice(b", ")?;
    push_day(out, moment / SECONDS_PER_DAY)?;
    out.push(b' ')?;
    push_clock(out, moment % SECONDS_PER_DAY)?;
    out.extend_from_slice(b" +0000\n")?;
    Ok(())
}
