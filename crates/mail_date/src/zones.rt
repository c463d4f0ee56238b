//! Zones, by the seconds that they are ahead of UTC.
ghost use Rattle.std.specs.Prelude.{◌≡◌, ◌≤◌, IfSome};
ghost use Rattle.jiff_core.specs.Calendar.{IsWithin};
ghost use Rattle.mail_date.specs.Zones.{hours_and_minutes, offset, seconds_behind, zone_hours, zone_offset};

use kit::{number, same_name};

/// The zones of North America, and by how many hours each is behind UTC (RFC 5322, section 4.3).
const ZONES: [([u8; 3], u64); 8] = [
    (*b"EDT", 4),
    (*b"EST", 5),
    (*b"CDT", 5),
    (*b"CST", 6),
    (*b"MDT", 6),
    (*b"MST", 7),
    (*b"PDT", 7),
    (*b"PST", 8),
];

fn zone_hours(name: &[u8]) -> Option<u64>
    ensures value { result ≡ zone_hours name.now }
    ensures bound { IfSome result (λ hours. hours ≤ 8) }
{
    let (_, hours) = ZONES.iter().find(|(zone, _)| same_name(name, zone))?;
    Some(*hours)
}

/// By how many seconds the zone of a name is behind UTC: 0 for a name that is not in the table.
fn seconds_behind(name: &[u8]) -> u64
    ensures value { result ≡ seconds_behind name.now }
    ensures bound { result ≤ 28800 }
{
    3600 * zone_hours(name).unwrap_or(0)
}

/// The seconds of hhmm.
fn hours_and_minutes(digits: &[u8]) -> Option<u64>
    ensures value { result ≡ hours_and_minutes digits.now }
    ensures bound { IfSome result (λ seconds. seconds ≤ 359940) }
{
    let number = number(4, 4, digits)?;
    let (hours, minutes) = (number / 100, number % 100);
    if minutes > 59 {
        return None;
    }
    Some(3600 * hours + 60 * minutes)
}

/// The same, and 0 where the form is broken.
fn offset(digits: &[u8]) -> u64
    ensures value { result ≡ offset digits.now }
    ensures bound { result ≤ 359940 }
{
    hours_and_minutes(digits).unwrap_or(0)
}

/// By how many seconds the zone that a word names is ahead of UTC: 0 for a word that names none.
pub fn zone_offset(word: &[u8]) -> i64
    ensures value { result ≡ zone_offset word.now }
    ensures bound { IsWithin 359940 result }
{
    if let Some(digits) = word.strip_prefix(b"+") {
        return offset(digits) as i64;
    }
    if let Some(digits) = word.strip_prefix(b"-") {
        return -(offset(digits) as i64);
    }
    -(seconds_behind(word) as i64)
}
