//! Moments.

/// The last moment that is read or printed: the last second of the year 9999, in seconds since 1970-01-01
/// 00:00:00 UTC.
pub const LAST_MOMENT: u64 = 253_402_300_799;

/// The seconds of a day of UTC, in which leap seconds do not count.
pub const SECONDS_PER_DAY: u64 = 86_400;
