//! The names of weekdays and months.
ghost use Rattle.std.specs.Prelude.{◌≡◌, ◌<◌, IfSome, length};
ghost use Rattle.mail_date.specs.Names.{index_in};

use kit::same_name;

/// The names of the weekdays, from Monday (RFC 5322, section 3.3).
pub const WEEKDAYS: [[u8; 3]; 7] = [
    *b"Mon", *b"Tue", *b"Wed", *b"Thu", *b"Fri", *b"Sat", *b"Sun",
];

/// The names of the months, from January (RFC 5322, section 3.3).
pub const MONTHS: [[u8; 3]; 12] = [
    *b"Jan", *b"Feb", *b"Mar", *b"Apr", *b"May", *b"Jun", *b"Jul", *b"Aug", *b"Sep", *b"Oct",
    *b"Nov", *b"Dec",
];

/// The index of a name in a table, where ASCII letters of either case are alike. `None` where
/// the table does not have the name. Takes no memory.
pub fn index_in(table: &[[u8; 3]], name: &[u8]) -> Option<usize>
    ensures value { result ≡ index_in table.now name.now }
    ensures bound { IfSome result (λ index. index < length table.now) }
{
    table.iter().position(|word| same_name(name, word))
}
