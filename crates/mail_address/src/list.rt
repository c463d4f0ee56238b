//! The people of a list.
ghost use Rattle.std.specs.Prelude.{◌≡◌, ◌++◌, List, [], IfOk, IsTrue, OnOk, flat_map};
ghost use Rattle.std.specs.List.{cons_option, list_all};
ghost use Rattle.mail_address.specs.Written.{Address, is_address, named_people, written};
ghost use Rattle.mail_address.specs.People.{people};

use crate::element::Element;
use crate::person::Person;
use crate::token::next_token;
use kit::Memory;
use std::alloc::Global;

fn push_person(found: &mut Vec<Person>, person: Option<Person>) -> Result<(), Memory>
    ensures { OnOk result (found.new.items ≡ found.old.items ++ cons_option person []) }
{
    if let Some(person) = person {
        found.push(person)?;
    }
    Ok(())
}

/// The people that the body of a field names, as From, To or Cc, in their order (RFC 5322, sections 3.4 and 4.4). Any
/// bytes are a body. Takes memory; `Err` only when it runs out.
///
/// A body is a list of elements that end at `,` and `;`, in groups and outside of them. A `:` drops what its element had
/// so far: the name of a group. An element with an angle names a person by the address in its first angle, where a `:`
/// ends a route, and by the words before it, joined by one space and read as encoded words. An element without one is an
/// address alone, and the name is empty. An address has white space and comments only beside a `.` or an `@`, and no
/// quoted string. An element without an address is nobody, and a person that is named twice is given twice.
///
/// Of a list of mailboxes and groups as it is written, with `, ` between each two, the people are exactly the mailboxes
/// and the members of the groups.
pub fn people(alloc: Global, body: &[u8]) -> Result<Vec<Person>, Memory>
    ensures value { IfOk result (λ found. found.items ≡ people body.now) }
    ensures written { (addresses : List Address) → IsTrue (list_all is_address addresses) → body.now ≡ written addresses
        → IfOk result (λ found. found.items ≡ flat_map named_people addresses) }
{
    let mut found = Vec::new(alloc);
    let mut element = Element::new(alloc);
    let mut left = body;
    while let Some((token, rest)) = next_token(left) {
        push_person(&mut found, element.ended(alloc, &token)?)?;
        element.take(&token)?;
        left = rest;
    }
    push_person(&mut found, element.person(alloc)?)?;
    Ok(found)
}
