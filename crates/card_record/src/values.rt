//! The lists of a record, read.
ghost use Rattle.std.specs.Prelude.{◌≡◌, List, ℕ, []};
ghost use Rattle.card_type.specs.Effects.{is_among};
ghost use Rattle.card_record.specs.Reading.{Moves, times_of, list_of, new_addr};

use crate::fault::ReadFault;
use crate::field::Field;
use crate::rest::Rest;
use kit::Addr;
use lists::Items;
use std::alloc::Global;

/// Takes so many values.
fn read_times<T: Field + Drop>(
    alloc: Global,
    count: u32,
    rest: &mut Rest<'_>,
) -> Result<Items<T>, ReadFault>
    ensures { Moves (λ xs. xs) result (times_of (λ _. T.at) [] count rest.old) rest.new }
{
    let mut values = Items::new(alloc);
    for _ in 0..count {
        values.push(T::read(alloc, rest)?)?;
    }
    Ok(values)
}

/// Takes values, after their number.
#[tactic(auto, unfolding(crate::specs::Reading::list_of))]
pub fn read_list<T: Field + Drop>(alloc: Global, rest: &mut Rest<'_>) -> Result<Items<T>, ReadFault>
    ensures { Moves (λ xs. xs) result (list_of (λ _. T.at) rest.old) rest.new }
{
    let count = rest.b32()?;
    read_times(alloc, count, rest)
}

/// Whether an address is one of those that are known.
fn is_among(known: &[Addr], addr: &Addr) -> bool
    ensures { result ≡ is_among known.now addr.now }
{
    known.contains(addr)
}

/// Takes an address that is none of those that are known.
#[tactic(auto, unfolding(crate::specs::Reading::new_addr))]
fn read_new_addr(alloc: Global, known: &[Addr], rest: &mut Rest<'_>) -> Result<Addr, ReadFault>
    ensures { Moves (λ x. x) result (new_addr known.now rest.old) rest.new }
{
    let left = rest.len();
    let addr = <Addr as Field>::read(alloc, rest)?;
    if is_among(known, &addr) {
        return Err(ReadFault::Malformed(left));
    }
    Ok(addr)
}

/// Takes so many addresses, of which none is there twice.
fn read_addr_times(alloc: Global, count: u32, rest: &mut Rest<'_>) -> Result<Items<Addr>, ReadFault>
    ensures { Moves (λ xs. xs) result (times_of new_addr [] count rest.old) rest.new }
{
    let mut values = Items::new(alloc);
    for _ in 0..count {
        let addr = read_new_addr(alloc, values.as_slice(), rest)?;
        values.push(addr)?;
    }
    Ok(values)
}

/// Takes addresses of which none is there twice, after their number.
#[tactic(auto, unfolding(crate::specs::Reading::list_of))]
pub fn read_addrs(alloc: Global, rest: &mut Rest<'_>) -> Result<Items<Addr>, ReadFault>
    ensures { Moves (λ xs. xs) result (list_of new_addr rest.old) rest.new }
{
    let count = rest.b32()?;
    read_addr_times(alloc, count, rest)
}
