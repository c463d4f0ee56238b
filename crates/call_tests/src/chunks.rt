//! Values that come and go anywhere in a list of chunks.
use crate::asserts::{assert_row, assert_same};
use lists::{ChunkedList, Items};
use std::alloc::Global;
use std::process::Abort;
use std::test::Fail;

/// More values than three chunks hold.
const MANY: u32 = 1_000;

/// Of the even numbers below twice as many, a number, the index where it is, if it is there, and else where it belongs.
const SOUGHT: [(u32, bool, usize); 7] = [
    (0, true, 0),
    (1, false, 1),
    (510, true, 255),
    (511, false, 256),
    (512, true, 256),
    (1_998, true, 999),
    (1_999, false, 1_000),
];

/// An index that jumps about below a bound.
fn jumping(number: u32, bound: u32) -> usize {
    (number.wrapping_mul(7_919) % bound.max(1)) as usize
}

/// Whether both have the same values.
fn same_values(list: &ChunkedList<u32>, values: &[u32]) -> bool {
    if list.len() != values.len() {
        return false;
    }
    let mut index = 0;
    for value in values {
        if list.get(index) != Some(value) {
            return false;
        }
        index = index.wrapping_add(1);
    }
    true
}

/// Puts many values in at jumping indexes, and after the last one at times.
fn put_many(list: &mut ChunkedList<u32>, values: &mut Items<u32>) -> Result<(), Fail> {
    for number in 0..MANY {
        let index = jumping(number, number.saturating_add(3));
        list.insert(index, number)?;
        values.insert(index, number)?;
    }
    Ok(())
}

/// Takes all but a hundred of them out again, and replaces some.
fn change_most(list: &mut ChunkedList<u32>, values: &mut Items<u32>) {
    for number in 0..MANY - 100 {
        let index = jumping(number, MANY.saturating_sub(number));
        list.set(index, number);
        values.set(index, number);
        list.remove(index / 2);
        values.remove(index / 2);
    }
}

/// A list is the same as plain values on which the same is done. Past its end nothing is removed or set.
fn is_as_plain_values<R: Abort>(
    rt: &R,
    list: &mut ChunkedList<u32>,
    values: &mut Items<u32>,
) -> Result<(), Fail> {
    put_many(list, values)?;
    assert!(rt; same_values(list, values.as_slice()));
    assert!(rt; list.chunks().len() > 3);
    change_most(list, values);
    assert!(rt; same_values(list, values.as_slice()));
    assert_same(rt, list.len(), 100);
    list.remove(100);
    list.set(100, 0);
    assert!(rt; same_values(list, values.as_slice()));
    Ok(())
}

fn even_numbers(alloc: Global) -> Result<ChunkedList<u32>, Fail> {
    let mut list = ChunkedList::new(alloc);
    for number in 0..MANY {
        list.push(number.wrapping_mul(2))?;
    }
    Ok(list)
}

/// A search finds a value or its place.
fn finds_each<R: Abort>(rt: &R, list: &ChunkedList<u32>) {
    for &(value, is_there, index) in &SOUGHT {
        let found = list.binary_search(&value);
        let expected = if is_there { Ok(index) } else { Err(index) };
        assert_row(rt, value, found == expected, true);
    }
}

#[test]
fn values_come_and_go_anywhere(rt: HostRuntime) -> Result<(), Fail> {
    let alloc = rt.alloc();
    let mut list = ChunkedList::new(alloc);
    let mut values = Items::new(alloc);
    is_as_plain_values(&rt, &mut list, &mut values)?;
    finds_each(&rt, &even_numbers(alloc)?);
    Ok(())
}
