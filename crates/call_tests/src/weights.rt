//! The weights of cards: the most that one may weigh, and the most that all of an image may together.
use crate::asserts::assert_same;
use state_image::{ImageFault, read_change, read_image};
use std::alloc::Global;
use std::test::Fail;

/// What an image has before its items, which are 257: the name, the own address, the position, the moment, the next uid and
/// the number of items.
const HEAD: &[u8] =
    b"CHATSIM1\0\0\0\x08me@x.org\0\0\0\0\0\0\0\x09\0\0\0\0\0\0\x124\0\0\0\0\0\0\x01\0\0\0\0\0\0\0\0 \0\0\0\0f2.\xc0\0\0\x02\0\0\0\x01\x01";

/// The record of a card in which all but three fields are empty or false, field by field. It weighs 78.
const PLAIN: [&[u8]; 24] = [
    b"\0\0\0\x03n@x",
    b"\0\0\0\x09bob@x.org",
    b"\0\0\0\0",
    b"\0\0\0\0",
    b"\0\0\0\0",
    b"\0",
    b"\0\0\0\0",
    b"\0\0\0\0",
    b"\0",
    b"\0",
    b"\0\0\0\0",
    b"\0",
    b"\0",
    b"\0",
    b"\0",
    b"\0\0\0\0",
    b"\0\0\0\0",
    b"\0\0\0\0",
    b"\0\0\0\0",
    b"\0",
    b"\0\0\0\0",
    b"\0",
    b"\0",
    b"\0\0\0\0",
];

/// The number of the field that is the text of the card.
const TEXT: usize = 17;

/// Appends the record of that card, with a text of so many letters.
fn put_card(out: &mut Vec<u8>, letters: u32) -> Result<(), Fail> {
    for (index, field) in PLAIN.iter().enumerate() {
        if index != TEXT {
            out.extend_from_slice(field)?;
            continue;
        }
        out.extend_from_slice(&letters.to_be_bytes())?;
        for _ in 0..letters {
            out.push(b'a')?;
        }
    }
    Ok(())
}

/// Appends what an item has before its card.
fn put_numbers(out: &mut Vec<u8>, uid: u32) -> Result<(), Fail> {
    out.extend_from_slice(&uid.to_be_bytes())?;
    out.extend_from_slice(b"\0\0\0\0\0\0\0\0\0\0")?;
    Ok(())
}

/// Cards that weigh so much together as they may, and one more.
fn heavy_image(alloc: Global) -> Result<Vec<u8>, Fail> {
    let mut image = Vec::with_capacity(alloc, 268_439_500)?;
    image.extend_from_slice(HEAD)?;
    let mut heavy = Vec::new(alloc);
    put_card(&mut heavy, 1_048_498)?;
    for uid in 1..257u32 {
        put_numbers(&mut image, uid)?;
        image.extend_from_slice(&heavy)?;
    }
    put_numbers(&mut image, 257)?;
    put_card(&mut image, 0)?;
    Ok(image)
}

/// The weight of a card is at most 1,048,576, and one that is heavier is malformed at its own beginning. 256 cards of so
/// much weigh the most that all may. The next one is malformed at its card, after the 68 bytes before the items, 256 times
/// the card with its 14 bytes, and 14 more.
#[test]
fn the_card_that_is_too_heavy_is_named(rt: HostRuntime) -> Result<(), Fail> {
    let alloc = rt.alloc();
    for &(letters, fault) in &[
        (1_048_498, None),
        (1_048_499, Some(ImageFault::Malformed(1))),
    ] {
        let mut change = Vec::new(alloc);
        change.push(1)?;
        put_card(&mut change, letters)?;
        assert_same(&rt, read_change(alloc, &change, 0).err(), fault);
    }
    assert_same(
        &rt,
        read_image(alloc, &heavy_image(alloc)?).err(),
        Some(ImageFault::Malformed(68 + 256 * (14 + 1_048_576) + 14)),
    );
    Ok(())
}
