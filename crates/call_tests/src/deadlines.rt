//! Deadlines: which of them is taken out at which moment.
use crate::asserts::assert_row;
use Step::{Due, Leave, Put};
use std::alloc::Global;
use std::test::Fail;
use timers::Timers;

/// What is done to deadlines.
#[derive(Clone, Copy)]
enum Step {
    /// The deadline of a mail is put.
    Put(u32, u64),
    /// It is dropped.
    Leave(u32),
    /// At a moment this mail is taken out, if any.
    Due(u64, Option<u32>),
}

/// What is done one after the other, from no deadlines on.
const STEPS: [&[Step]; 4] = [
    // Of equal moments that of the least number comes first.
    &[
        Put(3, 60),
        Put(1, 61),
        Put(2, 60),
        Due(0, None),
        Due(59, None),
        Due(60, Some(2)),
        Due(60, Some(3)),
        Due(60, None),
        Due(u64::MAX, Some(1)),
        Due(u64::MAX, None),
    ],
    // The last deadline of a mail counts.
    &[
        Put(1, 60),
        Put(2, 80),
        Put(1, 90),
        Put(2, 70),
        Put(2, 70),
        Due(69, None),
        Due(70, Some(2)),
        Due(89, None),
        Due(90, Some(1)),
        Due(90, None),
    ],
    // One is dropped twice, and one that was never put.
    &[
        Put(1, 60),
        Put(2, 60),
        Leave(1),
        Leave(1),
        Leave(3),
        Due(60, Some(2)),
        Due(60, None),
    ],
    // One is put again after it was taken out, and after it was dropped.
    &[
        Put(1, 60),
        Due(60, Some(1)),
        Put(1, 61),
        Leave(1),
        Put(1, 62),
        Due(61, None),
        Due(62, Some(1)),
        Due(62, None),
    ],
];

/// Whether what a step takes out is what it says.
fn is_taken(timers: &mut Timers, step: Step) -> Result<bool, Fail> {
    match step {
        Put(uid, expiry) => timers.put(uid, expiry)?,
        Leave(uid) => timers.drop_of(uid),
        Due(now, uid) => return Ok(timers.due(now) == uid),
    }
    Ok(true)
}

/// Whether each of the steps takes out what it says.
fn are_taken(timers: &mut Timers, steps: &[Step]) -> Result<bool, Fail> {
    for step in steps {
        if !is_taken(timers, *step)? {
            return Ok(false);
        }
    }
    Ok(true)
}

#[test]
fn deadlines_come_in_their_order(rt: HostRuntime) -> Result<(), Fail> {
    for (row, steps) in STEPS.iter().enumerate() {
        let mut timers = Timers::new(rt.alloc());
        assert_row(&rt, row, are_taken(&mut timers, steps)?, true);
    }
    Ok(())
}
