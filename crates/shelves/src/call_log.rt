//! A record of the calls of a device, and which of them are to fail.
ghost use Rattle.std.specs.Prelude.{◌≡◌, ◌↔◌, [], IsTrue, IfOk};
ghost use Rattle.outside.specs.Schedule.{unstarted};
ghost use Rattle.shelves.specs.Calls.{recorded, RefusesNext};

use crate::call::ShelfCall;
use outside::FailPlan;
use std::alloc::{AllocError, Global};
use std::marker::Model;

// The calls so far, as many as there is room for, and the numbers of those that are to fail: these, and all from the
// stop on.
#[derive(Drop)]
pub struct CallLog {
    calls: Vec<ShelfCall>,
    room: usize,
    plan: FailPlan,
    stop: Option<u64>,
}

impl Model for CallLog {
    ghost use Rattle.std.specs.Prelude.{◌≤◌, vec_len, vec_capacity};
    ghost use Rattle.shelves.specs.Calls.{Calls};

    ghost Value = { Calls };

    ghost view = { λ log. record {
      calls = log.calls.items;
      room = log.room;
      schedule = log.plan;
      stop = log.stop;
    } };

    ghost invariant = { λ log. (vec_len log.calls ≤ log.room) × (log.room ≤ vec_capacity log.calls) };
}

impl CallLog {
    pub fn new(
        alloc: Global,
        room: usize,
        fails: Vec<u64>,
        stop: Option<u64>,
    ) -> Result<CallLog, AllocError>
        ensures { IfOk result (λ log. log ≡ record {
          calls = [];
          room = room;
          schedule = unstarted fails.items;
          stop = stop;
        }) }
    {
        let calls = Vec::with_capacity(alloc, room)?;
        Ok(CallLog {
            calls,
            room,
            plan: FailPlan::new(fails),
            stop,
        })
    }

    // The calls so far, as many as there is room for.
    pub fn calls(&self) -> &[ShelfCall]
        ensures { result.now ≡ self.now.calls }
    {
        &self.calls
    }

    // Records a call where there is room, and says whether it is refused.
    pub fn refuses(&mut self, call: ShelfCall) -> bool
        ensures answer { IsTrue result ↔ RefusesNext self.old }
        ensures counted { self.new ≡ recorded call self.old }
    {
        let fails = self.plan.next_fails();
        let stopped = match self.stop {
            Some(stop) => stop <= self.plan.count(),
            None => false,
        };
        if self.calls.len() == self.room {
            return true;
        }
        match self.calls.push(call) {
            Ok(()) => {}
            Err(_) => unreachable!(),
        }
        fails || stopped
    }
}
