//! Which calls of a source or a sink in memory fail, and how many calls and faults there were.
//! It moves no bytes, and it knows no other cause of a fault than its list.

ghost use Rattle.std.specs.Prelude.{◌≡◌, ◌≤◌, ◌↔◌, IsErr, OnOk, OnErr};
ghost use Rattle.tv_outside.specs.Schedule.{first_schedule, after_call, after_fault, IsDue};

use crate::Failed;
use std::marker::Model;

#[derive(Drop)]
pub(crate) struct Schedule {
    fails: Vec<u64>,
    calls: u64,
    faults: u64,
}

impl Model for Schedule {
    ghost use Rattle.tv_outside.specs.Schedule.{Schedule};

    ghost Value = { Schedule };

    ghost view = { λ s. record { fails = s.fails.items; calls = s.calls; faults = s.faults } };
}

impl Schedule {
    pub(crate) fn new(fails: Vec<u64>) -> Schedule
        ensures { result ≡ first_schedule fails.items }
    {
        Schedule {
            fails,
            calls: 0,
            faults: 0,
        }
    }

    pub(crate) fn faults(&self) -> u64
        ensures { result ≡ self.now.faults }
    {
        self.faults
    }

    pub(crate) fn count_call(&mut self) -> Result<(), Failed>
        ensures failed { IsErr result ↔ IsDue self.old }
        ensures ok { OnOk result (self.new ≡ after_call self.old) }
        ensures err { OnErr result (self.new ≡ after_fault (after_call self.old)) }
        ensures later { self.old.faults ≤ self.new.faults }
    {
        let call = self.calls;
        self.calls = call.saturating_add(1);
        if call == u64::MAX {
            return Ok(());
        }
        if self.fails.contains(&call) {
            self.count_fault();
            return Err(Failed);
        }
        Ok(())
    }

    pub(crate) fn count_fault(&mut self)
        ensures counted { self.new ≡ after_fault self.old }
        ensures later { self.old.faults ≤ self.new.faults }
    {
        self.faults = self.faults.saturating_add(1);
    }
}
