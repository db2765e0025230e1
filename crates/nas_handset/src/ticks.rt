//! The timers that are due at a moment.
ghost use Rattle.std.specs.Prelude.{◌≡◌, IfOk, OnOk};
ghost use Rattle.nas_handset.specs.Ticks.{all_fired, due_list, fired, is_due};

use crate::turn::Turn;
use nas_base::{Memory, Moment};
use nas_timers::{NAMES, TimerId, Timers};
use std::alloc::Global;
use ue_mm::UeInput;

/// The timers that are due at a moment, by deadline and then by name.
#[tactic(auto, using(crate::proofs::Due::due_found, crate::proofs::Due::due_ended, crate::proofs::Due::due_all))]
pub fn due_list(alloc: Global, now: Moment, timers: &Timers) -> Result<Vec<TimerId>, Memory>
    ensures { IfOk result (λ list. list.items ≡ due_list now timers.now) }
{
    let mut left = timers.copy();
    let mut list = Vec::new(alloc);
    for _ in 0..NAMES {
        let Some(id) = left.due(now) else {
            break;
        };
        left.stop(same(&id));
        if list.push(id).is_err() {
            return Err(Memory);
        }
    }
    Ok(list)
}

impl Turn {
    /// Timers that were due, one after the other.
    pub fn fire_all(&mut self, alloc: Global, list: Vec<TimerId>) -> Result<(), Memory>
        ensures { OnOk result (self.new ≡ all_fired list.items self.old) }
    {
        for id in list {
            self.fire(alloc, id)?;
        }
        Ok(())
    }

    // A timer that was due when the tick began.
    #[tactic(auto, unfolding(crate::specs::Ticks::fired, nas_base::specs::Branches::chosen))]
    fn fire(&mut self, alloc: Global, id: TimerId) -> Result<(), Memory>
        ensures { OnOk result (self.new ≡ fired id self.old) }
    {
        if !self.is_due(&id) {
            return Ok(());
        }
        self.timers.stop(same(&id));
        self.step(alloc, UeInput::Expired(id))
    }

    // Whether the deadline of a timer is still there and has come.
    #[tactic(auto, unfolding(nas_base::specs::Branches::per))]
    fn is_due(&self, id: &TimerId) -> bool
        ensures { result ≡ is_due id.now self.now.handset }
    {
        match self.timers.deadline(*id) {
            Some(at) => at <= self.moment,
            None => false,
        }
    }
}

// The same name once more.
fn same(id: &TimerId) -> TimerId
    ensures { result ≡ id.now }
{
    *id
}
