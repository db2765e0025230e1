//! A handset while it takes its steps.
ghost use Rattle.std.specs.Prelude.{◌≡◌, OnOk};
ghost use Rattle.nas_handset.specs.Turns.{all_taken, begun, sent, taken, turned};

use crate::Handset;
use nas_base::{Memory, Moment, Octets};
use nas_elements::Status;
use nas_security::{Context, Pass, Send, Sends};
use nas_timers::Timers;
use std::alloc::Global;
use std::marker::Model;
use ue_mm::{StepRefusal, UeInput, UeMm, UeOut, UeOuts, follow};

/// A handset while it takes its steps, with what came of them so far: the messages that were sent, the check that was passed, and
/// the context that was taken into use. Within a step the timers don't fit the state; so these are the parts of a handset.
#[derive(Drop)]
pub struct Turn {
    pub mm: UeMm,
    pub timers: Timers,
    pub moment: Moment,
    pub sends: Sends,
    pub passed: Option<Pass>,
    pub took: Option<Context>,
}

impl Model for Turn {
    ghost use Rattle.nas_handset.specs.Turns.{Turn as Parts};
    ghost use Rattle.ue_mm.specs.State.{state_of};

    ghost Value = { Parts };

    ghost view = { λ t. record { handset = record { mm = state_of t.mm; timers = t.timers; moment = t.moment }; sends = t.sends; passed = t.passed; took = t.took } };
}

// A handset sends on link 1.
const LINK: u16 = 1;

impl Turn {
    /// A turn at its start.
    pub fn begin(alloc: Global, handset: Handset) -> Turn
        ensures { result ≡ begun handset }
    {
        Turn {
            mm: handset.mm,
            timers: handset.timers,
            moment: handset.moment,
            sends: Sends::new(alloc),
            passed: None,
            took: None,
        }
    }

    /// The step of an input that no refusal meets.
    #[tactic(auto, unfolding(crate::specs::Turns::turned))]
    pub fn step(&mut self, alloc: Global, input: UeInput) -> Result<(), Memory>
        ensures { OnOk result (self.new ≡ turned input self.old) }
    {
        match follow(alloc, &self.mm, self.moment, &Status::empty(), input) {
            Ok((mm, outs)) => {
                self.mm = mm;
                self.take_all(alloc, outs)
            }
            Err(StepRefusal::Memory) => Err(Memory),
            Err(StepRefusal::WrongState { state: _ }) => Ok(()),
            Err(StepRefusal::Spent { next: _ }) => Ok(()),
        }
    }

    /// What goes out of a step, one after the other.
    pub fn take_all(&mut self, alloc: Global, outs: UeOuts) -> Result<(), Memory>
        ensures { OnOk result (self.new ≡ all_taken outs self.old) }
    {
        for out in outs.items {
            self.take(alloc, out)?;
        }
        Ok(())
    }

    // One thing that goes out of a step.
    fn take(&mut self, alloc: Global, out: UeOut) -> Result<(), Memory>
        ensures { OnOk result (self.new ≡ taken out self.old) }
    {
        match out {
            UeOut::Send {
                fresh,
                octets,
                pass,
            } => self.send(alloc, fresh, octets, pass),
            UeOut::Passed(pass) => {
                self.passed = Some(pass);
                Ok(())
            }
            UeOut::Took(context) => {
                self.took = Some(context);
                Ok(())
            }
            UeOut::Start { id, at } => {
                self.timers.start(id, at);
                Ok(())
            }
            UeOut::Stop(id) => {
                self.timers.stop(id);
                Ok(())
            }
            UeOut::ToSession(_)
            | UeOut::NotForwarded(_)
            | UeOut::Abandon
            | UeOut::Clear
            | UeOut::Keep(_) => Ok(()),
        }
    }

    // A message is sent.
    fn send(
        &mut self,
        alloc: Global,
        fresh: bool,
        octets: Octets,
        pass: Option<Pass>,
    ) -> Result<(), Memory>
        ensures { OnOk result (self.new ≡ sent fresh octets pass self.old) }
    {
        let send = Send {
            link: LINK,
            fresh,
            octets,
            pass,
        };
        self.sends.push(alloc, send)
    }
}
