//! One step of a handset's sessions.
ghost use Rattle.ue_sm.specs.Outcome.{Commands};
ghost use Rattle.ue_sm.specs.Step.{Steps, step_of, worked};

use crate::mobility::Ending;
use crate::work::Work;
use crate::{SmInput, SmOuts, SmStepRefusal, UeSm};
use nas_base::{Memory, Moment};
use std::alloc::Global;

/// One step of a handset's sessions, 1 to 15: the row of an input at a moment (TS 24.501 clause 6).
///
/// # Errors
///
/// Of commands alone, in this order: `NoSuchSession` exactly where the session to modify or to release is inactive;
/// `SessionThere` exactly where the one to establish isn't; `WrongState` exactly where the one to modify or to release
/// has a transaction open; `Qos` exactly where the operations don't apply to its rules; `NoPti` exactly where no
/// identity is left for a transaction. Or `Memory`. The state is handed back as it was.
pub fn step(
    alloc: Global,
    state: UeSm,
    now: Moment,
    input: SmInput,
) -> Result<(UeSm, SmOuts), (UeSm, SmStepRefusal)>
    ensures { Steps state result (step_of state now input) }
{
    let mut work = Work {
        moment: now,
        state,
        outs: SmOuts::new(alloc),
    };
    match work.by_input(alloc, input) {
        Ok(()) => Ok((work.state, work.outs)),
        Err(refusal) => Err((work.state, refusal)),
    }
}

impl Work {
    // The row of an input.
    #[tactic(auto, unfolding(crate::specs::Step::worked))]
    fn by_input(&mut self, alloc: Global, input: SmInput) -> Result<(), SmStepRefusal>
        ensures { Commands self.old self.new result (worked input self.old) }
    {
        let done = match input {
            SmInput::Command(command) => return self.commanded(alloc, command),
            SmInput::Frame(octets) => self.delivered(alloc, octets.as_slice()),
            SmInput::NotForwarded(octets) => self.not_forwarded(octets.as_slice()),
            SmInput::Expired(id) => self.expired(alloc, id),
            SmInput::NewContext => {
                self.renewed();
                Ok(())
            }
            SmInput::Abandon => self.left_by(&Ending::Abandon),
            SmInput::Clear => self.left_by(&Ending::Clear),
            SmInput::Keep(held) => self.left_by(&Ending::Keep(held)),
        };
        match done {
            Ok(()) => Ok(()),
            Err(Memory) => Err(SmStepRefusal::Memory),
        }
    }
}
