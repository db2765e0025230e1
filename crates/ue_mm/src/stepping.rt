//! One step of a handset's 5GMM.
ghost use Rattle.std.specs.Prelude.{◌≡◌, IfOk};
ghost use Rattle.ue_mm.specs.Outcome.{Works};
ghost use Rattle.ue_mm.specs.State.{state_of};
ghost use Rattle.ue_mm.specs.Step.{Follows, Steps, ended, step_of, worked};

use crate::acts::Acts;
use crate::framing::Framed;
use crate::work::Work;
use crate::{StepRefusal, UeInput, UeMm, UeOuts};
use nas_base::{Memory, Moment};
use nas_elements::Status;
use std::alloc::Global;

/// One step of a handset's 5GMM: the row of an input at a moment, where `held` are the PDU sessions whose word is Active,
/// ModificationPending or InactivePending (TS 24.501 clauses 4.4, 5 and 7).
///
/// # Errors
///
/// Of commands alone: `WrongState` exactly where the command doesn't begin in this state; else `Spent` exactly where the
/// current context has no count up left. Or `Memory`. The state is handed back as it was.
pub fn step(
    alloc: Global,
    state: UeMm,
    now: Moment,
    held: &Status,
    input: UeInput,
) -> Result<(UeMm, UeOuts), (UeMm, StepRefusal)>
    ensures { Steps state result (step_of (state_of state) now held.now input) }
{
    match follow(alloc, &state, now, held, input) {
        Ok(followed) => Ok(followed),
        Err(refusal) => Err((state, refusal)),
    }
}

/// The step from a state that its owner keeps, to take the new one over when all that comes of it is done.
///
/// # Errors
///
/// As of `step`.
pub fn follow(
    alloc: Global,
    state: &UeMm,
    now: Moment,
    held: &Status,
    input: UeInput,
) -> Result<(UeMm, UeOuts), StepRefusal>
    ensures { Follows result (step_of (state_of state.now) now held.now input) }
{
    let (common, phase) = state.parts();
    let mut work = Work {
        moment: now,
        held: *held,
        common,
        phase,
        acts: Acts::new(alloc),
    };
    work.by_input(alloc, input)?;
    match work.end(alloc) {
        Ok(ended) => Ok(ended),
        Err(Memory) => Err(StepRefusal::Memory),
    }
}

impl Work {
    // The row of an input.
    #[tactic(auto, unfolding(crate::specs::Step::worked))]
    fn by_input(&mut self, alloc: Global, input: UeInput) -> Result<(), StepRefusal>
        ensures { Works self.new result (worked input self.old) }
    {
        let done = match input {
            UeInput::Command(command) => return self.commanded_by(command),
            UeInput::Delivered(octets) => self.delivered(alloc, octets.as_slice()),
            UeInput::Expired(id) => self.expired(id),
            UeInput::Dropped => self.dropped(),
            UeInput::Restart => self.restarted(),
            UeInput::Carry { psi, dnn, frame } => self.carry(psi, dnn, frame),
        };
        match done {
            Ok(()) => Ok(()),
            Err(Memory) => Err(StepRefusal::Memory),
        }
    }

    // What was said is sent, and the state is what is kept.
    #[tactic(auto, unfolding(crate::specs::Step::ended))]
    fn end(self, alloc: Global) -> Result<(UeMm, UeOuts), Memory>
        ensures { IfOk result (λ new. record { state = state_of new.0; outs = new.1 } ≡ ended self) }
    {
        let mut common = self.common;
        let mut framing = Framed {
            current: common.current,
            outs: UeOuts::new(alloc),
        };
        let supi = common.config.supi.copy();
        framing.all(alloc, &supi, self.acts)?;
        common.current = framing.current;
        Ok((UeMm::of(common, self.phase), framing.outs))
    }
}
