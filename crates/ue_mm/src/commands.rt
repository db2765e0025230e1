//! The commands that a handset is given.
ghost use Rattle.std.specs.Prelude.{◌≡◌, OnOk};
ghost use Rattle.ue_mm.specs.Commands.{begun, commanded, is_spent, may_begin};
ghost use Rattle.ue_mm.specs.Outcome.{Works};

use crate::work::Work;
use crate::{MmCommand, StepRefusal};
use nas_base::{Kind, Memory, MmWord};
use nas_security::Context;

// The count behind the last (TS 24.501 clause 4.4.3.1).
const SPENT: u32 = 1 << 24;

// Whether a command begins in a state.
fn may_begin(command: MmCommand, word: MmWord) -> bool
    ensures { result ≡ may_begin command word }
{
    match command {
        MmCommand::Register(Kind::Initial) => word == MmWord::Deregistered,
        MmCommand::Register(Kind::Mobility)
        | MmCommand::Register(Kind::Periodic)
        | MmCommand::Service
        | MmCommand::Deregister { switch_off: _ } => word == MmWord::Registered,
    }
}

// Whether the current context, if there is one, has no count up left.
#[tactic(auto, unfolding(nas_base::specs::Branches::per))]
fn is_spent(current: &Option<Context>) -> bool
    ensures { result ≡ is_spent current.now }
{
    match current {
        Some(context) => context.up == SPENT,
        None => false,
    }
}

impl Work {
    /// A command.
    #[tactic(auto, unfolding(crate::specs::Commands::commanded, nas_base::specs::Branches::chosen))]
    pub fn commanded_by(&mut self, command: MmCommand) -> Result<(), StepRefusal>
        ensures { Works self.new result (commanded command self.old) }
    {
        let state = self.phase.word();
        if !may_begin(command, state) {
            return Err(StepRefusal::WrongState { state });
        }
        if is_spent(&self.common.current) {
            return Err(StepRefusal::Spent { next: SPENT });
        }
        match self.begin(command) {
            Ok(()) => Ok(()),
            Err(Memory) => Err(StepRefusal::Memory),
        }
    }

    // The command's procedure begins.
    fn begin(&mut self, command: MmCommand) -> Result<(), Memory>
        ensures { OnOk result (self.new ≡ begun command self.old) }
    {
        match command {
            MmCommand::Register(kind) => self.register(kind),
            MmCommand::Service => self.serve(),
            MmCommand::Deregister { switch_off } => self.leave(switch_off),
        }
    }
}
