//! The commands that a handset's sessions are given.
ghost use Rattle.ue_sm.specs.Commands.{commanded};
ghost use Rattle.ue_sm.specs.Outcome.{Commands};

use crate::work::Work;
use crate::{SmCommand, SmStepRefusal};
use std::alloc::Global;

impl Work {
    /// A command.
    #[tactic(auto, unfolding(crate::specs::Commands::commanded))]
    pub fn commanded(&mut self, alloc: Global, command: SmCommand) -> Result<(), SmStepRefusal>
        ensures { Commands self.old self.new result (commanded command self.old) }
    {
        match command {
            SmCommand::Establish { psi, kind, dnn } => self.establish(alloc, psi, kind, dnn),
            SmCommand::Modify { psi, ops } => self.modify(alloc, psi, &ops),
            SmCommand::Release { psi } => self.release(alloc, psi),
        }
    }
}
