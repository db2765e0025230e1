//! Timers that expire.
ghost use Rattle.std.specs.Prelude.{◌≡◌, true, OnOk};
ghost use Rattle.smf_core.specs.Drafts.{by};
ghost use Rattle.smf_core.specs.Timers.{again, expired, is_left, modification_expired, of_modifying, of_releasing, release_expired};

use crate::draft::Work;
use crate::held::{Command, Held, Modification, Phase};
use nas_base::{Memory, Psi};
use nas_timers::TimerId;
use sm_messages::Session;

// How often a command is sent at most.
const SENDINGS: u8 = 5;

// The same command again.
fn again(command: Command) -> Command
    requires { is_left command.sendings ≡ true }
    ensures { result ≡ again command }
{
    Command {
        message: command.message,
        timer: command.timer,
        sendings: command.sendings + 1,
    }
}

impl<'a> Work<'a> {
    /// A timer expired.
    #[tactic(auto, unfolding(crate::specs::Timers::expired, nas_base::specs::Branches::per))]
    pub fn expired(&mut self, id: TimerId) -> Result<(), Memory>
        ensures { OnOk result (self.new ≡ by (expired id) self.old) }
    {
        match id {
            TimerId::T3591(psi) => {
                let Some(held) = self.held(psi) else {
                    return Ok(());
                };
                let Held { session, phase } = held.copy(self.alloc())?;
                self.of_modifying(phase, psi, session)
            }
            TimerId::T3592(psi) => {
                let Some(held) = self.held(psi) else {
                    return Ok(());
                };
                let Held { session, phase } = held.copy(self.alloc())?;
                self.of_releasing(phase, psi, session)
            }
            _ => Ok(()),
        }
    }

    // T3591, where a modification is open.
    fn of_modifying(&mut self, phase: Phase, psi: Psi, session: Session) -> Result<(), Memory>
        ensures { OnOk result (self.new ≡ by (of_modifying phase psi session) self.old) }
    {
        match phase {
            Phase::Modifying(modification) => self.modification_expired(modification, psi, session),
            Phase::Active(_) | Phase::Settling(_) | Phase::Releasing(_) => Ok(()),
        }
    }

    // T3592, where a release is open.
    fn of_releasing(&mut self, phase: Phase, psi: Psi, session: Session) -> Result<(), Memory>
        ensures { OnOk result (self.new ≡ by (of_releasing phase psi session) self.old) }
    {
        match phase {
            Phase::Releasing(command) => self.release_expired(command, psi, session),
            Phase::Active(_) | Phase::Modifying(_) | Phase::Settling(_) => Ok(()),
        }
    }

    // T3591 expired.
    #[tactic(auto, unfolding(nas_base::specs::Branches::chosen))]
    fn modification_expired(
        &mut self,
        modification: Modification,
        psi: Psi,
        session: Session,
    ) -> Result<(), Memory>
        ensures { OnOk result (self.new ≡ by (modification_expired modification psi session) self.old) }
    {
        let Modification {
            command,
            rules,
            ambr,
        } = modification;
        if command.sendings >= SENDINGS {
            return self.releasing(psi, 0, Some(command.timer), session);
        }
        let message = command.message.copy(self.alloc())?;
        let timer = command.timer;
        let phase = Phase::Modifying(Modification {
            command: again(command),
            rules,
            ambr,
        });
        self.give_out(message, timer, psi, Held { session, phase })
    }

    // T3592 expired.
    #[tactic(auto, unfolding(nas_base::specs::Branches::chosen))]
    fn release_expired(
        &mut self,
        command: Command,
        psi: Psi,
        session: Session,
    ) -> Result<(), Memory>
        ensures { OnOk result (self.new ≡ by (release_expired command psi session) self.old) }
    {
        if command.sendings >= SENDINGS {
            return self.removed(psi);
        }
        let message = command.message.copy(self.alloc())?;
        let timer = command.timer;
        let phase = Phase::Releasing(again(command));
        self.give_out(message, timer, psi, Held { session, phase })
    }
}
