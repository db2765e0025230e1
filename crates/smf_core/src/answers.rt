//! The handset's answers to commands, and its 5GSM STATUS.
ghost use Rattle.std.specs.Prelude.{◌≡◌, IfOk, OnOk};
ghost use Rattle.smf_core.specs.Answers.{command_rejected, is_releasing, last_of, modification_completed, modification_of, modification_refused, release_completed, session_after, settled, status_told};
ghost use Rattle.smf_core.specs.Drafts.{by};

use crate::draft::Work;
use crate::held::{Command, Held, LastCommand, Modification, Phase};
use nas_base::sm_cause::{INVALID_PDU_SESSION_IDENTITY, PTI_MISMATCH};
use nas_base::{Memory, Psi};
use nas_elements::Ambr;
use nas_qos::Rules;
use sm_messages::Session;

// A command that was answered.
fn last_of(command: Command) -> LastCommand
    ensures { result ≡ last_of command }
{
    LastCommand {
        message: command.message,
        sendings: command.sendings,
    }
}

// What a session becomes by rules and a session AMBR.
fn session_after(session: Session, rules: Rules, ambr: Ambr) -> Session
    ensures { result ≡ session_after rules ambr session }
{
    Session {
        kind: session.kind,
        address: session.address,
        dnn: session.dnn,
        slice: session.slice,
        ambr,
        rules,
    }
}

impl<'a> Work<'a> {
    // The session and the modification whose command is open, where the transaction is that of the command.
    #[tactic(auto, unfolding(crate::specs::Answers::modification_of, nas_base::specs::Branches::per, nas_base::specs::Branches::chosen))]
    fn modification_of(&self, psi: Psi, pti: u8) -> Result<Option<(Session, Modification)>, Memory>
        ensures { IfOk result (λ found. found ≡ modification_of psi pti self.now.work) }
    {
        let Some(held) = self.held(psi) else {
            return Ok(None);
        };
        match &held.phase {
            Phase::Modifying(modification) => {
                if modification.command.message.pti() != pti {
                    return Ok(None);
                }
                let session = held.session.copy(self.alloc())?;
                Ok(Some((session, modification.copy(self.alloc())?)))
            }
            Phase::Active(_) | Phase::Settling(_) | Phase::Releasing(_) => Ok(None),
        }
    }

    // The command that was open is answered, and the session is this.
    #[tactic(auto, unfolding(crate::specs::Answers::settled, nas_base::specs::Branches::chosen))]
    fn settled(&mut self, session: Session, command: Command, psi: Psi) -> Result<(), Memory>
        ensures { OnOk result (self.new ≡ by (settled session command psi) self.old) }
    {
        self.stop(command.timer)?;
        if command.sendings == 1 {
            let phase = Phase::Active(Some(last_of(command)));
            return self.hold(psi, Held { session, phase });
        }
        let phase = Phase::Settling(last_of(command));
        self.hold(psi, Held { session, phase })?;
        self.fence()
    }

    /// PDU SESSION MODIFICATION COMPLETE.
    #[tactic(auto, unfolding(crate::specs::Answers::modification_completed, nas_base::specs::Branches::per))]
    pub fn modification_completed(&mut self, psi: Psi, pti: u8) -> Result<(), Memory>
        ensures { OnOk result (self.new ≡ by (modification_completed psi pti) self.old) }
    {
        let Some((session, modification)) = self.modification_of(psi, pti)? else {
            return Ok(());
        };
        let Modification {
            command,
            rules,
            ambr,
        } = modification;
        self.settled(session_after(session, rules, ambr), command, psi)
    }

    // The command is refused; the session stays what it was.
    #[tactic(auto, unfolding(crate::specs::Answers::modification_refused, nas_base::specs::Branches::per))]
    fn modification_refused(&mut self, psi: Psi, pti: u8) -> Result<(), Memory>
        ensures { OnOk result (self.new ≡ by (modification_refused psi pti) self.old) }
    {
        let Some((session, modification)) = self.modification_of(psi, pti)? else {
            return Ok(());
        };
        self.settled(session, modification.command, psi)
    }

    /// PDU SESSION MODIFICATION COMMAND REJECT.
    #[tactic(auto, unfolding(crate::specs::Answers::command_rejected, nas_base::specs::Branches::per, nas_base::specs::Branches::chosen))]
    pub fn command_rejected(&mut self, cause: u8, psi: Psi, pti: u8) -> Result<(), Memory>
        ensures { OnOk result (self.new ≡ by (command_rejected cause psi pti) self.old) }
    {
        let Some((session, modification)) = self.modification_of(psi, pti)? else {
            return Ok(());
        };
        if cause == INVALID_PDU_SESSION_IDENTITY {
            return self.removed(psi);
        }
        self.settled(session, modification.command, psi)
    }

    // Whether a RELEASE COMMAND of this transaction is open.
    #[tactic(auto, unfolding(nas_base::specs::Branches::per))]
    fn is_releasing(&self, psi: Psi, pti: u8) -> bool
        ensures { result ≡ is_releasing psi pti self.now.work }
    {
        let Some(held) = self.held(psi) else {
            return false;
        };
        match &held.phase {
            Phase::Releasing(command) => command.message.pti() == pti,
            Phase::Active(_) | Phase::Modifying(_) | Phase::Settling(_) => false,
        }
    }

    /// PDU SESSION RELEASE COMPLETE.
    #[tactic(auto, unfolding(crate::specs::Answers::release_completed, nas_base::specs::Branches::chosen))]
    pub fn release_completed(&mut self, psi: Psi, pti: u8) -> Result<(), Memory>
        ensures { OnOk result (self.new ≡ by (release_completed psi pti) self.old) }
    {
        if self.is_releasing(psi, pti) {
            return self.removed(psi);
        }
        Ok(())
    }

    /// 5GSM STATUS.
    #[tactic(auto, unfolding(crate::specs::Answers::status_told, nas_base::specs::Branches::chosen))]
    pub fn status_told(&mut self, cause: u8, psi: Psi, pti: u8) -> Result<(), Memory>
        ensures { OnOk result (self.new ≡ by (status_told cause psi pti) self.old) }
    {
        match cause {
            INVALID_PDU_SESSION_IDENTITY => self.removed(psi),
            PTI_MISMATCH => self.modification_refused(psi, pti),
            _ => Ok(()),
        }
    }
}
