//! The release of PDU sessions.
ghost use Rattle.std.specs.Prelude.{◌≡◌, IfOk, OnOk};
ghost use Rattle.smf_core.specs.Drafts.{by};
ghost use Rattle.smf_core.specs.Release.{is_no_transaction, release_command, release_rejected, release_requested, release_requested_in, releasing, releasing_by, removed};

use crate::draft::Work;
use crate::held::{Command, Held, Phase};
use crate::kept_message::KeptMessage;
use nas_base::sm_cause::{INVALID_PDU_SESSION_IDENTITY, REGULAR_DEACTIVATION};
use nas_base::{Memory, Psi};
use nas_timers::TimerId;
use sm_messages::{PduSessionReleaseCommand, PduSessionReleaseReject, Session, Sm, SmFrame};
use std::alloc::Global;

/// Whether this is no transaction's identity (TS 24.501 clause 9.6).
pub fn is_no_transaction(pti: u8) -> bool
    ensures { result ≡ is_no_transaction pti }
{
    pti == 0 || pti == 255
}

// PDU SESSION RELEASE COMMAND, not sent yet.
fn release_command(alloc: Global, psi: Psi, pti: u8) -> Result<Command, Memory>
    ensures { IfOk result (λ command. command ≡ release_command psi pti) }
{
    let frame = SmFrame {
        psi: psi.0,
        pti,
        body: Sm::PduSessionReleaseCommand(PduSessionReleaseCommand {
            cause: REGULAR_DEACTIVATION,
        }),
    };
    Ok(Command {
        message: KeptMessage::of(alloc, &frame)?,
        timer: TimerId::T3592(psi),
        sendings: 1,
    })
}

impl<'a> Work<'a> {
    /// The session of an identity is removed, if there is one.
    #[tactic(auto, unfolding(crate::specs::Release::removed, nas_base::specs::Branches::per))]
    pub fn removed(&mut self, psi: Psi) -> Result<(), Memory>
        ensures { OnOk result (self.new ≡ by (removed psi) self.old) }
    {
        let Some(held) = self.held(psi) else {
            return Ok(());
        };
        let address = held.session.address;
        let timer = held.phase.timer();
        self.vacate(psi)?;
        self.stop_timer(timer)?;
        self.free(address)
    }

    /// A session is commanded to be released; the timer of a command that was open on it is stopped.
    #[tactic(auto, unfolding(crate::specs::Release::releasing))]
    pub fn releasing(
        &mut self,
        psi: Psi,
        pti: u8,
        timer: Option<TimerId>,
        session: Session,
    ) -> Result<(), Memory>
        ensures { OnOk result (self.new ≡ by (releasing psi pti timer session) self.old) }
    {
        let command = release_command(self.alloc(), psi, pti)?;
        self.releasing_by(command, timer, psi, session)
    }

    // The same by its command.
    fn releasing_by(
        &mut self,
        command: Command,
        timer: Option<TimerId>,
        psi: Psi,
        session: Session,
    ) -> Result<(), Memory>
        ensures { OnOk result (self.new ≡ by (releasing_by command timer psi session) self.old) }
    {
        let message = command.message.copy(self.alloc())?;
        let own = command.timer;
        let phase = Phase::Releasing(command);
        self.stop_timer(timer)?;
        self.give_out(message, own, psi, Held { session, phase })
    }

    // PDU SESSION RELEASE REJECT.
    fn release_rejected(&mut self, psi: Psi, pti: u8, cause: u8) -> Result<(), Memory>
        ensures { OnOk result (self.new ≡ by (release_rejected psi pti cause) self.old) }
    {
        self.say(
            psi,
            pti,
            Sm::PduSessionReleaseReject(PduSessionReleaseReject { cause }),
        )
    }

    /// PDU SESSION RELEASE REQUEST.
    #[tactic(auto, unfolding(crate::specs::Release::release_requested, nas_base::specs::Branches::per, nas_base::specs::Branches::chosen))]
    pub fn release_requested(&mut self, psi: Psi, pti: u8) -> Result<(), Memory>
        ensures { OnOk result (self.new ≡ by (release_requested psi pti) self.old) }
    {
        if is_no_transaction(pti) {
            return Ok(());
        }
        let Some(held) = self.held(psi) else {
            return self.release_rejected(psi, pti, INVALID_PDU_SESSION_IDENTITY);
        };
        let Held { session, phase } = held.copy(self.alloc())?;
        self.release_requested_in(phase, psi, pti, session)
    }

    // The same of a session.
    fn release_requested_in(
        &mut self,
        phase: Phase,
        psi: Psi,
        pti: u8,
        session: Session,
    ) -> Result<(), Memory>
        ensures { OnOk result (self.new ≡ by (release_requested_in phase psi pti session) self.old) }
    {
        let timer = phase.timer();
        match phase {
            Phase::Active(_) | Phase::Modifying(_) | Phase::Settling(_) => self.releasing(
                psi, pti, timer, session,
            ),
            Phase::Releasing(_) => Ok(()),
        }
    }
}
