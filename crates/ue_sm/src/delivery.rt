//! What a handset's sessions make of octets that reach them.
ghost use Rattle.std.specs.Prelude.{◌≡◌};
ghost use Rattle.ue_sm.specs.Delivery.{by_action, delivered, octet_at, read, received, taken};
ghost use Rattle.ue_sm.specs.Outcome.{Works};
ghost use Rattle.sm_messages.specs.Messages.{sm_in};

use crate::network_commands::same_answer;
use crate::work::Work;
use collision_rules::{Action, collide_sm};
use nas_base::sm_cause::{
    INVALID_MANDATORY_INFORMATION, INVALID_PDU_SESSION_IDENTITY,
    MESSAGE_TYPE_NON_EXISTENT_OR_NOT_IMPLEMENTED,
    MESSAGE_TYPE_NOT_COMPATIBLE_WITH_THE_PROTOCOL_STATE,
};
use nas_base::{Memory, Psi};
use sm_messages::{Sm, SmRefusal, decode_sm, kind_of};
use std::alloc::Global;

// The message type of 5GSM STATUS, which is never answered (TS 24.501 clause 7.5.1).
const FIVE_GSM_STATUS: u8 = 0xd6;

/// An octet, 0 where there is none.
pub fn octet_at(octets: &[u8], index: usize) -> u8
    ensures { result ≡ octet_at octets.now index }
{
    match octets.get(index) {
        Some(octet) => *octet,
        None => 0,
    }
}

impl Work {
    /// Octets reached the sessions.
    #[tactic(auto, unfolding(crate::specs::Delivery::delivered, nas_base::specs::Branches::per))]
    pub fn delivered(&mut self, alloc: Global, octets: &[u8]) -> Result<(), Memory>
        ensures { Works self.old self.new result (delivered octets.now self.old) }
    {
        match Psi::from_number(octet_at(octets, 1)) {
            Some(psi) => self.read(alloc, psi, octets),
            None => Ok(()),
        }
    }

    // What they read as.
    #[tactic(auto, unfolding(nas_base::specs::Branches::chosen))]
    fn read(&mut self, alloc: Global, psi: Psi, octets: &[u8]) -> Result<(), Memory>
        ensures { Works self.old self.new result (read (sm_in octets.now) psi octets.now self.old) }
    {
        match decode_sm(alloc, octets) {
            Ok(frame) => self.received(alloc, psi, frame.pti, frame.body),
            Err(SmRefusal::Ignored { at: _ }) => Ok(()),
            Err(SmRefusal::UnknownType { n: _ }) => self.status(
                alloc,
                psi,
                octet_at(octets, 2),
                MESSAGE_TYPE_NON_EXISTENT_OR_NOT_IMPLEMENTED,
            ),
            Err(SmRefusal::Mandatory { part: _, at: _ }) => {
                if octet_at(octets, 3) == FIVE_GSM_STATUS {
                    return Ok(());
                }
                self.status(
                    alloc,
                    psi,
                    octet_at(octets, 2),
                    INVALID_MANDATORY_INFORMATION,
                )
            }
            Err(SmRefusal::Memory) => Err(Memory),
        }
    }

    // A message: the answer that it gets again, or what the table says.
    #[tactic(auto, unfolding(crate::specs::Delivery::received, nas_base::specs::Branches::per))]
    fn received(&mut self, alloc: Global, psi: Psi, pti: u8, message: Sm) -> Result<(), Memory>
        ensures { Works self.old self.new result (received psi pti message self.old) }
    {
        let cell = self.state.cell(psi);
        if let Some(answer) = same_answer(pti, &message, cell) {
            return self.answer(alloc, psi, pti, answer);
        }
        let action = collide_sm(cell.word(), kind_of(&message), cell.pti_case(pti));
        self.by_action(alloc, action, psi, pti, message)
    }

    // What the table says.
    fn by_action(
        &mut self,
        alloc: Global,
        action: Action,
        psi: Psi,
        pti: u8,
        message: Sm,
    ) -> Result<(), Memory>
        ensures { Works self.old self.new result (by_action action psi pti message self.old) }
    {
        match action {
            Action::Take => self.taken(alloc, psi, pti, message),
            Action::Discard => Ok(()),
            Action::Status98 => self.status(
                alloc,
                psi,
                pti,
                MESSAGE_TYPE_NOT_COMPATIBLE_WITH_THE_PROTOCOL_STATE,
            ),
            Action::Status43 => self.status(alloc, psi, pti, INVALID_PDU_SESSION_IDENTITY),
            Action::Status47 => self.mismatched(alloc, psi, pti, message),
        }
    }

    // The row of a message that the table takes.
    #[tactic(auto, unfolding(crate::specs::Delivery::taken))]
    fn taken(&mut self, alloc: Global, psi: Psi, pti: u8, message: Sm) -> Result<(), Memory>
        ensures { Works self.old self.new result (taken psi pti message self.old) }
    {
        match message {
            Sm::PduSessionEstablishmentAccept(accept) => self.establishment_accepted(
                alloc, psi, pti, accept,
            ),
            Sm::PduSessionEstablishmentReject(_) => self.establishment_rejected(psi),
            Sm::PduSessionModificationCommand(command) => self.modification_commanded(
                alloc, psi, pti, command,
            ),
            Sm::PduSessionModificationReject(reject) => self.modification_rejected(
                psi,
                reject.cause,
            ),
            Sm::PduSessionReleaseCommand(_) => self.release_commanded(alloc, psi, pti),
            Sm::PduSessionReleaseReject(reject) => self.release_rejected(psi, reject.cause),
            _ => Ok(()),
        }
    }
}
