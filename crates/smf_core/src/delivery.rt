//! What the SMF makes of a 5GSM message that came.
ghost use Rattle.std.specs.Prelude.{◌≡◌, slice_index_or, OnOk};
ghost use Rattle.smf_core.specs.Delivery.{delivered, faulty, misdirected, taken};
ghost use Rattle.smf_core.specs.Drafts.{by};

use crate::draft::Work;
use crate::establishment::Asking;
use nas_base::sm_cause::{
    INVALID_MANDATORY_INFORMATION, MESSAGE_TYPE_NON_EXISTENT_OR_NOT_IMPLEMENTED,
    MESSAGE_TYPE_NOT_COMPATIBLE_WITH_THE_PROTOCOL_STATE,
};
use nas_base::{Memory, Psi};
use nas_elements::{Dnn, Slice};
use nas_security::Challenge;
use sm_messages::{Sm, SmRefusal, decode_sm};

// The message type of 5GSM STATUS, which is never answered (TS 24.501 clause 7.5.1).
const FIVE_GSM_STATUS: u8 = 0xd6;

/// What a message was carried with: the PDU session identity, the challenge of the context that it came under, and the
/// data network and the slice that were named beside it.
#[derive(Drop)]
pub struct Carried {
    pub psi: Psi,
    pub challenge: Challenge,
    pub dnn: Option<Dnn>,
    pub slice: Option<Slice>,
}

// An octet, 0 where there is none.
fn octet_at(octets: &[u8], index: usize) -> u8
    ensures { result ≡ slice_index_or octets.now index 0 }
{
    match octets.get(index) {
        Some(octet) => *octet,
        None => 0,
    }
}

impl<'a> Work<'a> {
    /// A 5GSM message came.
    #[tactic(auto, unfolding(crate::specs::Delivery::delivered, nas_base::specs::Branches::chosen))]
    pub fn delivered(&mut self, carried: &Carried, octets: &[u8]) -> Result<(), Memory>
        ensures { OnOk result (self.new ≡ by (delivered carried.now octets.now) self.old) }
    {
        if octet_at(octets, 1) != carried.psi.0 {
            return Ok(());
        }
        match decode_sm(self.alloc(), octets) {
            Ok(message) => self.taken(carried, message.pti, &message.body),
            Err(SmRefusal::Ignored { at: _ }) => Ok(()),
            Err(SmRefusal::UnknownType { n: _ }) => self.status(
                carried.psi,
                octet_at(octets, 2),
                MESSAGE_TYPE_NON_EXISTENT_OR_NOT_IMPLEMENTED,
            ),
            Err(SmRefusal::Mandatory { part: _, at: _ }) => self.faulty(carried.psi, octets),
            Err(SmRefusal::Memory) => Err(Memory),
        }
    }

    // A mandatory part is cut.
    #[tactic(auto, unfolding(nas_base::specs::Branches::chosen))]
    fn faulty(&mut self, psi: Psi, octets: &[u8]) -> Result<(), Memory>
        ensures { OnOk result (self.new ≡ by (faulty psi octets.now) self.old) }
    {
        if octet_at(octets, 3) == FIVE_GSM_STATUS {
            return Ok(());
        }
        self.status(psi, octet_at(octets, 2), INVALID_MANDATORY_INFORMATION)
    }

    // A message of a kind that only a network sends.
    fn misdirected(&mut self, psi: Psi, pti: u8) -> Result<(), Memory>
        ensures { OnOk result (self.new ≡ by (misdirected psi pti) self.old) }
    {
        self.status(
            psi,
            pti,
            MESSAGE_TYPE_NOT_COMPATIBLE_WITH_THE_PROTOCOL_STATE,
        )
    }

    // The row of a message.
    #[tactic(auto, unfolding(crate::specs::Delivery::taken))]
    fn taken(&mut self, carried: &Carried, pti: u8, message: &Sm) -> Result<(), Memory>
        ensures { OnOk result (self.new ≡ by (taken carried.now pti message.now) self.old) }
    {
        let psi = carried.psi;
        match message {
            Sm::PduSessionEstablishmentRequest(request) => {
                let asking = Asking {
                    psi,
                    pti,
                    challenge: carried.challenge,
                };
                self.establishment_requested(
                    asking,
                    &request.session_type,
                    &carried.dnn,
                    &carried.slice,
                )
            }
            Sm::PduSessionModificationRequest(request) => self.modification_requested(
                &request.rules,
                psi,
                pti,
            ),
            Sm::PduSessionModificationComplete => self.modification_completed(psi, pti),
            Sm::PduSessionModificationCommandReject(reject) => self.command_rejected(
                reject.cause,
                psi,
                pti,
            ),
            Sm::PduSessionReleaseRequest(_) => self.release_requested(psi, pti),
            Sm::PduSessionReleaseComplete(_) => self.release_completed(psi, pti),
            Sm::FiveGsmStatus(status) => self.status_told(status.cause, psi, pti),
            Sm::PduSessionEstablishmentAccept(_)
            | Sm::PduSessionEstablishmentReject(_)
            | Sm::PduSessionModificationReject(_)
            | Sm::PduSessionModificationCommand(_)
            | Sm::PduSessionReleaseReject(_)
            | Sm::PduSessionReleaseCommand(_) => self.misdirected(psi, pti),
        }
    }
}
