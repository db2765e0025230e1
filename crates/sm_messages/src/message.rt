//! The messages, and their way to octets and back.
ghost use Rattle.std.specs.Prelude.{◌≡◌, ◌≤◌, length};
ghost use Rattle.nas_base.specs.Kinds.{sm_type};
ghost use Rattle.nas_base.specs.Writing.{Writes};
ghost use Rattle.nas_layout.specs.Pieces.{pieces_octets};
ghost use Rattle.nas_layout.specs.Telling.{HearsAll};
ghost use Rattle.sm_messages.specs.Bodies.{LaysBody};
ghost use Rattle.sm_messages.specs.Messages.{Decodes, pieces_of, spelling};
ghost use Rattle.sm_messages.specs.Parts.{head};

use crate::{
    FiveGsmStatus, PduSessionEstablishmentAccept, PduSessionEstablishmentReject,
    PduSessionEstablishmentRequest, PduSessionModificationCommand,
    PduSessionModificationCommandReject, PduSessionModificationReject,
    PduSessionModificationRequest, PduSessionReleaseCommand, PduSessionReleaseComplete,
    PduSessionReleaseReject, PduSessionReleaseRequest, kind_of,
};
use nas_base::{Full, Reader, SmKind, Writer};
use nas_layout::{BodyRefusal, Pieces, Size};
use std::alloc::Global;

/// 5GSM's extended protocol discriminator (TS 24.501 clause 9.2).
pub const EPD_5GSM: u8 = 0x2e;

/// A 5GSM message behind its head (TS 24.501 clause 8.3): its mandatory parts, each half of an octet for itself, and the
/// elements that it is known to have, where they are there. QoS rules are kept as their octets. Bits that carry nothing here are
/// not kept, nor are elements that are passed over.
#[derive(Drop)]
pub enum Sm {
    /// PDU SESSION ESTABLISHMENT REQUEST (clause 8.3.1).
    PduSessionEstablishmentRequest(PduSessionEstablishmentRequest),
    /// PDU SESSION ESTABLISHMENT ACCEPT (clause 8.3.2).
    PduSessionEstablishmentAccept(PduSessionEstablishmentAccept),
    /// PDU SESSION ESTABLISHMENT REJECT (clause 8.3.3).
    PduSessionEstablishmentReject(PduSessionEstablishmentReject),
    /// PDU SESSION MODIFICATION REQUEST (clause 8.3.7).
    PduSessionModificationRequest(PduSessionModificationRequest),
    /// PDU SESSION MODIFICATION REJECT (clause 8.3.8).
    PduSessionModificationReject(PduSessionModificationReject),
    /// PDU SESSION MODIFICATION COMMAND (clause 8.3.9).
    PduSessionModificationCommand(PduSessionModificationCommand),
    /// PDU SESSION MODIFICATION COMPLETE (clause 8.3.10).
    PduSessionModificationComplete,
    /// PDU SESSION MODIFICATION COMMAND REJECT (clause 8.3.11).
    PduSessionModificationCommandReject(PduSessionModificationCommandReject),
    /// PDU SESSION RELEASE REQUEST (clause 8.3.12).
    PduSessionReleaseRequest(PduSessionReleaseRequest),
    /// PDU SESSION RELEASE REJECT (clause 8.3.13).
    PduSessionReleaseReject(PduSessionReleaseReject),
    /// PDU SESSION RELEASE COMMAND (clause 8.3.14).
    PduSessionReleaseCommand(PduSessionReleaseCommand),
    /// PDU SESSION RELEASE COMPLETE (clause 8.3.15).
    PduSessionReleaseComplete(PduSessionReleaseComplete),
    /// 5GSM STATUS (clause 8.3.16).
    FiveGsmStatus(FiveGsmStatus),
}

/// A whole 5GSM message: the PDU session identity and the procedure transaction identity (PTI) of its head, which are kept also
/// where no session or transaction may have them, and what it says (TS 24.501 clauses 9.4 and 9.6).
#[derive(Drop)]
pub struct SmFrame {
    pub psi: u8,
    pub pti: u8,
    pub body: Sm,
}

/// Why octets are no message (TS 24.501 clauses 7.2, 7.4 and 7.5).
#[derive(Clone, Copy, Debug, PartialEq, Eq)]
pub enum SmRefusal {
    /// They are no 5GSM message, which shows at the place `at`: another protocol discriminator, or too few octets for a message
    /// type.
    Ignored { at: usize },
    /// No message of the type `n` is read.
    UnknownType { n: u8 },
    /// Of the mandatory parts the one with the number `part` (from 1) is the first to be cut or to have no value; `at` is where
    /// it starts (TS 24.501 clause 7.5.1).
    Mandatory { part: u8, at: usize },
    /// There was no memory left.
    Memory,
}

/// The message in the octets.
///
/// # Errors
///
/// `Ignored`, `UnknownType` and `Mandatory` exactly where there is none, in this order; or `Memory`, where a part or an element is
/// kept as its octets.
#[tactic(auto, unfolding(crate::specs::Messages::sm_in))]
pub fn decode_sm(alloc: Global, octets: &[u8]) -> Result<SmFrame, SmRefusal>
    ensures { Decodes result octets.now }
{
    if !octets.is_empty() && octets[0] != EPD_5GSM {
        return Err(SmRefusal::Ignored { at: 0 });
    }
    if octets.len() < 4 {
        return Err(SmRefusal::Ignored { at: octets.len() });
    }
    let Some(kind) = SmKind::from_code(octets[3]) else {
        return Err(SmRefusal::UnknownType { n: octets[3] });
    };
    let mut reader = Reader::new(octets);
    let _ = reader.take(4);
    match read_body(alloc, kind, &mut reader) {
        Ok(body) => Ok(SmFrame {
            psi: octets[1],
            pti: octets[2],
            body,
        }),
        Err(BodyRefusal::Mandatory { part, at }) => Err(SmRefusal::Mandatory { part, at }),
        Err(BodyRefusal::Memory) => Err(SmRefusal::Memory),
    }
}

// Reads what stands behind the head of a message of this kind.
#[tactic(auto, using(crate::proofs::Bodies::refused))]
fn read_body(alloc: Global, kind: SmKind, reader: &mut Reader) -> Result<Sm, BodyRefusal>
    ensures { LaysBody result kind reader.old }
{
    match kind {
        SmKind::PduSessionEstablishmentRequest => Ok(Sm::PduSessionEstablishmentRequest(
            PduSessionEstablishmentRequest::read(reader)?,
        )),
        SmKind::PduSessionEstablishmentAccept => Ok(Sm::PduSessionEstablishmentAccept(
            PduSessionEstablishmentAccept::read(alloc, reader)?,
        )),
        SmKind::PduSessionEstablishmentReject => Ok(Sm::PduSessionEstablishmentReject(
            PduSessionEstablishmentReject::read(reader)?,
        )),
        SmKind::PduSessionModificationRequest => Ok(Sm::PduSessionModificationRequest(
            PduSessionModificationRequest::read(alloc, reader)?,
        )),
        SmKind::PduSessionModificationReject => Ok(Sm::PduSessionModificationReject(
            PduSessionModificationReject::read(reader)?,
        )),
        SmKind::PduSessionModificationCommand => Ok(Sm::PduSessionModificationCommand(
            PduSessionModificationCommand::read(alloc, reader)?,
        )),
        SmKind::PduSessionModificationComplete => Ok(Sm::PduSessionModificationComplete),
        SmKind::PduSessionModificationCommandReject => Ok(Sm::PduSessionModificationCommandReject(
            PduSessionModificationCommandReject::read(reader)?,
        )),
        SmKind::PduSessionReleaseRequest => Ok(Sm::PduSessionReleaseRequest(
            PduSessionReleaseRequest::read(reader)?,
        )),
        SmKind::PduSessionReleaseReject => Ok(Sm::PduSessionReleaseReject(
            PduSessionReleaseReject::read(reader)?,
        )),
        SmKind::PduSessionReleaseCommand => Ok(Sm::PduSessionReleaseCommand(
            PduSessionReleaseCommand::read(reader)?,
        )),
        SmKind::PduSessionReleaseComplete => Ok(Sm::PduSessionReleaseComplete(
            PduSessionReleaseComplete::read(reader)?,
        )),
        SmKind::FiveGsmStatus => Ok(Sm::FiveGsmStatus(FiveGsmStatus::read(reader)?)),
    }
}

/// Writes the message, with its elements in the order of the standard's tables.
///
/// # Errors
///
/// `Full` exactly where the whole message doesn't fit; nothing is then written.
pub fn encode_sm(value: &SmFrame, out: &mut Writer) -> Result<(), Full>
    ensures { Writes (spelling value.now) out.old out.new result }
{
    out.fits(4 + size_of(&value.body))?;
    write_head(value.psi, value.pti, kind_of(&value.body), out)?;
    tell(&value.body, out)
}

// How many octets stand behind the head.
fn size_of(message: &Sm) -> usize
    ensures value { result ≡ length (pieces_octets (pieces_of message.now)) }
    ensures limit { result ≤ 65648 }
{
    let mut size = Size::new();
    match tell(message, &mut size) {
        Ok(()) => size.octets(),
        Err(_) => unreachable!(),
    }
}

/// Tells what stands behind the message's head, piece by piece, in the order of the standard's tables.
///
/// # Errors
///
/// What the listener has.
pub fn tell<P: Pieces>(message: &Sm, to: &mut P) -> Result<(), P::Refusal>
    ensures { HearsAll P.with_piece P.refuses to.old to.new (pieces_of message.now) result }
{
    match message {
        Sm::PduSessionEstablishmentRequest(message) => message.tell(to),
        Sm::PduSessionEstablishmentAccept(message) => message.tell(to),
        Sm::PduSessionEstablishmentReject(message) => message.tell(to),
        Sm::PduSessionModificationRequest(message) => message.tell(to),
        Sm::PduSessionModificationReject(message) => message.tell(to),
        Sm::PduSessionModificationCommand(message) => message.tell(to),
        Sm::PduSessionModificationCommandReject(message) => message.tell(to),
        Sm::PduSessionReleaseRequest(message) => message.tell(to),
        Sm::PduSessionReleaseReject(message) => message.tell(to),
        Sm::PduSessionReleaseCommand(message) => message.tell(to),
        Sm::PduSessionReleaseComplete(message) => message.tell(to),
        Sm::FiveGsmStatus(message) => message.tell(to),
        Sm::PduSessionModificationComplete => Ok(()),
    }
}

// The head of a message of this kind (TS 24.501 clauses 9.2, 9.4, 9.6 and 9.7).
fn write_head(psi: u8, pti: u8, kind: SmKind, out: &mut Writer) -> Result<(), Full>
    ensures { Writes (head psi pti (sm_type kind)) out.old out.new result }
{
    out.put(&[EPD_5GSM, psi, pti, kind.code()])
}
