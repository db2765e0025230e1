//! The messages, and their way to octets and back.
ghost use Rattle.std.specs.Prelude.{◌≡◌, ◌≤◌, length};
ghost use Rattle.nas_base.specs.Kinds.{mm_type};
ghost use Rattle.nas_base.specs.Writing.{Writes};
ghost use Rattle.nas_layout.specs.Pieces.{pieces_octets};
ghost use Rattle.nas_layout.specs.Telling.{HearsAll};
ghost use Rattle.mm_messages.specs.Bodies.{LaysBody};
ghost use Rattle.mm_messages.specs.Messages.{Decodes, pieces_of, spelling};
ghost use Rattle.mm_messages.specs.Parts.{head};

use crate::{
    AuthenticationFailure, AuthenticationRequest, AuthenticationResponse,
    ConfigurationUpdateCommand, DeregistrationRequestUeOriginating,
    DeregistrationRequestUeTerminated, DlNasTransport, FiveGmmStatus, IdentityRequest,
    IdentityResponse, RegistrationAccept, RegistrationReject, RegistrationRequest,
    SecurityModeCommand, SecurityModeComplete, SecurityModeReject, ServiceAccept, ServiceReject,
    ServiceRequest, UlNasTransport, kind_of,
};
use nas_base::{Full, MmKind, Reader, Writer};
use nas_layout::{BodyRefusal, Pieces, Size};
use std::alloc::Global;

/// 5GMM's extended protocol discriminator (TS 24.501 clause 9.2).
pub const EPD_5GMM: u8 = 0x7e;

/// The security header type of a plain message (TS 24.501 clause 9.3).
pub const PLAIN: u8 = 0x00;

/// A 5GMM message (TS 24.501 clause 8.2): its mandatory parts, each half of an octet for itself, and the elements that it is
/// known to have, where they are there. Bits that carry nothing here are not kept: spare ones, the follow-on request, the
/// access type of a de-registration; nor are elements that are passed over.
#[derive(Drop)]
pub enum Mm {
    /// REGISTRATION REQUEST (clause 8.2.6).
    RegistrationRequest(RegistrationRequest),
    /// REGISTRATION ACCEPT (clause 8.2.7).
    RegistrationAccept(RegistrationAccept),
    /// REGISTRATION COMPLETE (clause 8.2.8).
    RegistrationComplete,
    /// REGISTRATION REJECT (clause 8.2.9).
    RegistrationReject(RegistrationReject),
    /// DEREGISTRATION REQUEST of the handset (clause 8.2.12).
    DeregistrationRequestUeOriginating(DeregistrationRequestUeOriginating),
    /// DEREGISTRATION ACCEPT to the handset (clause 8.2.13).
    DeregistrationAcceptUeOriginating,
    /// DEREGISTRATION REQUEST of the network (clause 8.2.14).
    DeregistrationRequestUeTerminated(DeregistrationRequestUeTerminated),
    /// DEREGISTRATION ACCEPT to the network (clause 8.2.15).
    DeregistrationAcceptUeTerminated,
    /// SERVICE REQUEST (clause 8.2.16).
    ServiceRequest(ServiceRequest),
    /// SERVICE REJECT (clause 8.2.18).
    ServiceReject(ServiceReject),
    /// SERVICE ACCEPT (clause 8.2.17).
    ServiceAccept(ServiceAccept),
    /// CONFIGURATION UPDATE COMMAND (clause 8.2.19).
    ConfigurationUpdateCommand(ConfigurationUpdateCommand),
    /// CONFIGURATION UPDATE COMPLETE (clause 8.2.20).
    ConfigurationUpdateComplete,
    /// AUTHENTICATION REQUEST (clause 8.2.1).
    AuthenticationRequest(AuthenticationRequest),
    /// AUTHENTICATION RESPONSE (clause 8.2.2).
    AuthenticationResponse(AuthenticationResponse),
    /// AUTHENTICATION REJECT (clause 8.2.5).
    AuthenticationReject,
    /// AUTHENTICATION FAILURE (clause 8.2.4).
    AuthenticationFailure(AuthenticationFailure),
    /// IDENTITY REQUEST (clause 8.2.21).
    IdentityRequest(IdentityRequest),
    /// IDENTITY RESPONSE (clause 8.2.22).
    IdentityResponse(IdentityResponse),
    /// SECURITY MODE COMMAND (clause 8.2.25).
    SecurityModeCommand(SecurityModeCommand),
    /// SECURITY MODE COMPLETE (clause 8.2.26).
    SecurityModeComplete(SecurityModeComplete),
    /// SECURITY MODE REJECT (clause 8.2.27).
    SecurityModeReject(SecurityModeReject),
    /// 5GMM STATUS (clause 8.2.29).
    FiveGmmStatus(FiveGmmStatus),
    /// UL NAS TRANSPORT (clause 8.2.10).
    UlNasTransport(UlNasTransport),
    /// DL NAS TRANSPORT (clause 8.2.11).
    DlNasTransport(DlNasTransport),
}

/// Why octets are no message (TS 24.501 clauses 7.2, 7.4 and 7.5).
#[derive(Clone, Copy, Debug, PartialEq, Eq)]
pub enum MmRefusal {
    /// They are no plain 5GMM message, which shows at the place `at`: another protocol discriminator, another header type,
    /// or too few octets for a message type.
    Ignored { at: usize },
    /// No message of the type `n` is read.
    UnknownType { n: u8 },
    /// Of the mandatory parts the one with the number `part` (from 1) is the first to be cut or to have no value; `at` is where
    /// it starts (TS 24.501 clause 7.5.1).
    Mandatory { part: u8, at: usize },
    /// There was no memory left.
    Memory,
}

/// The message in the octets.
///
/// # Errors
///
/// `Ignored`, `UnknownType` and `Mandatory` exactly where there is none, in this order; or `Memory`, where a part or an element is
/// kept as its octets.
#[tactic(auto, unfolding(crate::specs::Messages::mm_in))]
pub fn decode_mm(alloc: Global, octets: &[u8]) -> Result<Mm, MmRefusal>
    ensures { Decodes result octets.now }
{
    if !octets.is_empty() && octets[0] != EPD_5GMM {
        return Err(MmRefusal::Ignored { at: 0 });
    }
    if octets.len() > 1 && octets[1] % 16 != PLAIN {
        return Err(MmRefusal::Ignored { at: 1 });
    }
    if octets.len() < 3 {
        return Err(MmRefusal::Ignored { at: octets.len() });
    }
    let Some(kind) = MmKind::from_code(octets[2]) else {
        return Err(MmRefusal::UnknownType { n: octets[2] });
    };
    let mut reader = Reader::new(octets);
    let _ = reader.take(3);
    match read_body(alloc, kind, &mut reader) {
        Ok(message) => Ok(message),
        Err(BodyRefusal::Mandatory { part, at }) => Err(MmRefusal::Mandatory { part, at }),
        Err(BodyRefusal::Memory) => Err(MmRefusal::Memory),
    }
}

// Reads what stands behind the head of a message of this kind.
#[tactic(auto, using(crate::proofs::Bodies::refused))]
fn read_body(alloc: Global, kind: MmKind, reader: &mut Reader) -> Result<Mm, BodyRefusal>
    ensures { LaysBody result kind reader.old }
{
    match kind {
        MmKind::RegistrationRequest => Ok(Mm::RegistrationRequest(RegistrationRequest::read(
            alloc, reader,
        )?)),
        MmKind::RegistrationAccept => Ok(Mm::RegistrationAccept(RegistrationAccept::read(reader)?)),
        MmKind::RegistrationComplete => Ok(Mm::RegistrationComplete),
        MmKind::RegistrationReject => Ok(Mm::RegistrationReject(RegistrationReject::read(reader)?)),
        MmKind::DeregistrationRequestUeOriginating => Ok(Mm::DeregistrationRequestUeOriginating(
            DeregistrationRequestUeOriginating::read(alloc, reader)?,
        )),
        MmKind::DeregistrationAcceptUeOriginating => Ok(Mm::DeregistrationAcceptUeOriginating),
        MmKind::DeregistrationRequestUeTerminated => Ok(Mm::DeregistrationRequestUeTerminated(
            DeregistrationRequestUeTerminated::read(reader)?,
        )),
        MmKind::DeregistrationAcceptUeTerminated => Ok(Mm::DeregistrationAcceptUeTerminated),
        MmKind::ServiceRequest => Ok(Mm::ServiceRequest(ServiceRequest::read(alloc, reader)?)),
        MmKind::ServiceReject => Ok(Mm::ServiceReject(ServiceReject::read(reader)?)),
        MmKind::ServiceAccept => Ok(Mm::ServiceAccept(ServiceAccept::read(reader)?)),
        MmKind::ConfigurationUpdateCommand => Ok(Mm::ConfigurationUpdateCommand(
            ConfigurationUpdateCommand::read(reader)?,
        )),
        MmKind::ConfigurationUpdateComplete => Ok(Mm::ConfigurationUpdateComplete),
        MmKind::AuthenticationRequest => Ok(Mm::AuthenticationRequest(AuthenticationRequest::read(
            reader,
        )?)),
        MmKind::AuthenticationResponse => Ok(Mm::AuthenticationResponse(
            AuthenticationResponse::read(reader)?,
        )),
        MmKind::AuthenticationReject => Ok(Mm::AuthenticationReject),
        MmKind::AuthenticationFailure => Ok(Mm::AuthenticationFailure(AuthenticationFailure::read(
            reader,
        )?)),
        MmKind::IdentityRequest => Ok(Mm::IdentityRequest(IdentityRequest::read(reader)?)),
        MmKind::IdentityResponse => Ok(Mm::IdentityResponse(IdentityResponse::read(
            alloc, reader,
        )?)),
        MmKind::SecurityModeCommand => Ok(Mm::SecurityModeCommand(SecurityModeCommand::read(
            reader,
        )?)),
        MmKind::SecurityModeComplete => Ok(Mm::SecurityModeComplete(SecurityModeComplete::read(
            alloc, reader,
        )?)),
        MmKind::SecurityModeReject => Ok(Mm::SecurityModeReject(SecurityModeReject::read(reader)?)),
        MmKind::FiveGmmStatus => Ok(Mm::FiveGmmStatus(FiveGmmStatus::read(reader)?)),
        MmKind::UlNasTransport => Ok(Mm::UlNasTransport(UlNasTransport::read(alloc, reader)?)),
        MmKind::DlNasTransport => Ok(Mm::DlNasTransport(DlNasTransport::read(alloc, reader)?)),
    }
}

/// Writes the message, with its elements in the order of the standard's tables.
///
/// # Errors
///
/// `Full` exactly where it doesn't fit; nothing is then written.
pub fn encode_mm(value: &Mm, out: &mut Writer) -> Result<(), Full>
    ensures { Writes (spelling value.now) out.old out.new result }
{
    out.fits(3 + size_of(value))?;
    write_head(kind_of(value), out)?;
    tell(value, out)
}

// How many octets stand behind the head.
fn size_of(value: &Mm) -> usize
    ensures value { result ≡ length (pieces_octets (pieces_of value.now)) }
    ensures limit { result ≤ 65648 }
{
    let mut size = Size::new();
    match tell(value, &mut size) {
        Ok(()) => size.octets(),
        Err(_) => unreachable!(),
    }
}

/// Tells what stands behind the message's head, piece by piece, in the order of the standard's tables.
///
/// # Errors
///
/// What the listener has.
pub fn tell<P: Pieces>(message: &Mm, to: &mut P) -> Result<(), P::Refusal>
    ensures { HearsAll P.with_piece P.refuses to.old to.new (pieces_of message.now) result }
{
    match message {
        Mm::RegistrationRequest(message) => message.tell(to),
        Mm::RegistrationAccept(message) => message.tell(to),
        Mm::RegistrationReject(message) => message.tell(to),
        Mm::DeregistrationRequestUeOriginating(message) => message.tell(to),
        Mm::DeregistrationRequestUeTerminated(message) => message.tell(to),
        Mm::ServiceRequest(message) => message.tell(to),
        Mm::ServiceReject(message) => message.tell(to),
        Mm::ServiceAccept(message) => message.tell(to),
        Mm::ConfigurationUpdateCommand(message) => message.tell(to),
        Mm::AuthenticationRequest(message) => message.tell(to),
        Mm::AuthenticationResponse(message) => message.tell(to),
        Mm::AuthenticationFailure(message) => message.tell(to),
        Mm::IdentityRequest(message) => message.tell(to),
        Mm::IdentityResponse(message) => message.tell(to),
        Mm::SecurityModeCommand(message) => message.tell(to),
        Mm::SecurityModeComplete(message) => message.tell(to),
        Mm::SecurityModeReject(message) => message.tell(to),
        Mm::FiveGmmStatus(message) => message.tell(to),
        Mm::UlNasTransport(message) => message.tell(to),
        Mm::DlNasTransport(message) => message.tell(to),
        Mm::RegistrationComplete
        | Mm::DeregistrationAcceptUeOriginating
        | Mm::DeregistrationAcceptUeTerminated
        | Mm::ConfigurationUpdateComplete
        | Mm::AuthenticationReject => Ok(()),
    }
}

// The head of a plain message of this kind (TS 24.501 clauses 9.2, 9.3 and 9.7).
fn write_head(kind: MmKind, out: &mut Writer) -> Result<(), Full>
    ensures { Writes (head (mm_type kind)) out.old out.new result }
{
    out.put(&[EPD_5GMM, PLAIN, kind.code()])
}
