//! The kind of a message.
ghost use Rattle.std.specs.Prelude.{◌≡◌};
ghost use Rattle.mm_messages.specs.KindOf.{kind_of};

use crate::Mm;
use nas_base::MmKind;

/// The kind of the message.
pub fn kind_of(message: &Mm) -> MmKind
    ensures { result ≡ kind_of message.now }
{
    match message {
        Mm::RegistrationRequest(_) => MmKind::RegistrationRequest,
        Mm::RegistrationAccept(_) => MmKind::RegistrationAccept,
        Mm::RegistrationComplete => MmKind::RegistrationComplete,
        Mm::RegistrationReject(_) => MmKind::RegistrationReject,
        Mm::DeregistrationRequestUeOriginating(_) => MmKind::DeregistrationRequestUeOriginating,
        Mm::DeregistrationAcceptUeOriginating => MmKind::DeregistrationAcceptUeOriginating,
        Mm::DeregistrationRequestUeTerminated(_) => MmKind::DeregistrationRequestUeTerminated,
        Mm::DeregistrationAcceptUeTerminated => MmKind::DeregistrationAcceptUeTerminated,
        Mm::ServiceRequest(_) => MmKind::ServiceRequest,
        Mm::ServiceReject(_) => MmKind::ServiceReject,
        Mm::ServiceAccept(_) => MmKind::ServiceAccept,
        Mm::ConfigurationUpdateCommand(_) => MmKind::ConfigurationUpdateCommand,
        Mm::ConfigurationUpdateComplete => MmKind::ConfigurationUpdateComplete,
        Mm::AuthenticationRequest(_) => MmKind::AuthenticationRequest,
        Mm::AuthenticationResponse(_) => MmKind::AuthenticationResponse,
        Mm::AuthenticationReject => MmKind::AuthenticationReject,
        Mm::AuthenticationFailure(_) => MmKind::AuthenticationFailure,
        Mm::IdentityRequest(_) => MmKind::IdentityRequest,
        Mm::IdentityResponse(_) => MmKind::IdentityResponse,
        Mm::SecurityModeCommand(_) => MmKind::SecurityModeCommand,
        Mm::SecurityModeComplete(_) => MmKind::SecurityModeComplete,
        Mm::SecurityModeReject(_) => MmKind::SecurityModeReject,
        Mm::FiveGmmStatus(_) => MmKind::FiveGmmStatus,
        Mm::UlNasTransport(_) => MmKind::UlNasTransport,
        Mm::DlNasTransport(_) => MmKind::DlNasTransport,
    }
}
