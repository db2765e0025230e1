//! The kind of a message.
ghost use Rattle.std.specs.Prelude.{◌≡◌};
ghost use Rattle.sm_messages.specs.KindOf.{kind_of};

use crate::Sm;
use nas_base::SmKind;

/// The kind of the message (TS 24.501 table 9.7.2).
pub fn kind_of(message: &Sm) -> SmKind
    ensures { result ≡ kind_of message.now }
{
    match message {
        Sm::PduSessionEstablishmentRequest(_) => SmKind::PduSessionEstablishmentRequest,
        Sm::PduSessionEstablishmentAccept(_) => SmKind::PduSessionEstablishmentAccept,
        Sm::PduSessionEstablishmentReject(_) => SmKind::PduSessionEstablishmentReject,
        Sm::PduSessionModificationRequest(_) => SmKind::PduSessionModificationRequest,
        Sm::PduSessionModificationReject(_) => SmKind::PduSessionModificationReject,
        Sm::PduSessionModificationCommand(_) => SmKind::PduSessionModificationCommand,
        Sm::PduSessionModificationComplete => SmKind::PduSessionModificationComplete,
        Sm::PduSessionModificationCommandReject(_) => SmKind::PduSessionModificationCommandReject,
        Sm::PduSessionReleaseRequest(_) => SmKind::PduSessionReleaseRequest,
        Sm::PduSessionReleaseReject(_) => SmKind::PduSessionReleaseReject,
        Sm::PduSessionReleaseCommand(_) => SmKind::PduSessionReleaseCommand,
        Sm::PduSessionReleaseComplete(_) => SmKind::PduSessionReleaseComplete,
        Sm::FiveGsmStatus(_) => SmKind::FiveGsmStatus,
    }
}
