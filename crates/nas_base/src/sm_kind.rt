//! The kinds of 5GSM messages.
ghost use Rattle.std.specs.Prelude.{◌≡◌};
ghost use Rattle.nas_base.specs.Kinds.{sm_kind, sm_type};

/// A kind of 5GSM message (TS 24.501 table 9.7.2).
#[derive(Clone, Copy, Debug, PartialEq, Eq)]
pub enum SmKind {
    /// PDU SESSION ESTABLISHMENT REQUEST (type C1).
    PduSessionEstablishmentRequest,
    /// PDU SESSION ESTABLISHMENT ACCEPT (type C2).
    PduSessionEstablishmentAccept,
    /// PDU SESSION ESTABLISHMENT REJECT (type C3).
    PduSessionEstablishmentReject,
    /// PDU SESSION MODIFICATION REQUEST (type C9).
    PduSessionModificationRequest,
    /// PDU SESSION MODIFICATION REJECT (type CA).
    PduSessionModificationReject,
    /// PDU SESSION MODIFICATION COMMAND (type CB).
    PduSessionModificationCommand,
    /// PDU SESSION MODIFICATION COMPLETE (type CC).
    PduSessionModificationComplete,
    /// PDU SESSION MODIFICATION COMMAND REJECT (type CD).
    PduSessionModificationCommandReject,
    /// PDU SESSION RELEASE REQUEST (type D1).
    PduSessionReleaseRequest,
    /// PDU SESSION RELEASE REJECT (type D2).
    PduSessionReleaseReject,
    /// PDU SESSION RELEASE COMMAND (type D3).
    PduSessionReleaseCommand,
    /// PDU SESSION RELEASE COMPLETE (type D4).
    PduSessionReleaseComplete,
    /// 5GSM STATUS (type D6).
    FiveGsmStatus,
}

impl SmKind {
    /// Its message type.
    pub fn code(self) -> u8
        ensures { result ≡ sm_type self }
    {
        match self {
            SmKind::PduSessionEstablishmentRequest => 0xc1,
            SmKind::PduSessionEstablishmentAccept => 0xc2,
            SmKind::PduSessionEstablishmentReject => 0xc3,
            SmKind::PduSessionModificationRequest => 0xc9,
            SmKind::PduSessionModificationReject => 0xca,
            SmKind::PduSessionModificationCommand => 0xcb,
            SmKind::PduSessionModificationComplete => 0xcc,
            SmKind::PduSessionModificationCommandReject => 0xcd,
            SmKind::PduSessionReleaseRequest => 0xd1,
            SmKind::PduSessionReleaseReject => 0xd2,
            SmKind::PduSessionReleaseCommand => 0xd3,
            SmKind::PduSessionReleaseComplete => 0xd4,
            SmKind::FiveGsmStatus => 0xd6,
        }
    }

    /// The kind of this message type, or None exactly where there is none here.
    pub fn from_code(code: u8) -> Option<SmKind>
        ensures { result ≡ sm_kind code }
    {
        let kind = match code {
            0xc1 => SmKind::PduSessionEstablishmentRequest,
            0xc2 => SmKind::PduSessionEstablishmentAccept,
            0xc3 => SmKind::PduSessionEstablishmentReject,
            0xc9 => SmKind::PduSessionModificationRequest,
            0xca => SmKind::PduSessionModificationReject,
            0xcb => SmKind::PduSessionModificationCommand,
            0xcc => SmKind::PduSessionModificationComplete,
            0xcd => SmKind::PduSessionModificationCommandReject,
            0xd1 => SmKind::PduSessionReleaseRequest,
            0xd2 => SmKind::PduSessionReleaseReject,
            0xd3 => SmKind::PduSessionReleaseCommand,
            0xd4 => SmKind::PduSessionReleaseComplete,
            0xd6 => SmKind::FiveGsmStatus,
            _ => return None,
        };
        Some(kind)
    }
}
