//! The kinds of 5GMM messages.
ghost use Rattle.std.specs.Prelude.{◌≡◌};
ghost use Rattle.nas_base.specs.Kinds.{mm_kind, mm_type};

/// A kind of 5GMM message (TS 24.501 table 9.7.1).
#[derive(Clone, Copy, Debug, PartialEq, Eq)]
pub enum MmKind {
    /// REGISTRATION REQUEST (type 41).
    RegistrationRequest,
    /// REGISTRATION ACCEPT (type 42).
    RegistrationAccept,
    /// REGISTRATION COMPLETE (type 43).
    RegistrationComplete,
    /// REGISTRATION REJECT (type 44).
    RegistrationReject,
    /// DEREGISTRATION REQUEST, which the handset began (type 45).
    DeregistrationRequestUeOriginating,
    /// DEREGISTRATION ACCEPT, which the handset began (type 46).
    DeregistrationAcceptUeOriginating,
    /// DEREGISTRATION REQUEST, which the network began (type 47).
    DeregistrationRequestUeTerminated,
    /// DEREGISTRATION ACCEPT, which the network began (type 48).
    DeregistrationAcceptUeTerminated,
    /// SERVICE REQUEST (type 4C).
    ServiceRequest,
    /// SERVICE REJECT (type 4D).
    ServiceReject,
    /// SERVICE ACCEPT (type 4E).
    ServiceAccept,
    /// CONFIGURATION UPDATE COMMAND (type 54).
    ConfigurationUpdateCommand,
    /// CONFIGURATION UPDATE COMPLETE (type 55).
    ConfigurationUpdateComplete,
    /// AUTHENTICATION REQUEST (type 56).
    AuthenticationRequest,
    /// AUTHENTICATION RESPONSE (type 57).
    AuthenticationResponse,
    /// AUTHENTICATION REJECT (type 58).
    AuthenticationReject,
    /// AUTHENTICATION FAILURE (type 59).
    AuthenticationFailure,
    /// IDENTITY REQUEST (type 5B).
    IdentityRequest,
    /// IDENTITY RESPONSE (type 5C).
    IdentityResponse,
    /// SECURITY MODE COMMAND (type 5D).
    SecurityModeCommand,
    /// SECURITY MODE COMPLETE (type 5E).
    SecurityModeComplete,
    /// SECURITY MODE REJECT (type 5F).
    SecurityModeReject,
    /// 5GMM STATUS (type 64).
    FiveGmmStatus,
    /// UL NAS TRANSPORT (type 67).
    UlNasTransport,
    /// DL NAS TRANSPORT (type 68).
    DlNasTransport,
}

impl MmKind {
    /// Its message type.
    pub fn code(self) -> u8
        ensures { result ≡ mm_type self }
    {
        match self {
            MmKind::RegistrationRequest => 0x41,
            MmKind::RegistrationAccept => 0x42,
            MmKind::RegistrationComplete => 0x43,
            MmKind::RegistrationReject => 0x44,
            MmKind::DeregistrationRequestUeOriginating => 0x45,
            MmKind::DeregistrationAcceptUeOriginating => 0x46,
            MmKind::DeregistrationRequestUeTerminated => 0x47,
            MmKind::DeregistrationAcceptUeTerminated => 0x48,
            MmKind::ServiceRequest => 0x4c,
            MmKind::ServiceReject => 0x4d,
            MmKind::ServiceAccept => 0x4e,
            MmKind::ConfigurationUpdateCommand => 0x54,
            MmKind::ConfigurationUpdateComplete => 0x55,
            MmKind::AuthenticationRequest => 0x56,
            MmKind::AuthenticationResponse => 0x57,
            MmKind::AuthenticationReject => 0x58,
            MmKind::AuthenticationFailure => 0x59,
            MmKind::IdentityRequest => 0x5b,
            MmKind::IdentityResponse => 0x5c,
            MmKind::SecurityModeCommand => 0x5d,
            MmKind::SecurityModeComplete => 0x5e,
            MmKind::SecurityModeReject => 0x5f,
            MmKind::FiveGmmStatus => 0x64,
            MmKind::UlNasTransport => 0x67,
            MmKind::DlNasTransport => 0x68,
        }
    }

    /// The kind of this message type, or None exactly where there is none here.
    pub fn from_code(code: u8) -> Option<MmKind>
        ensures { result ≡ mm_kind code }
    {
        let kind = match code {
            0x41 => MmKind::RegistrationRequest,
            0x42 => MmKind::RegistrationAccept,
            0x43 => MmKind::RegistrationComplete,
            0x44 => MmKind::RegistrationReject,
            0x45 => MmKind::DeregistrationRequestUeOriginating,
            0x46 => MmKind::DeregistrationAcceptUeOriginating,
            0x47 => MmKind::DeregistrationRequestUeTerminated,
            0x48 => MmKind::DeregistrationAcceptUeTerminated,
            0x4c => MmKind::ServiceRequest,
            0x4d => MmKind::ServiceReject,
            0x4e => MmKind::ServiceAccept,
            0x54 => MmKind::ConfigurationUpdateCommand,
            0x55 => MmKind::ConfigurationUpdateComplete,
            0x56 => MmKind::AuthenticationRequest,
            0x57 => MmKind::AuthenticationResponse,
            0x58 => MmKind::AuthenticationReject,
            0x59 => MmKind::AuthenticationFailure,
            0x5b => MmKind::IdentityRequest,
            0x5c => MmKind::IdentityResponse,
            0x5d => MmKind::SecurityModeCommand,
            0x5e => MmKind::SecurityModeComplete,
            0x5f => MmKind::SecurityModeReject,
            0x64 => MmKind::FiveGmmStatus,
            0x67 => MmKind::UlNasTransport,
            0x68 => MmKind::DlNasTransport,
            _ => return None,
        };
        Some(kind)
    }
}
