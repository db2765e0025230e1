//! Which messages are taken though they aren't protected.
ghost use Rattle.std.specs.Prelude.{◌≡◌};
ghost use Rattle.collision_rules.specs.Plain.{permitted_amf, permitted_ue};

use nas_base::MmKind;

/// Whether a handset takes a plain message of this kind before secure exchange (TS 24.501 clause 4.4.4.2). Of some of these kinds it
/// takes only those with certain types or causes.
pub fn permitted_ue(kind: MmKind) -> bool
    ensures { result ≡ permitted_ue kind }
{
    matches!(
        kind,
        MmKind::IdentityRequest
            | MmKind::AuthenticationRequest
            | MmKind::AuthenticationReject
            | MmKind::RegistrationReject
            | MmKind::DeregistrationAcceptUeOriginating
            | MmKind::ServiceReject
    )
}

/// Whether the AMF takes a message of this kind before secure exchange that is plain or failed its check (TS 24.501 clause
/// 4.4.4.3). Of some of these kinds it takes only those with certain identities.
pub fn permitted_amf(kind: MmKind) -> bool
    ensures { result ≡ permitted_amf kind }
{
    matches!(
        kind,
        MmKind::RegistrationRequest
            | MmKind::IdentityResponse
            | MmKind::AuthenticationResponse
            | MmKind::AuthenticationFailure
            | MmKind::SecurityModeReject
            | MmKind::DeregistrationAcceptUeTerminated
            | MmKind::ServiceRequest
    )
}
