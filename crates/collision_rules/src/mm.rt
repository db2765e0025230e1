//! 5GMM messages in the states of both ends.
ghost use Rattle.std.specs.Prelude.{◌≡◌};
ghost use Rattle.collision_rules.specs.Mm.{amf_row, collide_amf, collide_mm, row};

use crate::Action;
use nas_base::{AmfWord, MmKind, MmWord};

// The cells of the tables: taken, answered with STATUS 98, discarded.
const T: Action = Action::Take;

const S: Action = Action::Status98;

const D: Action = Action::Discard;

/// What a handset does with a message that passed its check (TS 24.501 clauses 5.4.1 to 5.4.5, 5.5.1, 5.5.2, 5.6.1 and 7.4). A
/// plain message that would be answered with `Status98` is to be discarded.
pub fn collide_mm(state: MmWord, kind: MmKind) -> Action
    ensures { result ≡ collide_mm state kind }
{
    match kind {
        MmKind::AuthenticationRequest
        | MmKind::AuthenticationReject
        | MmKind::SecurityModeCommand
        | MmKind::IdentityRequest
        | MmKind::RegistrationAccept => row(T, T, T, T, D, state),
        MmKind::RegistrationReject => row(T, T, S, S, D, state),
        MmKind::ServiceAccept | MmKind::ServiceReject => row(S, S, S, T, D, state),
        MmKind::DeregistrationRequestUeTerminated => row(D, T, T, T, T, state),
        MmKind::DeregistrationAcceptUeOriginating => row(S, S, S, S, T, state),
        MmKind::ConfigurationUpdateCommand => row(S, D, T, T, D, state),
        MmKind::DlNasTransport => row(S, T, T, T, D, state),
        MmKind::FiveGmmStatus => row(D, D, D, D, D, state),
        _ => row(S, S, S, S, D, state),
    }
}

// The cell of a state in a row of the handset's table.
fn row(
    new: Action,
    again: Action,
    registered: Action,
    serving: Action,
    deregistering: Action,
    state: MmWord,
) -> Action
    ensures { result ≡ row new again registered serving deregistering state }
{
    match state {
        MmWord::Deregistered => D,
        MmWord::RegisteringNew => new,
        MmWord::RegisteringAgain => again,
        MmWord::Registered => registered,
        MmWord::Serving => serving,
        MmWord::Deregistering => deregistering,
    }
}

/// What the AMF does with a message that passed its check, or that is permitted without one (TS 24.501 clauses 5.4.1 to 5.4.5,
/// 5.5.1, 5.5.2, 5.6.1 and 7.4). `registered` is whether the subscriber is registered. A SERVICE REQUEST is one that passed.
pub fn collide_amf(state: AmfWord, registered: bool, kind: MmKind) -> Action
    ensures { result ≡ collide_amf state registered kind }
{
    match kind {
        MmKind::RegistrationRequest
        | MmKind::DeregistrationRequestUeOriginating
        | MmKind::RegistrationComplete
        | MmKind::AuthenticationResponse
        | MmKind::AuthenticationFailure
        | MmKind::SecurityModeComplete
        | MmKind::SecurityModeReject
        | MmKind::IdentityResponse
        | MmKind::DeregistrationAcceptUeTerminated
        | MmKind::ConfigurationUpdateComplete => amf_row(T, T, T, state, registered),
        MmKind::ServiceRequest => amf_row(T, T, D, state, registered),
        MmKind::UlNasTransport => amf_row(T, S, D, state, registered),
        MmKind::FiveGmmStatus => amf_row(D, D, D, state, registered),
        _ => amf_row(S, S, S, state, registered),
    }
}

// The cell of a subscriber in a row of the AMF's table.
fn amf_row(
    registered: Action,
    other: Action,
    deregistering: Action,
    state: AmfWord,
    marked: bool,
) -> Action
    ensures { result ≡ amf_row registered other deregistering state marked }
{
    match state {
        AmfWord::Deregistering => deregistering,
        _ if marked => registered,
        _ => other,
    }
}
