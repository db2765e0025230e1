//! 5GSM messages in the states of a session.
ghost use Rattle.std.specs.Prelude.{◌≡◌};
ghost use Rattle.collision_rules.specs.Sm.{collide_sm, row};

use crate::{Action, PtiCase};
use nas_base::{SmKind, SmWord};

// The cells of the table: taken, discarded, answered with STATUS 98, 43 or 47.
const T: Action = Action::Take;

const D: Action = Action::Discard;

const S98: Action = Action::Status98;

const S43: Action = Action::Status43;

const S47: Action = Action::Status47;

/// What a handset does with a 5GSM message of a session in this state (TS 24.501 clauses 6.3.2, 6.3.3, 6.4.1 to 6.4.3, 7.3 and
/// 7.4). A MODIFICATION COMMAND equal to the last one that was answered doesn't come here: it has the same answer again.
pub fn collide_sm(state: SmWord, kind: SmKind, pti: PtiCase) -> Action
    ensures { result ≡ collide_sm state kind pti }
{
    match (kind, pti) {
        (SmKind::PduSessionEstablishmentAccept, PtiCase::Mine) => row(D, T, D, D, D, state),
        (SmKind::PduSessionEstablishmentReject, PtiCase::Mine) => row(D, T, D, D, D, state),
        (SmKind::PduSessionModificationCommand, PtiCase::None) => row(S43, S43, T, T, D, state),
        (SmKind::PduSessionModificationCommand, PtiCase::Mine) => row(S43, S43, S47, T, D, state),
        (SmKind::PduSessionModificationCommand, PtiCase::Foreign) => row(
            S43, S43, S47, S47, D, state,
        ),
        (SmKind::PduSessionModificationReject, PtiCase::Mine) => row(D, D, D, T, D, state),
        (SmKind::PduSessionReleaseCommand, _) => row(S43, S43, T, T, T, state),
        (SmKind::PduSessionReleaseReject, PtiCase::Mine) => row(D, D, D, D, T, state),
        (SmKind::PduSessionEstablishmentRequest, _)
        | (SmKind::PduSessionModificationRequest, _)
        | (SmKind::PduSessionModificationComplete, _)
        | (SmKind::PduSessionModificationCommandReject, _)
        | (SmKind::PduSessionReleaseRequest, _)
        | (SmKind::PduSessionReleaseComplete, _) => row(S98, S98, S98, S98, S98, state),
        _ => row(D, D, D, D, D, state),
    }
}

// The cell of a state in a row of the table.
fn row(
    inactive: Action,
    active_pending: Action,
    active: Action,
    modification_pending: Action,
    inactive_pending: Action,
    state: SmWord,
) -> Action
    ensures { result ≡ row inactive active_pending active modification_pending inactive_pending state }
{
    match state {
        SmWord::Inactive => inactive,
        SmWord::ActivePending => active_pending,
        SmWord::Active => active,
        SmWord::ModificationPending => modification_pending,
        SmWord::InactivePending => inactive_pending,
    }
}
