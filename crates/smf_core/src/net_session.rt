//! What can be seen of a session at the SMF.
ghost use Rattle.std.specs.Prelude.{◌≡◌};
ghost use Rattle.smf_core.specs.Kept.{seen_as};

use crate::held::Held;
use nas_base::{Psi, SmfWord};
use sm_messages::Session;
use std::marker::Model;

/// A session at the SMF: its identity, the word of its state, how often its last command was given out, 0 where it has
/// had none, and what both ends know of it.
#[derive(Drop)]
pub struct NetSession<'a> {
    pub psi: Psi,
    pub state: SmfWord,
    pub sent: u8,
    pub session: &'a Session,
}

impl<'a> Model for NetSession<'a> {
    ghost use Rattle.smf_core.specs.Kept.{SeenSession};

    ghost Value = { SeenSession };

    ghost view = { λ s. record { psi = s.psi; state = s.state; sent = s.sent; session = s.session.now } };
}

impl<'a> NetSession<'a> {
    // What can be seen of what is kept.
    pub(crate) fn of(psi: Psi, held: &'a Held) -> NetSession<'a>
        ensures { result ≡ seen_as psi held.now }
    {
        NetSession {
            psi,
            state: held.phase.word(),
            sent: held.phase.sent(),
            session: &held.session,
        }
    }
}
