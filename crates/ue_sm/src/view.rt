//! What can be seen of a handset's sessions.
ghost use Rattle.std.specs.Prelude.{◌≡◌, option_map};
ghost use Rattle.ue_sm.specs.Cells.{session_of, word_of};
ghost use Rattle.ue_sm.specs.State.{cell_of};

use crate::UeSm;
use nas_base::{Psi, SmWord};
use sm_messages::Session;

/// What can be seen of a handset's session: its state, and the session itself where it is there.
#[derive(Drop)]
pub struct UeSession<'a> {
    pub psi: Psi,
    pub state: SmWord,
    pub session: Option<&'a Session>,
}

impl UeSm {
    /// The session of an identity.
    pub fn session(&self, psi: Psi) -> UeSession<'_>
        ensures named { result.psi ≡ psi }
        ensures state { result.state ≡ word_of (cell_of psi self.now) }
        ensures session { option_map (λ s. s.now) result.session ≡ session_of (cell_of psi self.now) }
    {
        let cell = self.cell(psi);
        UeSession {
            psi,
            state: cell.word(),
            session: cell.session(),
        }
    }
}
