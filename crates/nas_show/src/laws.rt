//! What holds of all that is shown. These functions do nothing: their contracts are the laws.
ghost use Rattle.nas_show.specs.Laws.{PiecesAreShown, SessionPiecesAreShown};

use mm_messages::Mm;
use sm_messages::SmFrame;

/// The lines of a message have the pieces of its spelling, in their order: each part as it stands there, each element by its value.
#[tactic(auto, unfolding(crate::specs::Shown::message_text))]
pub fn pieces_are_shown(message: &Mm)
    ensures { PiecesAreShown message.now }
{}

/// The same of a 5GSM message.
#[tactic(auto, unfolding(crate::specs::Shown::session_text))]
pub fn session_pieces_are_shown(frame: &SmFrame)
    ensures { SessionPiecesAreShown frame.now }
{}
