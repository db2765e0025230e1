//! What can be seen of a subscriber.

use crate::Gutis;
use nas_base::AmfWord;
use nas_security::{Challenge, Context};

/// What can be seen of a subscriber: its word, whether it is registered, the context in use, the challenge whose context waits for the
/// answer to its SECURITY MODE COMMAND, the 5G-GUTIs that are kept for it, and whether the completion of the last REGISTRATION ACCEPT with
/// a 5G-GUTI has arrived.
#[derive(Drop)]
pub struct NetView {
    pub state: AmfWord,
    pub registered: bool,
    pub in_use: Option<Context>,
    pub pending: Option<Challenge>,
    pub kept: Gutis,
    pub completed: bool,
}
