//! What can be seen of a handset's 5GMM.

use nas_base::MmWord;
use nas_elements::Guti;
use nas_security::{Challenge, Context};

/// What can be seen of a handset's 5GMM.
#[derive(Drop)]
pub struct UeView {
    pub state: MmWord,
    pub connected: bool,
    /// Whether messages were exchanged securely on the connection.
    pub secure: bool,
    /// Whether the network takes it for registered, as far as the handset knows.
    pub registered: bool,
    pub guti: Option<Guti>,
    /// The security context in use.
    pub current: Option<Context>,
    /// The challenge whose key waits for a command.
    pub pending: Option<Challenge>,
    /// The greatest sequence number that was accepted, below 2^48.
    pub sqn_ms: u64,
}
