//! Messages of the SMF that are kept as the octets that they are written as.
ghost use Rattle.std.specs.Prelude.{◌≡◌, ◌≤◌, length, IfOk};
ghost use Rattle.sm_messages.specs.Messages.{spelling};
ghost use Rattle.smf_core.specs.Kept.{is_accept};
ghost use Rattle.smf_core.specs.Spelling.{is_same_frame};

use nas_base::{Memory, Octets, Writer};
use sm_messages::{SmFrame, encode_sm, laws};
use std::alloc::Global;
use std::marker::Model;

// The message type of PDU SESSION ESTABLISHMENT ACCEPT (TS 24.501 table 9.7.2).
const ACCEPT: u8 = 0xc2;

/// A 5GSM message, kept as the octets that it is written as, 4,096 at most: it is
/// spelled once, and sent again as it stands.
#[derive(Drop)]
pub struct KeptMessage {
    octets: Octets,
}

impl Model for KeptMessage {
    ghost use Rattle.sm_messages.specs.declared.message.SmFrame.{SmFrame};
    ghost use Rattle.smf_core.specs.Spelling.{AreKept, frame_in};

    ghost Value = { SmFrame };

    ghost view = { λ m. frame_in m.octets };

    ghost invariant = { λ m. AreKept m.octets };
}

impl KeptMessage {
    /// The message, spelled.
    ///
    /// # Errors
    ///
    /// `Memory`.
    pub(crate) fn of(alloc: Global, frame: &SmFrame) -> Result<KeptMessage, Memory>
        requires { length (spelling frame.now) ≤ 4096 }
        ensures { IfOk result (λ message. message ≡ frame.now) }
    {
        laws::frame_is_read_back(frame);
        let mut out = Writer::new();
        let _ = encode_sm(frame, &mut out);
        match Octets::copy(alloc, out.octets()) {
            Ok(octets) => Ok(KeptMessage { octets }),
            Err(_) => Err(Memory),
        }
    }

    /// Its octets.
    pub fn octets(&self) -> &[u8]
        ensures { result.now ≡ spelling self.now }
    {
        self.octets.as_slice()
    }

    /// Its octets, which stay.
    pub fn into_octets(self) -> Octets
        ensures { result ≡ spelling self }
    {
        self.octets
    }

    /// Its procedure transaction identity.
    pub fn pti(&self) -> u8
        ensures { result ≡ self.now.pti }
    {
        self.octets()[2]
    }

    /// Whether it is PDU SESSION ESTABLISHMENT ACCEPT.
    pub fn is_accept(&self) -> bool
        ensures { result ≡ is_accept self.now.body }
    {
        self.octets()[3] == ACCEPT
    }

    /// Whether it is the same message.
    pub fn equals(&self, other: &KeptMessage) -> bool
        ensures { result ≡ is_same_frame self.now other.now }
    {
        self.octets() == other.octets()
    }

    /// An equal message.
    ///
    /// # Errors
    ///
    /// `Memory`.
    pub fn copy(&self, alloc: Global) -> Result<KeptMessage, Memory>
        ensures { IfOk result (λ copy. copy ≡ self.now) }
    {
        match Octets::copy(alloc, self.octets.as_slice()) {
            Ok(octets) => Ok(KeptMessage { octets }),
            Err(_) => Err(Memory),
        }
    }
}
