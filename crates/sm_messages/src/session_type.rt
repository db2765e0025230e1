//! The types of PDU sessions.
ghost use Rattle.std.specs.Prelude.{◌≡◌, ◌%◌};
ghost use Rattle.nas_base.specs.declared.shape.Form.TheVariants as forms;
ghost use Rattle.nas_layout.specs.ReadBack.{ElementBack};
ghost use Rattle.sm_messages.specs.Parts.{session_type, session_type_of};

use nas_layout::{Coded, Readable, Spelled};
use std::marker::Model;

/// A PDU session type, 0 to 7: 1 is IPv4, 2 is IPv6, 3 is IPv4v6 (TS 24.501 clause 9.11.4.11). All eight are kept as they are.
#[derive(Clone, Copy, Debug, PartialEq, Eq)]
pub struct SessionType(pub u8);

impl Model for SessionType {
    ghost use Rattle.std.specs.Prelude.{ℕ, ◌<◌};

    ghost Value = { ℕ };

    ghost view = { λ t. t.0 };

    ghost invariant = { λ t. t.0 < 8 };

    ghost inverse = { λ n. record { 0 = n } };
}

impl SessionType {
    // The type in a half, whose bit 4 is passed over.
    pub(crate) fn from_half(half: u8) -> SessionType
        ensures { result ≡ session_type_of half }
    {
        SessionType(half % 8)
    }
}

impl Coded for SessionType {
    ghost use Rattle.sm_messages.specs.Parts.{session_type};

    ghost coding = { session_type };

    ghost most = { 1 };

    fn octets(&self) -> Spelled<'_> {
        Spelled::of_octets(&[self.0])
    }
}

impl Readable for SessionType {
    fn read_from(octets: &[u8]) -> Option<SessionType> {
        match octets {
            [octet, ..] => Some(SessionType::from_half(*octet % 16)),
            [] => Some(SessionType(0)),
        }
    }

    fn is_read_back(&self) {
        let _kind = self.0;
    }
}

// A type is read back as an element, under an identifier whose low half is 0. This does nothing: its contract is the law.
#[tactic(auto, using(crate::proofs::HalvesBack::type_element_back))]
pub(crate) fn type_element_is_read_back(iei: u8, value: &Option<SessionType>)
    requires { iei % 16 ≡ 0 }
    ensures { ElementBack iei forms.Half session_type value.now }
{
    if let Some(session_type) = value {
        let _kind = session_type.0;
    }
}
