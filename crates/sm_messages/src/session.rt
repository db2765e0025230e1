//! What a PDU session is.
ghost use Rattle.std.specs.Prelude.{◌≡◌, ◌↔◌, IsTrue, IfOk};

use nas_base::Memory;
use nas_elements::{Address, Ambr, Dnn, Slice};
use nas_qos::Rules;
use std::alloc::Global;
use std::marker::Model;

/// A PDU session, as both ends keep it: its type 0 to 7, its address, data network and slice where they are known, the session
/// AMBR, and its QoS rules (TS 24.501 clause 6.1.1).
#[derive(Drop)]
pub struct Session {
    pub kind: u8,
    pub address: Option<Address>,
    pub dnn: Option<Dnn>,
    pub slice: Option<Slice>,
    pub ambr: Ambr,
    pub rules: Rules,
}

impl Model for Session {
    ghost use Rattle.std.specs.Prelude.{◌<◌};
    ghost use Rattle.sm_messages.specs.Session.{SessionValues};

    ghost Value = { SessionValues };

    ghost view = { λ s. record { kind = s.kind; address = s.address; dnn = s.dnn; slice = s.slice; ambr = s.ambr; rules = s.rules } };

    ghost invariant = { λ s. s.kind < 8 };
}

impl Session {
    /// Whether this is the same session.
    pub fn equals(&self, other: &Session) -> bool
        ensures { IsTrue result ↔ (self.now ≡ other.now) }
    {
        self.kind == other.kind
            && self.address == other.address
            && self.dnn == other.dnn
            && self.slice == other.slice
            && self.ambr == other.ambr
            && self.rules.equals(&other.rules)
    }

    /// An equal session.
    ///
    /// # Errors
    ///
    /// `Memory`.
    pub fn copy(&self, alloc: Global) -> Result<Session, Memory>
        ensures { IfOk result (λ session. session ≡ self.now) }
    {
        let rules = self.rules.copy(alloc)?;
        Ok(Session {
            kind: self.kind,
            address: self.address,
            dnn: copied_dnn(&self.dnn),
            slice: copied_slice(&self.slice),
            ambr: self.ambr,
            rules,
        })
    }
}

// An equal name, where there is one.
fn copied_dnn(dnn: &Option<Dnn>) -> Option<Dnn>
    ensures { result ≡ dnn.now }
{
    match dnn {
        Some(dnn) => Some(dnn.copy()),
        None => None,
    }
}

// An equal slice, where there is one.
fn copied_slice(slice: &Option<Slice>) -> Option<Slice>
    ensures { result ≡ slice.now }
{
    match slice {
        Some(slice) => Some(slice.copy()),
        None => None,
    }
}
