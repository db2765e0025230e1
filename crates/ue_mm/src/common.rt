//! What a handset's 5GMM has in every state.
ghost use Rattle.std.specs.Prelude.{◌≡◌};

use crate::procedures::copied;
use crate::{HandsetConfig, Request};
use nas_base::Ksi;
use nas_elements::Guti;
use nas_security::{Challenge, Context};
use std::marker::Model;

/// The key of a challenge that was accepted, until a SECURITY MODE COMMAND takes it into use: a partial native context
/// (TS 33.501 clauses 3.1 and 6.1.3.2).
#[derive(Clone, Copy)]
pub struct Pending {
    pub challenge: Challenge,
    pub ksi: Ksi,
    pub kamf: [u8; 32],
}

/// The challenge that was accepted last, with its RES*, so that it gets the same answer again (TS 24.501 clause 5.4.1.3.3).
#[derive(Drop)]
pub struct Stored {
    pub request: Request,
    pub res_star: [u8; 16],
}

/// What a handset's 5GMM has in every state.
#[derive(Drop)]
pub struct Common {
    pub config: HandsetConfig,
    /// Whether there is a connection, and whether messages were exchanged securely on it.
    pub connected: bool,
    pub secure: bool,
    pub guti: Option<Guti>,
    /// The security context in use.
    pub current: Option<Context>,
    pub pending: Option<Pending>,
    pub stored: Option<Stored>,
    /// SQN_MS, below 2^48: the greatest sequence number that was accepted.
    pub sqn: u64,
}

impl Model for Common {
    ghost use Rattle.std.specs.Prelude.{◌<◌, ◌^◌};
    ghost use Rattle.ue_mm.specs.Common.{Common as Kept};

    ghost Value = { Kept };

    ghost view = { λ c. record { config = c.config; connected = c.connected; secure = c.secure; guti = c.guti; current = c.current; pending = c.pending; stored = c.stored; sqn = c.sqn } };

    ghost invariant = { λ c. c.sqn < 2 ^ 48 };
}

impl Stored {
    /// An equal value.
    pub fn copy(&self) -> Stored
        ensures { result ≡ self.now }
    {
        Stored {
            request: self.request.copy(),
            res_star: self.res_star,
        }
    }
}

impl Common {
    /// An equal value.
    pub fn copy(&self) -> Common
        ensures { result ≡ self.now }
    {
        let stored = match &self.stored {
            Some(stored) => Some(stored.copy()),
            None => None,
        };
        Common {
            config: self.config.copy(),
            connected: self.connected,
            secure: self.secure,
            guti: copied(&self.guti),
            current: self.current,
            pending: self.pending,
            stored,
            sqn: self.sqn,
        }
    }
}
