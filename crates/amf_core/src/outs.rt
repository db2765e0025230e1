//! What goes out of an AMF.
ghost use Rattle.std.specs.Prelude.{◌≡◌, [], ◌∷◌, ◌++◌, OnErr, OnOk};

use nas_base::{Memory, Moment, Octets, Psi, Supi};
use nas_elements::{Dnn, Slice, Status};
use nas_security::{Challenge, Pass, Send};
use nas_timers::TimerId;
use std::alloc::Global;
use std::marker::Model;

/// What an SMF is asked.
#[derive(Drop)]
pub enum SmfAsk {
    /// A 5GSM message of a session came, under the context of this challenge.
    Frame {
        psi: Psi,
        challenge: Challenge,
        dnn: Option<Dnn>,
        slice: Option<Slice>,
        octets: Octets,
    },
    /// Another context is in use.
    Switched,
    /// All sessions are to be released.
    ReleaseAll,
    /// All sessions outside this set are to be released.
    KeepOnly(Status),
}

/// What an SMF is asked of a subscriber.
#[derive(Drop)]
pub struct SmfCall {
    pub supi: Supi,
    pub call: SmfAsk,
}

/// What goes out of an AMF.
#[derive(Drop)]
pub enum AmfOut {
    /// A message is sent.
    Send(Send),
    /// A message passed this check.
    Passed(Pass),
    /// The SMF is asked something.
    Smf(SmfCall),
    /// A timer of a subscriber is started.
    Start { supi: Supi, id: TimerId, at: Moment },
    /// A timer of a subscriber is stopped.
    Stop { supi: Supi, id: TimerId },
}

/// What goes out, in order.
#[derive(Drop)]
pub struct AmfOuts {
    pub items: Vec<AmfOut>,
}

impl Model for AmfOuts {
    ghost use Rattle.std.specs.Prelude.{List};
    ghost use Rattle.amf_core.specs.declared.outs.AmfOut.{AmfOut};

    ghost Value = { List AmfOut };

    ghost view = { λ o. o.items.items };
}

impl AmfOuts {
    /// Nothing.
    pub fn new(alloc: Global) -> AmfOuts
        ensures { result ≡ [] }
    {
        AmfOuts {
            items: Vec::new(alloc),
        }
    }

    /// One more at the end.
    ///
    /// # Errors
    ///
    /// `Memory`; nothing then changes.
    pub fn push(&mut self, _alloc: Global, out: AmfOut) -> Result<(), Memory>
        ensures ok { OnOk result (self.new ≡ self.old ++ out ∷ []) }
        ensures err { OnErr result (self.new ≡ self.old) }
    {
        match self.items.push(out) {
            Ok(()) => Ok(()),
            Err(_) => Err(Memory),
        }
    }
}
