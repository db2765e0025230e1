//! What goes out of an SMF.
ghost use Rattle.std.specs.Prelude.{◌≡◌, [], ◌∷◌, ◌++◌, OnErr, OnOk};

use nas_base::{Memory, Moment, Octets, Psi};
use nas_timers::TimerId;
use std::alloc::Global;
use std::marker::Model;

/// What goes out of an SMF for a subscriber.
#[derive(Drop)]
pub enum SmfOut {
    /// A 5GSM message goes down to the handset.
    Down { psi: Psi, frame: Octets },
    /// The AMF is to run a security mode procedure.
    Fence,
    /// A timer is started.
    Start { id: TimerId, at: Moment },
    /// A timer is stopped.
    Stop(TimerId),
}

/// What goes out, in order.
#[derive(Drop)]
pub struct SmfOuts {
    pub items: Vec<SmfOut>,
}

impl Model for SmfOuts {
    ghost use Rattle.std.specs.Prelude.{List};
    ghost use Rattle.smf_core.specs.declared.outs.SmfOut.{SmfOut};

    ghost Value = { List SmfOut };

    ghost view = { λ o. o.items.items };
}

impl SmfOuts {
    /// Nothing.
    pub fn new(alloc: Global) -> SmfOuts
        ensures { result ≡ [] }
    {
        SmfOuts {
            items: Vec::new(alloc),
        }
    }

    /// One more at the end.
    ///
    /// # Errors
    ///
    /// `Memory`; nothing then changes.
    pub fn push(&mut self, _alloc: Global, out: SmfOut) -> Result<(), Memory>
        ensures ok { OnOk result (self.new ≡ self.old ++ out ∷ []) }
        ensures err { OnErr result (self.new ≡ self.old) }
    {
        match self.items.push(out) {
            Ok(()) => Ok(()),
            Err(_) => Err(Memory),
        }
    }
}
